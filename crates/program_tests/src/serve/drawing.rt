//! What is drawn where sites are served.

use super::asked;
use crate::ports::{free_ports, two_ports};
use log::sink::Locked;
use log::{LevelFilter, Logged};
use std::alloc::Global;
use std::fs::File;
use std::hash::{BuildHasher, Hasher};
use std::io::ErrorKind;
use std::net::{Net, TcpListener, TcpStream};
use std::random::RandomSource;
use std::rt::Files;
use std::sync::Wait;
use std::sync::atomic::AtomicU64;
use std::test::Fail;
use std::thread::Threads;
use std::time::Clock;
use std::{io, thread};
use zq_serve::{Cause, Memory, ServeFault, draw_hasher, serve};
use zq_settings::{Settings, SiteSettings, settings, site_settings};
use zq_site::{Ending, serve_site};

/// Settings of a site of 16 heaps that is alone, with this seed, which accepts one connection.
fn settings_of(alloc: Global, port: u16, seed: u64) -> Result<Settings, Fail> {
    let text = format!(in alloc;
        "ports = [{port}]\nheaps = 16\nworkers = 1\nconnections = 1\nseed = {seed}\n"
    )?;
    Ok(settings(alloc, text.as_str())?)
}

/// The same of a site in a process of its own, whose peers would dial in at the second port.
fn apart_settings_of(alloc: Global, ports: [u16; 2], seed: u64) -> Result<SiteSettings, Fail> {
    let [port, peers] = ports;
    let head = format!(in alloc; "site = 0\nport = {port}\nlisten = \"127.0.0.1:{peers}\"\n")?;
    let text = format!(in alloc;
        "{head}heaps = 16\nworkers = 1\nconnections = 1\nalone = 0\nseed = {seed}\n"
    )?;
    Ok(site_settings(alloc, text.as_str())?)
}

/// A ZADD of sixteen members, each of which lies in a heap of its own, and eight times ZPOPNEAR.
fn requests(alloc: Global) -> Result<Vec<u8>, Fail> {
    let mut bytes = Vec::from_slice(alloc, b"*34\r\n$4\r\nZADD\r\n$1\r\nq\r\n")?;
    for member in b'a'..=b'p' {
        bytes.extend_from_slice(b"$1\r\n1\r\n$1\r\n")?;
        bytes.extend_from_slice(&[member, b'\r', b'\n'])?;
    }
    for _pop in 0..8 {
        bytes.extend_from_slice(b"*2\r\n$8\r\nZPOPNEAR\r\n$1\r\nq\r\n")?;
    }
    Ok(bytes)
}

/// The replies to these requests, where these members are popped.
fn replies(alloc: Global, popped: &[u8]) -> Result<Vec<u8>, Fail> {
    let mut bytes = Vec::from_slice(alloc, b":16\r\n")?;
    for member in popped {
        bytes.extend_from_slice(b"*2\r\n$1\r\n")?;
        bytes.push(*member)?;
        bytes.extend_from_slice(b"\r\n$1\r\n1\r\n")?;
    }
    Ok(bytes)
}

/// What a site with this seed answers to them, and how serving ends.
fn answered<R>(
    rt: &R,
    alloc: Global,
    port: u16,
    seed: u64,
) -> Result<(Result<(), ServeFault>, Vec<u8>), Fail>
where
    R: Net<Listener = TcpListener, Stream = TcpStream>
        + RandomSource
        + Clock
        + Threads
        + Wait
        + Sync,
{
    let settings = settings_of(alloc, port, seed)?;
    let bytes = requests(alloc)?;
    let log = Logged::new(rt, LevelFilter::Warn, Locked::new(rt, Vec::new(alloc)));
    let mut written = Vec::new(alloc);
    let (ended, answer) = thread::join(
        rt,
        || serve(&log, alloc, &settings, &mut written),
        || asked(rt, alloc, port, &bytes),
    );
    Ok((ended, answer?))
}

/// What such a site in a process of its own answers, and how serving ends.
fn answered_apart<R>(
    rt: &R,
    alloc: Global,
    ports: [u16; 2],
    seed: u64,
) -> Result<(Result<(), ServeFault>, Vec<u8>), Fail>
where
    R: Memory
        + Files<File = File>
        + Net<Listener = TcpListener, Stream = TcpStream>
        + RandomSource
        + Clock
        + Threads
        + Wait
        + Sync,
    R::Dir: Send,
{
    let settings = apart_settings_of(alloc, ports, seed)?;
    let bytes = requests(alloc)?;
    let log = Logged::new(rt, LevelFilter::Warn, Locked::new(rt, Vec::new(alloc)));
    let mut written = Vec::new(alloc);
    let (ended, answer) = thread::join(
        rt,
        || serve_site(
            rt,
            &log,
            alloc,
            &settings,
            None,
            &mut written,
            &Ending::new(),
            &AtomicU64::new(0),
        ),
        || asked(rt, alloc, ports[0], &bytes),
    );
    Ok((ended, answer?))
}

/// Seeds, and the members that are popped by each. The words of these seeds were drawn elsewhere,
/// by PCG64, and the members' heaps by FNV-1a.
const POPPED: [(u64, &[u8; 8]); 2] = [(1, b"bijndmak"), (9_223_372_036_854_775_807, b"beknhjfa")];

#[test]
fn what_is_popped_near_goes_by_the_seed(rt: HostRuntime) -> Result<(), Fail> {
    let alloc = rt.alloc();
    for (seed, popped) in POPPED {
        let [port, ..] = free_ports(&rt, rt.process())?;
        let (ended, answer) = answered(&rt, alloc, port, seed)?;
        assert!(rt; ended.is_ok());
        assert!(rt;
            answer.as_slice() == replies(alloc, popped)?.as_slice(),
            "{seed}"
        );
    }
    Ok(())
}

#[test]
fn what_a_site_apart_pops_near_goes_by_the_seed(rt: HostRuntime) -> Result<(), Fail> {
    let alloc = rt.alloc();
    for (seed, popped) in POPPED {
        let ports = two_ports(&rt, rt.process())?;
        let (ended, answer) = answered_apart(&rt, alloc, ports, seed)?;
        assert!(rt; ended.is_ok());
        assert!(rt;
            answer.as_slice() == replies(alloc, popped)?.as_slice(),
            "{seed}"
        );
    }
    Ok(())
}

/// Gives these bytes, or nothing.
#[derive(Clone, Copy)]
struct Given(Option<[u8; 8]>);

impl RandomSource for Given {
    fn fill_bytes(&self, buf: &mut [u8]) -> io::Result<()> {
        let Some(bytes) = self.0 else {
            return Err(ErrorKind::Other.into());
        };
        for (to, from) in buf.iter_mut().zip(bytes) {
            *to = from;
        }
        Ok(())
    }
}

/// What the hasher makes of no bytes that is drawn where the system gives these.
fn hashed(given: Given) -> Result<u64, ServeFault> {
    Ok(draw_hasher(&given)?.build_hasher().finish())
}

/// What it is that the system gives no random bytes.
fn no_random_bytes() -> ServeFault {
    ServeFault::Device(Cause::Random(ErrorKind::Other))
}

#[test]
fn the_hasher_goes_by_each_byte_that_the_system_gives(rt: HostRuntime) {
    let nothing = hashed(Given(Some([0; 8])));
    assert!(rt; nothing.is_ok());
    for place in 0..8 {
        let mut bytes = [0; 8];
        bytes[place] = 1;
        assert!(rt; hashed(Given(Some(bytes))) != nothing, "{place}");
    }
    assert!(rt; hashed(Given(None)) == Err(no_random_bytes()));
}
