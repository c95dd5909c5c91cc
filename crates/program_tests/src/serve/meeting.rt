//! What sites that are linked come to have.

use super::{CARD, await_reply, connect, replied};
use crate::ports::two_ports;
use log::sink::Locked;
use log::{LevelFilter, Logged};
use std::alloc::Global;
use std::io::{Read, Write};
use std::net::{Net, TcpListener, TcpStream};
use std::random::RandomSource;
use std::sync::Wait;
use std::test::Fail;
use std::thread;
use std::thread::Threads;
use std::time::{Clock, Duration};
use zq_serve::{ServeFault, serve};
use zq_settings::{Settings, settings};

/// Settings of two sites of two heaps and this rule, each of which accepts one connection.
fn settings_of(alloc: Global, ports: [u16; 2], rule: &str) -> Result<Settings, Fail> {
    let [first, second] = ports;
    let text = format!(in alloc;
        "ports = [{first}, {second}]\nheaps = 2\nworkers = 1\nconnections = 1\nrule = \"{rule}\"\n"
    )?;
    Ok(settings(alloc, text.as_str())?)
}

/// A ZADD of four members of so many bytes to a key of one letter.
fn long_add(alloc: Global, key: char, size: usize) -> Result<Vec<u8>, Fail> {
    let head = format!(in alloc; "*10\r\n$4\r\nZADD\r\n$1\r\n{key}\r\n")?;
    let between = format!(in alloc; "$1\r\n1\r\n${size}\r\n")?;
    let mut request = Vec::from_slice(alloc, head.as_bytes())?;
    for letter in [b'a', b'b', b'c', b'd'] {
        request.extend_from_slice(between.as_bytes())?;
        request.extend_from_slice(&vec![in alloc; letter; size]?)?;
        request.extend_from_slice(b"\r\n")?;
    }
    Ok(request)
}

/// Adds four members of so many bytes at the first port, and waits until the second one's site has
/// them.
fn add_and_await<R: Net<Listener = TcpListener, Stream = TcpStream> + Clock>(
    rt: &R,
    alloc: Global,
    ports: [u16; 2],
    size: usize,
) -> Result<(), Fail> {
    let (mut first, mut second) = (connect(rt, ports[0])?, connect(rt, ports[1])?);
    let reply: [u8; 4] = replied(&mut first, &long_add(alloc, 'q', size)?)?;
    if reply != *b":4\r\n" {
        return Err("not added".into());
    }
    await_reply(rt, &mut second, CARD, b":4\r\n")
}

/// The bytes of each member of a long call. A site goes over them before it holds a heap.
const LONG: usize = 1_000_000;

/// Makes a long call at the first site, and none after it. It says whether the second site has all
/// that was added after so many milliseconds. A call at the second one comes no earlier, since by
/// that it would itself ask for what it lacks.
fn is_told_of<R: Clock>(
    rt: &R,
    alloc: Global,
    first: &mut TcpStream,
    second: &mut TcpStream,
    key: char,
    millis: u64,
) -> Result<bool, Fail> {
    let added: [u8; 4] = replied(first, &long_add(alloc, key, LONG)?)?;
    let _ = thread::sleep(rt, Duration::from_millis(millis));
    let card = format!(in alloc; "*2\r\n$5\r\nZCARD\r\n$1\r\n{key}\r\n")?;
    let counted: [u8; 4] = replied(second, card.as_bytes())?;
    Ok(added == *b":4\r\n" && counted == *b":4\r\n")
}

/// Makes long calls at the first site, until the second one has been told of one in time.
fn add_and_be_silent<R: Net<Listener = TcpListener, Stream = TcpStream> + Clock>(
    rt: &R,
    alloc: Global,
    ports: [u16; 2],
) -> Result<(), Fail> {
    let (mut first, mut second) = (connect(rt, ports[0])?, connect(rt, ports[1])?);
    for (key, millis) in [('q', 500), ('r', 2_500), ('s', 12_500)] {
        if is_told_of(rt, alloc, &mut first, &mut second, key, millis)? {
            return Ok(());
        }
    }
    Err("the second site is not told".into())
}

/// A ZADD of a member of four bytes with a score of one digit.
fn put_of(alloc: Global, member: u32, score: u8) -> Result<String, Fail> {
    let text = format!(in alloc;
        "*4\r\n$4\r\nZADD\r\n$1\r\nq\r\n$1\r\n{score}\r\n$4\r\n{member}\r\n"
    )?;
    Ok(text)
}

/// Whether the reply says that a member was new to its site.
fn is_added(stream: &mut TcpStream) -> Result<bool, Fail> {
    let mut reply = [0u8; 4];
    stream.read_exact(&mut reply)?;
    Ok(reply == *b":1\r\n")
}

/// Puts a member with score 3 at one site and with score 5 at the other, and only then hears the
/// replies. It says whether neither site had seen the other's.
fn put_apart(
    alloc: Global,
    low: &mut TcpStream,
    high: &mut TcpStream,
    member: u32,
) -> Result<bool, Fail> {
    let (three, five) = (put_of(alloc, member, 3)?, put_of(alloc, member, 5)?);
    low.write_all(three.as_bytes())?;
    high.write_all(five.as_bytes())?;
    let (one, other) = (is_added(low)?, is_added(high)?);
    Ok(one && other)
}

/// Puts members apart until neither site has seen what the other put, and waits until both have the
/// least score.
fn put_and_await<R: Net<Listener = TcpListener, Stream = TcpStream> + Clock>(
    rt: &R,
    alloc: Global,
    ports: [u16; 2],
) -> Result<(), Fail> {
    let (mut low, mut high) = (connect(rt, ports[0])?, connect(rt, ports[1])?);
    for member in 1000..9999u32 {
        if put_apart(alloc, &mut low, &mut high, member)? {
            let score = format!(in alloc; "*3\r\n$6\r\nZSCORE\r\n$1\r\nq\r\n$4\r\n{member}\r\n")?;
            await_reply(rt, &mut low, score.as_bytes(), b"$1\r\n3\r\n")?;
            return await_reply(rt, &mut high, score.as_bytes(), b"$1\r\n3\r\n");
        }
    }
    Err("never apart".into())
}

/// What the clients of two sites do.
#[derive(Clone, Copy)]
enum Deed {
    /// One adds four members of 40,000 bytes at the first site.
    AddMuch,
    /// One makes calls at the first site, and is silent after each.
    BeSilent,
    /// Two put a member apart.
    PutApart,
}

/// Does the deed at the sites of these ports.
fn act<R: Net<Listener = TcpListener, Stream = TcpStream> + Clock>(
    rt: &R,
    alloc: Global,
    ports: [u16; 2],
    deed: Deed,
) -> Result<(), Fail> {
    match deed {
        Deed::AddMuch => add_and_await(rt, alloc, ports, 40_000),
        Deed::BeSilent => add_and_be_silent(rt, alloc, ports),
        Deed::PutApart => put_and_await(rt, alloc, ports),
    }
}

/// Serves two sites with this rule while their clients do the deed, and says how serving ended.
fn served_with<R>(
    rt: &R,
    alloc: Global,
    ports: [u16; 2],
    rule: &str,
    deed: Deed,
) -> Result<Result<(), ServeFault>, Fail>
where
    R: Net<Listener = TcpListener, Stream = TcpStream>
        + RandomSource
        + Clock
        + Threads
        + Wait
        + Sync,
{
    let settings = settings_of(alloc, ports, rule)?;
    let log = Logged::new(rt, LevelFilter::Warn, Locked::new(rt, Vec::new(alloc)));
    let mut written = Vec::new(alloc);
    let (ended, done) = thread::join(
        rt,
        || serve(&log, alloc, &settings, &mut written),
        || act(rt, alloc, ports, deed),
    );
    done?;
    Ok(ended)
}

#[test]
fn a_site_hears_of_more_than_64_kilobytes_at_once(rt: HostRuntime) -> Result<(), Fail> {
    let ports = two_ports(&rt, rt.process())?;
    let ended = served_with(&rt, rt.alloc(), ports, "HIGH", Deed::AddMuch)?;
    assert_eq!(rt; ended, Ok(()));
    Ok(())
}

#[test]
fn peers_are_told_of_the_last_call(rt: HostRuntime) -> Result<(), Fail> {
    let ports = two_ports(&rt, rt.process())?;
    let ended = served_with(&rt, rt.alloc(), ports, "HIGH", Deed::BeSilent)?;
    assert_eq!(rt; ended, Ok(()));
    Ok(())
}

#[test]
fn the_least_score_counts_where_the_settings_say_so(rt: HostRuntime) -> Result<(), Fail> {
    let ports = two_ports(&rt, rt.process())?;
    let ended = served_with(&rt, rt.alloc(), ports, "LOW", Deed::PutApart)?;
    assert_eq!(rt; ended, Ok(()));
    Ok(())
}
