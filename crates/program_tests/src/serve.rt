//! Sites that are served over loopback.

mod announcing;
mod drawing;
mod meeting;
mod working;

use crate::patience::{LOOKS, nap};
use crate::ports::two_ports;
use log::sink::Locked;
use log::{LevelFilter, Logged};
use std::alloc::Global;
use std::io::{ErrorKind, Read, Write};
use std::net::{Net, TcpListener, TcpStream};
use std::sync::Wait;
use std::test::Fail;
use std::thread::Threads;
use std::time::Clock;
use std::{str, thread};
use zq_serve::{Cause, ServeFault, serve};
use zq_settings::{Settings, settings};

/// Settings of sites of two heaps on these ports, each of which accepts one connection, and wants no
/// more descriptors than there are.
fn settings_of(alloc: Global, ports: &[u16]) -> Result<Settings, Fail> {
    let text = format!(in alloc;
        "ports = {ports:?}\nheaps = 2\nworkers = 2\nconnections = 1\nclients = 100\n"
    )?;
    Ok(settings(alloc, text.as_str())?)
}

/// A stream to the port, once somebody listens there.
fn connect<R: Net<Listener = TcpListener, Stream = TcpStream> + Clock>(
    rt: &R,
    port: u16,
) -> Result<TcpStream, Fail> {
    for _look in 0..LOOKS {
        match TcpStream::connect(rt, ("127.0.0.1", port)) {
            Ok(stream) => return Ok(stream),
            Err(_) => nap(rt),
        }
    }
    Err("nobody listens".into())
}

/// What is answered to these bytes before the port's site closes the connection.
fn asked<R: Net<Listener = TcpListener, Stream = TcpStream> + Clock>(
    rt: &R,
    alloc: Global,
    port: u16,
    bytes: &[u8],
) -> Result<Vec<u8>, Fail> {
    let mut stream = connect(rt, port)?;
    stream.write_all(bytes)?;
    stream.shutdown(std::net::Shutdown::Write)?;
    let mut answer = Vec::new(alloc);
    stream.read_to_end(&mut answer)?;
    Ok(answer)
}

const ADD: &[u8] = b"*4\r\n$4\r\nZADD\r\n$1\r\nq\r\n$1\r\n3\r\n$1\r\na\r\n";

const PING: &[u8] = b"*1\r\n$4\r\nPING\r\n";

const CARD: &[u8] = b"*2\r\n$5\r\nZCARD\r\n$1\r\nq\r\n";

const RANGE: &[u8] = b"*4\r\n$6\r\nZRANGE\r\n$1\r\nq\r\n$1\r\n0\r\n$2\r\n-1\r\n";

/// The reply to these bytes, which is so long.
fn replied<const N: usize>(stream: &mut TcpStream, bytes: &[u8]) -> Result<[u8; N], Fail> {
    stream.write_all(bytes)?;
    let mut reply = [0u8; N];
    stream.read_exact(&mut reply)?;
    Ok(reply)
}

/// Sends these bytes again and again, until this is the reply to them.
fn await_reply<const N: usize, R: Clock>(
    rt: &R,
    stream: &mut TcpStream,
    bytes: &[u8],
    want: &[u8; N],
) -> Result<(), Fail> {
    for _look in 0..LOOKS {
        let reply: [u8; N] = replied(stream, bytes)?;
        if reply.as_slice() == want.as_slice() {
            return Ok(());
        }
        nap(rt);
    }
    Err("the sites do not meet".into())
}

/// The members of the key at the port's site, once it has one.
fn awaited<R: Net<Listener = TcpListener, Stream = TcpStream> + Clock>(
    rt: &R,
    port: u16,
) -> Result<[u8; 11], Fail> {
    let mut stream = connect(rt, port)?;
    await_reply(rt, &mut stream, CARD, b":1\r\n")?;
    replied(&mut stream, RANGE)
}

/// What clients are answered, each at the port of its site, while the sites are served, and what is
/// written and logged.
#[derive(Drop)]
struct Served {
    ended: Result<(), ServeFault>,
    answers: [Vec<u8>; 2],
    written: Vec<u8>,
    logged: Vec<u8>,
}

/// Serves two sites to a client each, the second after the first.
fn served_to_two<R>(
    rt: &R,
    alloc: Global,
    ports: [u16; 2],
    asks: [&[u8]; 2],
) -> Result<Served, Fail>
where
    R: Net<Listener = TcpListener, Stream = TcpStream>
        + std::random::RandomSource
        + Clock
        + Threads
        + Wait
        + Sync,
{
    let settings = settings_of(alloc, ports.as_slice())?;
    let sink = Locked::new(rt, Vec::new(alloc));
    let log = Logged::new(rt, LevelFilter::Warn, sink);
    let mut written = Vec::new(alloc);
    let (ended, answers) = thread::join(
        rt,
        || serve(&log, alloc, &settings, &mut written),
        || -> Result<[Vec<u8>; 2], Fail> {
            let first = asked(rt, alloc, ports[0], asks[0])?;
            let second = asked(rt, alloc, ports[1], asks[1])?;
            Ok([first, second])
        },
    );
    let answers = answers?;
    let (_, sink) = log.into_parts();
    let logged = sink.into_inner();
    Ok(Served {
        ended,
        answers,
        written,
        logged,
    })
}

#[test]
fn clients_are_served_by_the_site_of_their_port(rt: HostRuntime) -> Result<(), Fail> {
    let alloc = rt.alloc();
    let ports = two_ports(&rt, rt.process())?;
    let served = served_to_two(&rt, alloc, ports, [ADD, PING])?;
    let [first, second] = &served.answers;
    assert_eq!(rt; served.ended, Ok(()));
    assert_eq!(rt; first.as_slice(), b":1\r\n".as_slice());
    assert_eq!(rt; second.as_slice(), b"+PONG\r\n".as_slice());
    let lines = format!(in alloc; "site 0 port {}\nsite 1 port {}\n", ports[0], ports[1])?;
    assert!(rt; served.written.as_slice() == lines.as_bytes(), "{lines}");
    assert!(rt; served.logged.is_empty());
    Ok(())
}

/// What a client of the second site finds there of what a client of the first one adds, and how
/// serving ends.
fn served_apart<R>(
    rt: &R,
    alloc: Global,
    ports: [u16; 2],
) -> Result<(Result<(), ServeFault>, [u8; 11]), Fail>
where
    R: Net<Listener = TcpListener, Stream = TcpStream>
        + std::random::RandomSource
        + Clock
        + Threads
        + Wait
        + Sync,
{
    let settings = settings_of(alloc, ports.as_slice())?;
    let log = Logged::new(rt, LevelFilter::Warn, Locked::new(rt, Vec::new(alloc)));
    let mut written = Vec::new(alloc);
    let (ended, found) = thread::join(
        rt,
        || serve(&log, alloc, &settings, &mut written),
        || -> Result<[u8; 11], Fail> {
            asked(rt, alloc, ports[0], ADD)?;
            awaited(rt, ports[1])
        },
    );
    Ok((ended, found?))
}

#[test]
fn what_one_site_is_told_another_has(rt: HostRuntime) -> Result<(), Fail> {
    let ports = two_ports(&rt, rt.process())?;
    let (ended, found) = served_apart(&rt, rt.alloc(), ports)?;
    assert_eq!(rt; ended, Ok(()));
    assert_eq!(rt; found.as_slice(), b"*1\r\n$1\r\na\r\n".as_slice());
    Ok(())
}

#[test]
fn what_is_no_request_is_warned_of(rt: HostRuntime) -> Result<(), Fail> {
    let alloc = rt.alloc();
    let ports = two_ports(&rt, rt.process())?;
    let served = served_to_two(&rt, alloc, ports, [PING, b"x"])?;
    let [first, second] = &served.answers;
    assert_eq!(rt; served.ended, Ok(()));
    assert_eq!(rt; first.as_slice(), b"+PONG\r\n".as_slice());
    assert_eq!(rt; second.as_slice(), b"-ERR Protocol error\r\n".as_slice());
    let log = str::from_utf8(&served.logged).map_err(|_| Fail::from("no text"))?;
    assert!(rt;
        log.lines().count() == 1 && log.contains("site 1 protocol fault"),
        "{log}"
    );
    Ok(())
}

#[test]
fn a_port_that_is_taken_is_a_device_fault(rt: HostRuntime) -> Result<(), Fail> {
    let alloc = rt.alloc();
    let taken = TcpListener::bind(&rt, "127.0.0.1:0")?;
    let address = taken.local_addr()?;
    let settings = settings_of(alloc, &[address.port()])?;
    let log = Logged::new(&rt, LevelFilter::Warn, Locked::new(&rt, Vec::new(alloc)));
    let mut written = Vec::new(alloc);
    assert_eq!(rt;
        serve(&log, alloc, &settings, &mut written),
        Err(ServeFault::Device(Cause::Address(address, ErrorKind::AddrInUse)))
    );
    assert!(rt; written.is_empty());
    Ok(())
}
