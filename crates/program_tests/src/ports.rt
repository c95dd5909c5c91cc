//! Ports on which nobody listens.

use std::net::{Net, TcpListener, TcpStream};
use std::process;
use std::process::Process;
use std::test::Fail;

/// How many ports a test takes at most.
const MOST: usize = 8;

/// The first port that tests take. Systems hand out ports from 32,768 on, so no other program comes
/// by one of these unless it asks for it.
const FIRST: u32 = 20_000;

/// How many tests have ports of their own.
const TESTS: u32 = 1_500;

/// Ports on which nobody listens. Each test is a process, and tests that run at the same time take
/// other ports.
pub fn free_ports<R: Net<Listener = TcpListener, Stream = TcpStream>>(
    rt: &R,
    process: Process,
) -> Result<[u16; MOST], Fail> {
    let own = process::id(process) % TESTS;
    for further in 0..TESTS {
        let first = FIRST + (own + further) % TESTS * 8;
        if let Some(ports) = ports_from(rt, first as u16) {
            return Ok(ports);
        }
    }
    Err("no port is free".into())
}

/// Two such ports.
pub fn two_ports<R: Net<Listener = TcpListener, Stream = TcpStream>>(
    rt: &R,
    process: Process,
) -> Result<[u16; 2], Fail> {
    let [first, second, ..] = free_ports(rt, process)?;
    Ok([first, second])
}

/// The ports from this one on, where nobody listens on any.
fn ports_from<R: Net<Listener = TcpListener, Stream = TcpStream>>(
    rt: &R,
    first: u16,
) -> Option<[u16; MOST]> {
    let mut ports = [first; MOST];
    let mut next = first;
    for port in &mut ports {
        *port = next;
        drop(TcpListener::bind(rt, ("127.0.0.1", next)).ok()?);
        next = next.checked_add(1)?;
    }
    Some(ports)
}
