//! What the workers of a site do.

use super::{PING, connect, replied};
use crate::ports::free_ports;
use log::sink::Locked;
use log::{LevelFilter, Logged};
use std::alloc::Global;
use std::net::{Net, TcpListener, TcpStream};
use std::test::Fail;
use std::thread;
use std::time::{Clock, Duration};
use zq_serve::serve;
use zq_settings::{Settings, settings};

/// Settings of a site that is alone, with two workers, which accepts so many connections.
fn settings_of(alloc: Global, port: u16, connections: u8) -> Result<Settings, Fail> {
    let text = format!(in alloc;
        "ports = [{port}]\nheaps = 2\nworkers = 2\nconnections = {connections}\n"
    )?;
    Ok(settings(alloc, text.as_str())?)
}

/// Whether a client is answered within half a minute.
fn is_served(client: &mut TcpStream) -> Result<bool, Fail> {
    client.set_read_timeout(Some(Duration::from_secs(30)))?;
    let reply: [u8; 7] = replied(client, PING)?;
    Ok(reply == *b"+PONG\r\n")
}

/// Whether five clients are answered while all are connected.
fn are_served<R: Net<Listener = TcpListener, Stream = TcpStream> + Clock>(
    rt: &R,
    port: u16,
) -> Result<bool, Fail> {
    let mut clients = [
        connect(rt, port)?,
        connect(rt, port)?,
        connect(rt, port)?,
        connect(rt, port)?,
        connect(rt, port)?,
    ];
    let mut are_served = true;
    let each = clients.iter_mut();
    for client in each {
        are_served = is_served(client)? && are_served;
    }
    Ok(are_served)
}

#[test]
fn more_clients_are_served_at_once_than_there_are_workers(rt: HostRuntime) -> Result<(), Fail> {
    let alloc = rt.alloc();
    let [port, ..] = free_ports(&rt, rt.process())?;
    let settings = settings_of(alloc, port, 5)?;
    let log = Logged::new(&rt, LevelFilter::Warn, Locked::new(&rt, Vec::new(alloc)));
    let mut written = Vec::new(alloc);
    let (ended, served) = thread::join(
        &rt,
        || serve(&log, alloc, &settings, &mut written),
        || are_served(&rt, port),
    );
    assert!(rt; served?);
    assert_eq!(rt; ended, Ok(()));
    Ok(())
}

/// Whether a client is answered at 127.0.0.1, while nobody listens at 127.0.0.2. Then lets the site
/// end.
fn is_heard_here_alone<R: Net<Listener = TcpListener, Stream = TcpStream> + Clock>(
    rt: &R,
    port: u16,
) -> Result<bool, Fail> {
    let mut client = connect(rt, port)?;
    let elsewhere = TcpStream::connect(rt, ("127.0.0.2", port)).is_ok();
    let served = is_served(&mut client)?;
    drop(connect(rt, port)?);
    Ok(served && !elsewhere)
}

#[test]
fn clients_are_heard_at_one_address_alone(rt: HostRuntime) -> Result<(), Fail> {
    let alloc = rt.alloc();
    let [port, ..] = free_ports(&rt, rt.process())?;
    let settings = settings_of(alloc, port, 2)?;
    let log = Logged::new(&rt, LevelFilter::Warn, Locked::new(&rt, Vec::new(alloc)));
    let mut written = Vec::new(alloc);
    let (ended, heard) = thread::join(
        &rt,
        || serve(&log, alloc, &settings, &mut written),
        || is_heard_here_alone(&rt, port),
    );
    assert!(rt; heard?);
    assert_eq!(rt; ended, Ok(()));
    Ok(())
}
