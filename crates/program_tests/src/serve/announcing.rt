//! What is written of the ports, and where that fails.

use crate::ports::free_ports;
use log::sink::Locked;
use log::{LevelFilter, Logged};
use std::alloc::Global;
use std::io;
use std::io::{ErrorKind, Write};
use std::net::{Net, TcpListener, TcpStream};
use std::random::RandomSource;
use std::sync::Wait;
use std::test::Fail;
use std::thread::Threads;
use std::time::Clock;
use zq_serve::{Cause, ServeFault, serve};
use zq_settings::settings;

/// Connects to a port whenever it is to write, and fails as it writes or as it is flushed.
#[derive(Drop)]
struct Knocking<'a, R: Net<Listener = TcpListener, Stream = TcpStream>> {
    net: &'a R,
    port: u16,
    writes: bool,
    heard: bool,
}

impl<R: Net<Listener = TcpListener, Stream = TcpStream>> Write for Knocking<'_, R> {
    fn write(&mut self, bytes: &[u8]) -> io::Result<usize> {
        self.heard = TcpStream::connect(self.net, ("127.0.0.1", self.port)).is_ok();
        if self.writes {
            Ok(bytes.len())
        } else {
            Err(ErrorKind::Other.into())
        }
    }

    fn flush(&mut self) -> io::Result<()> {
        Err(ErrorKind::Other.into())
    }
}

/// How serving a site ends whose line is not written, or not flushed, and whether somebody listens
/// by then.
fn served_to<R>(
    rt: &R,
    alloc: Global,
    port: u16,
    writes: bool,
) -> Result<(Result<(), ServeFault>, bool), Fail>
where
    R: Net<Listener = TcpListener, Stream = TcpStream>
        + RandomSource
        + Clock
        + Threads
        + Wait
        + Sync,
{
    let text = format!(in alloc; "ports = [{port}]\nconnections = 1\n")?;
    let settings = settings(alloc, text.as_str())?;
    let log = Logged::new(rt, LevelFilter::Warn, Locked::new(rt, Vec::new(alloc)));
    let mut out = Knocking {
        net: rt,
        port,
        writes,
        heard: false,
    };
    let ended = serve(&log, alloc, &settings, &mut out);
    Ok((ended, out.heard))
}

// A site that was served all the same would accept one of these connections, and end well.
#[test]
fn a_site_that_is_not_announced_is_not_served(rt: HostRuntime) -> Result<(), Fail> {
    for writes in [false, true] {
        let [port, ..] = free_ports(&rt, rt.process())?;
        let (ended, heard) = served_to(&rt, rt.alloc(), port, writes)?;
        assert!(rt; ended == Err(ServeFault::Device(Cause::Output)), "{writes}");
        assert!(rt; heard, "{writes}");
    }
    Ok(())
}
