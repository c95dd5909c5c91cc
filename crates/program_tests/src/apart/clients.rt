//! What the clients of sites do.

use super::places::{Place, connect};
use crate::patience::{LOOKS, nap};
use log::Log;
use std::alloc::Global;
use std::fs::File;
use std::io::{Read, Write};
use std::net::{Net, TcpListener, TcpStream};
use std::random::RandomSource;
use std::rt::Files;
use std::sync::atomic::AtomicU64;
use std::sync::{Mutex, Wait};
use std::test::Fail;
use std::thread;
use std::thread::Threads;
use std::time::Clock;
use zq_serve::Memory;
use zq_settings::SiteSettings;
use zq_site::{Ending, serve_site};

/// A step of the sites' clients, each of which has one connection.
#[derive(Drop)]
pub enum Step<'a> {
    /// The client of the site at this place sends a request, and this reply comes.
    Ask(usize, &'a [u8], &'a [u8]),
    /// It sends it again and again, until this reply comes.
    Await(usize, &'a [u8], &'a [u8]),
}

/// Whether the reply to these bytes is this one.
pub fn is_answered(
    alloc: Global,
    mut stream: &TcpStream,
    request: &[u8],
    want: &[u8],
) -> Result<bool, Fail> {
    stream.write_all(request)?;
    let mut reply = Vec::new(alloc);
    let mut byte = [0u8];
    for _byte in 0..want.len() {
        stream.read_exact(&mut byte)?;
        reply.push(byte[0])?;
        if reply.as_slice() != want.get(..reply.len()).unwrap_or(&[]) {
            break;
        }
    }
    let same = reply.as_slice() == want;
    if !same {
        drain(stream)?;
    }
    Ok(same)
}

/// Reads the rest of a reply that is one line.
pub fn drain(mut stream: &TcpStream) -> Result<(), Fail> {
    let mut byte = [0u8];
    for _byte in 0..64 {
        stream.read_exact(&mut byte)?;
        if byte == [b'\n'] {
            return Ok(());
        }
    }
    Err("a long line".into())
}

/// Follows a step.
pub fn follow<R: Clock>(
    rt: &R,
    alloc: Global,
    clients: &[TcpStream],
    step: &Step<'_>,
) -> Result<(), Fail> {
    let (Step::Ask(at, request, want) | Step::Await(at, request, want)) = step;
    let client = clients.get(*at).ok_or("a client")?;
    for _look in 0..LOOKS {
        if is_answered(alloc, client, request, want)? {
            return Ok(());
        }
        if let Step::Ask(..) = step {
            return Err("another reply".into());
        }
        nap(rt);
    }
    Err("the sites do not meet".into())
}

/// Follows the steps of the sites' clients, and then closes their connections.
pub fn follow_all<N: Net<Listener = TcpListener, Stream = TcpStream>, R: Clock>(
    net: &N,
    rt: &R,
    alloc: Global,
    places: &[Place],
    steps: &[Step<'_>],
) -> Result<(), Fail> {
    let mut clients = Vec::new(alloc);
    for place in places {
        clients.push(connect(net, rt, place.clients)?)?;
    }
    for step in steps {
        follow(rt, alloc, &clients, step)?;
    }
    Ok(())
}

/// Serves a site, and keeps what went wrong.
pub fn serve_one<N, L>(
    net: &N,
    log: &L,
    alloc: Global,
    settings: &SiteSettings,
    wrong: &Mutex<bool>,
)
where
    N: Net<Listener = TcpListener, Stream = TcpStream> + Files<File = File> + Memory + Sync,
    N::Dir: Send,
    L: Log + RandomSource + Clock + Threads + Wait + Sync,
{
    let mut written = Vec::new(alloc);
    if serve_site(
        net,
        log,
        alloc,
        settings,
        None,
        &mut written,
        &Ending::new(),
        &AtomicU64::new(0),
    )
    .is_err()
    {
        *wrong.lock(log) = true;
    }
}

/// Serves the sites while their clients follow the steps.
pub fn serve_all<N, L>(
    net: &N,
    log: &L,
    alloc: Global,
    places: &[Place],
    sites: &[SiteSettings],
    steps: &[Step<'_>],
) -> Result<bool, Fail>
where
    N: Net<Listener = TcpListener, Stream = TcpStream> + Files<File = File> + Memory + Sync,
    N::Dir: Send,
    L: Log + RandomSource + Clock + Threads + Wait + Sync,
{
    let wrong = Mutex::new(false);
    let shown = &wrong;
    let followed = thread::scope(thread::scope_env(), log, move |scope| {
        for settings in sites {
            let work = move || serve_one(net, log, alloc, settings, shown);
            if scope.spawn(work).is_err() {
                *shown.lock(log) = true;
            }
        }
        follow_all(net, log, alloc, places, steps)
    });
    followed?;
    Ok(!wrong.into_inner())
}
