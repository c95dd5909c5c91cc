//! The thread that serves a site.

use crate::serving::{log_of, start_lines};
use std::alloc::{AllocError, Global};
use std::fs::File;
use std::net::{Net, TcpListener, TcpStream};
use std::random::RandomSource;
use std::rt::Files;
use std::sync::{Arc, Wait};
use std::thread;
use std::thread::Threads;
use std::time::Clock;
use zq_log::LogQueue;
use zq_server::{Cause, Ending, Memory, Password, ServeFault, SiteSettings, serve_site};

/// Has a thread serve the site of these settings, which logs into this queue, and waits until the
/// site has ended, or is not to be waited for any longer (`Ending::wait`). Then that thread ends
/// with the program.
///
/// # Errors
///
/// Those of `serve_site`, and `Device` where no thread can be made.
pub fn serve_in_thread<R>(
    rt: R,
    alloc: Global,
    settings: SiteSettings,
    password: Option<Password>,
    queue: &Arc<LogQueue>,
) -> Result<(), ServeFault>
where
    R: Memory
        + Files<File = File>
        + Net<Listener = TcpListener, Stream = TcpStream>
        + RandomSource
        + Clock
        + Threads
        + Wait
        + Print
        + Copy
        + Send
        + Sync
        + 'static,
    R::Dir: Send,
{
    let ending = Arc::new(alloc, Ending::new()).map_err(AllocError::from)?;
    let (lines, told) = (Arc::try_clone(queue)?, Arc::try_clone(&ending)?);
    let serves = move || {
        let ended = serve_here(&rt, alloc, &settings, password, &*lines, &*told);
        told.end(&rt, ended);
    };
    match thread::spawn(&rt, serves) {
        Ok(_) => ending.wait(&rt),
        Err(_) => Err(ServeFault::Device(Cause::Thread)),
    }
}

/// Serves the site of these settings, which logs into this queue, and shows how many of its lines were
/// dropped.
fn serve_here<R>(
    rt: &R,
    alloc: Global,
    settings: &SiteSettings,
    password: Option<Password>,
    queue: &LogQueue,
    ending: &Ending,
) -> Result<(), ServeFault>
where
    R: Memory
        + Files<File = File>
        + Net<Listener = TcpListener, Stream = TcpStream>
        + RandomSource
        + Clock
        + Threads
        + Wait
        + Print
        + Sync,
    R::Dir: Send,
{
    let mut out = start_lines(rt, alloc)?;
    let log = log_of(rt, alloc, queue, settings.log_level);
    serve_site(
        rt,
        &log,
        alloc,
        settings,
        password,
        &mut out,
        ending,
        queue.dropped(),
    )
}
