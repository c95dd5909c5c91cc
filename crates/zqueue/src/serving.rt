//! Serving the sites of a settings file.

ghost use Rattle.std.specs.Prelude.{◌≡◌};
ghost use Rattle.zqueue.specs.Levels.{filter_of};
ghost use Rattle.zqueue.specs.Refusal.{ended_of};

use crate::configured::{configured, site_configured};
use crate::logging::{close_log, open_log};
use crate::password::read_password;
use crate::refusal::Refusal;
use crate::settling::{read_file, settled};
use crate::site_thread::serve_in_thread;
use log::{LevelFilter, Logged};
use std::alloc::{AllocError, Global};
use std::fs::File;
use std::io;
use std::io::{BufWriter, Printer};
use std::net::{Net, TcpListener, TcpStream};
use std::random::RandomSource;
use std::rt::Files;
use std::sync::Wait;
use std::thread::Threads;
use std::time::Clock;
use zq_log::{LogQueue, QueueLog};
use zq_server::{Cause, LogLevel, Memory, ServeFault, SiteSettings, serve};

/// Serves the sites of the settings file of this name, and returns when all connections are done:
/// then with the status of the program, whose last line is written. Warnings go to standard output,
/// by a thread of their own (`open_log`, `close_log`). Where the settings break a rule standard
/// error names the file and the rule, and where something of the system failed it says what.
pub fn serve_file<R>(rt: R, alloc: Global, path: &str) -> Result<u8, Refusal>
where
    R: Files
        + Net<Listener = TcpListener, Stream = TcpStream>
        + RandomSource
        + Clock
        + Threads
        + Wait
        + Print
        + Eprint
        + Alloc<A = Global>
        + Copy
        + Send
        + Sync
        + 'static,
{
    let bytes = read_file(&rt, path)?;
    let settings = settled(&rt, path, configured(alloc, &bytes))?;
    let Ok(mut out) = start_lines(&rt, alloc) else {
        return Err(Refusal::Memory);
    };
    let queue = open_log(rt, alloc)?;
    let log = log_of(&rt, alloc, &*queue, settings.log_level);
    let served = serve(&log, alloc, &settings, &mut out);
    tell_cause(&rt, &served);
    Ok(close_log(&rt, alloc, &*queue, ended(served)))
}

/// Serves the one site of the settings file of this name, linked to its peers, by a thread of its
/// own, and returns when all connections of its clients are done, or within a second where another
/// run used the site's number. Warnings and notes, and what it returns, are as those of
/// `serve_file`.
pub fn serve_site_file<R>(rt: R, alloc: Global, path: &str) -> Result<u8, Refusal>
where
    R: Files<File = File>
        + Memory
        + Net<Listener = TcpListener, Stream = TcpStream>
        + RandomSource
        + Clock
        + Threads
        + Wait
        + Print
        + Eprint
        + Alloc<A = Global>
        + Copy
        + Send
        + Sync
        + 'static,
    R::Dir: Send,
{
    let bytes = read_file(&rt, path)?;
    let settings = settled(&rt, path, site_configured(alloc, &bytes))?;
    let password = read_password(&rt, &settings)?;
    let Ok(folder) = folder_of(alloc, &settings) else {
        return Err(Refusal::Memory);
    };
    let queue = open_log(rt, alloc)?;
    let served = serve_in_thread(rt, alloc, settings, password, &queue);
    tell_data_fault(&rt, folder, &served);
    Ok(close_log(&rt, alloc, &*queue, ended(served)))
}

/// What start lines are written to, all at once where they are flushed, so that no line of the log
/// comes between.
pub fn start_lines<R: Print>(
    rt: &R,
    alloc: Global,
) -> Result<BufWriter<Printer<'_, R>>, AllocError> {
    BufWriter::new(alloc, io::writer(rt)).map_err(|_| AllocError)
}

/// What logs into this queue, up to this level.
pub fn log_of<'a, R: Wait + Clock>(
    rt: &'a R,
    alloc: Global,
    queue: &'a LogQueue,
    level: LogLevel,
) -> Logged<&'a R, QueueLog<'a, R>> {
    Logged::new(rt, filter_of(level), QueueLog::new(rt, alloc, queue))
}

/// The most verbose level that is written where the log says so much.
fn filter_of(level: LogLevel) -> LevelFilter
    ensures { result ≡ filter_of level }
{
    match level {
        LogLevel::Warn => LevelFilter::Warn,
        LogLevel::Info => LevelFilter::Info,
        LogLevel::Debug => LevelFilter::Debug,
    }
}

/// The folder of a site's log, and nothing where it keeps none.
fn folder_of(alloc: Global, settings: &SiteSettings) -> Result<String, AllocError> {
    match &settings.disk.path {
        Some(path) => String::from_str(alloc, path.as_str()),
        None => Ok(String::new(alloc)),
    }
}

/// Standard error says what failed of the system, where something did, and of which folder it was.
fn tell_data_fault<R: Eprint>(rt: &R, folder: String, served: &Result<(), ServeFault>) {
    if let Err(ServeFault::Device(Cause::Data(fault))) = served {
        let _ = eprintln!(rt; "zqueue: {folder}/log: {fault}");
    } else {
        tell_cause(rt, served);
    }
}

/// Standard error says what failed of the system, where something did.
fn tell_cause<R: Eprint>(rt: &R, served: &Result<(), ServeFault>) {
    if let Err(ServeFault::Device(cause)) = served {
        let _ = eprintln!(rt; "zqueue: {cause}");
    }
}

/// How the program ends after it served.
fn ended(served: Result<(), ServeFault>) -> Result<(), Refusal>
    ensures { result ≡ ended_of served }
{
    match served {
        Ok(()) => Ok(()),
        Err(ServeFault::Device(_)) => Err(Refusal::Device),
        Err(ServeFault::NoMemory) => Err(Refusal::Memory),
        Err(ServeFault::Fenced) => Err(Refusal::Fenced),
    }
}
