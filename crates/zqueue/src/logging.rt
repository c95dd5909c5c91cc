//! The log of the program that serves.

ghost use Rattle.std.specs.Prelude.{◌≡◌};
ghost use Rattle.zqueue.specs.Refusal.{IsStatusOf, patience_with};

use crate::refusal::{Refusal, finish};
use std::alloc::Global;
use std::sync::{Arc, Wait};
use std::thread::Threads;
use std::time::{Clock, Duration};
use std::{io, thread};
use zq_log::{LogQueue, write_lines};
use zq_server::Cause;

/// For how many milliseconds standard output may take no line of the log before the program ends
/// without what is left of it.
const PATIENCE: u64 = 2_000;

/// The same where another run used the site's number, since the program then ends within a second.
const SHORT_PATIENCE: u64 = 200;

/// Begins a log, whose lines a thread of its own writes to standard output. That thread ends with
/// the program, which does not wait for it.
///
/// # Errors
///
/// `Memory`, or `Device` where no thread can be made, which standard error says.
pub fn open_log<R>(rt: R, alloc: Global) -> Result<Arc<LogQueue>, Refusal>
where
    R: Threads + Wait + Clock + Print + Eprint + Copy + Send + 'static,
{
    let Ok(queue) = Arc::new(alloc, LogQueue::new(alloc)) else {
        return Err(Refusal::Memory);
    };
    let Ok(lines) = Arc::try_clone(&queue) else {
        return Err(Refusal::Memory);
    };
    match thread::spawn(
        &rt,
        move || write_lines(&rt, alloc, &*lines, io::writer(&rt)),
    ) {
        Ok(_) => Ok(queue),
        Err(_) => {
            let _ = eprintln!(rt; "zqueue: {}", Cause::Thread);
            Err(Refusal::Device)
        }
    }
}

/// Ends a log: the line of a refusal, if there is one, is its last. Answers the status of the
/// program. Where standard output takes nothing for 2 seconds, or for 200 milliseconds where another
/// run used the site's number, what is left is not written.
pub fn close_log<R: Wait + Clock>(
    rt: &R,
    alloc: Global,
    queue: &LogQueue,
    ended: Result<(), Refusal>,
) -> u8
    ensures { IsStatusOf ended result }
{
    let mut line = Vec::new(alloc);
    let status = finish(ended, &mut line);
    if !line.is_empty() {
        queue.put(rt, line);
    }
    queue.end(rt, Duration::from_millis(patience_with(ended)));
    status
}

/// For how many milliseconds standard output may take nothing as the program ends so.
fn patience_with(ended: Result<(), Refusal>) -> u64
    ensures { result ≡ patience_with ended }
{
    match ended {
        Err(Refusal::Fenced) => SHORT_PATIENCE,
        Ok(()) | Err(_) => PATIENCE,
    }
}
