//! The thread that writes.

use crate::backlog::Entry;
use crate::line::line_of;
use crate::pen::Pen;
use crate::queue::LogQueue;
use crate::queue_log::now;
use crate::stamp::stamp_of;
use log::Level;
use std::alloc::{AllocError, Global};
use std::io::Write;
use std::sync::Wait;
use std::time::Clock;

/// Writes the lines of a queue to a writer, in their order, until no more come and all are written.
/// Before a line that others were dropped before it says how many: `12 lines dropped`. It waits
/// where the writer waits.
pub fn write_lines<R: Wait + Clock, W: Write + Drop>(
    rt: &R,
    alloc: Global,
    queue: &LogQueue,
    writer: W,
) {
    let mut pen = Pen::new(writer);
    for _ in rt.forever() {
        let Some(entry) = queue.next(rt) else {
            break;
        };
        write_entry(rt, alloc, &mut pen, &entry);
        queue.count(rt);
    }
    queue.close(rt);
}

/// Writes how many lines were dropped, and the line after them.
fn write_entry<R: Clock, W: Write>(rt: &R, alloc: Global, pen: &mut Pen<W>, entry: &Entry) {
    if entry.lost > 0 {
        if let Ok(line) = loss_of(alloc, now(rt).milli, entry.lost) {
            pen.write(line.as_slice());
        }
    }
    if !entry.line.is_empty() {
        pen.write(entry.line.as_slice());
    }
}

/// The line that says how many were dropped.
fn loss_of(alloc: Global, milli: u64, lost: u64) -> Result<Vec<u8>, AllocError> {
    let message = format!(in alloc; "{lost} lines dropped")?;
    line_of(
        alloc,
        &stamp_of(milli),
        Level::Warn,
        message.as_bytes(),
        &[],
        0,
    )
}
