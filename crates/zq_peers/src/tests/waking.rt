//! A thread that waits in a mailbox, and what wakes it.

use super::next_letter;
use crate::Mailbox;
use std::alloc::{AllocError, Global};
use std::process::Abort;
use std::sync::Wait;
use std::sync::atomic::{AtomicBool, Ordering};
use std::thread::{Threads, join, sleep};
use std::time::{Clock, Duration};
use zq_dots::SiteNo;

/// A call of a mailbox that wakes who waits in it.
#[derive(Clone, Copy)]
pub enum Call {
    Give,
    Tick,
    Stop,
}

/// Each of them, with the letter of the message that is then taken.
pub const CALLS: [(Call, u8); 3] = [(Call::Give, b'f'), (Call::Tick, b't'), (Call::Stop, b's')];

/// Makes the call.
fn make<R: Wait>(rt: &R, alloc: Global, mailbox: &Mailbox, from: SiteNo, call: Call) {
    match call {
        Call::Give => drop(mailbox.give(rt, from, Vec::new(alloc))),
        Call::Tick => mailbox.tick(rt),
        Call::Stop => mailbox.stop(rt),
    }
}

/// Whether the flag is up within ten seconds.
fn comes_up<R: Clock>(rt: &R, flag: &AtomicBool) -> bool {
    for _look in 0..2_000 {
        if flag.load(Ordering::SeqCst) {
            return true;
        }
        let _ = sleep(rt, Duration::from_millis(5));
    }
    false
}

/// Takes a message, and raises one flag before and another one after it.
fn take_between<R: Wait>(rt: &R, mailbox: &Mailbox, before: &AtomicBool, after: &AtomicBool) -> u8 {
    before.store(true, Ordering::SeqCst);
    let letter = next_letter(rt, mailbox);
    after.store(true, Ordering::SeqCst);
    letter
}

/// Makes the call a while after another thread began to wait in the mailbox, and looks whether it
/// wakes. Answers the letter of what that thread took.
pub fn woken_by<R: Threads + Wait + Clock + Abort + Sync>(
    rt: &R,
    alloc: Global,
    from: SiteNo,
    call: Call,
) -> Result<u8, AllocError> {
    let mailbox = Mailbox::new(alloc, 1)?;
    let (before, after) = (AtomicBool::new(false), AtomicBool::new(false));
    let (letter, ()) = join(
        rt,
        || take_between(rt, &mailbox, &before, &after),
        || {
            assert!(rt; comes_up(rt, &before), "no thread began");
            let _ = sleep(rt, Duration::from_millis(200));
            make(rt, alloc, &mailbox, from, call);
            assert!(rt; comes_up(rt, &after), "nobody woke");
        },
    );
    Ok(letter)
}
