//! Many threads at one lock.
ghost use Rattle.std.specs.Prelude.{◌≡◌, IfOk};
ghost use Rattle.zq_ticketlock.specs.Seats.{id_of, lock_of};

use super::numbers::Numbers;
use super::pushing::{WAYS, push_all, push_by, try_push};
use crate::{Seat, TicketLock, TryFault};
use std::alloc::{AllocError, Global};
use std::sync::{Barrier, Wait};
use std::thread::{Threads, join, map_vec, sleep};
use std::time::{Clock, Duration};

/// A thread's part: a seat, and the first of the numbers that it pushes.
#[derive(Drop)]
pub struct Part<'a> {
    lock: &'a TicketLock<Numbers>,
    seat: Seat<Numbers>,
    from: u64,
    ghost own: { lock_of seat ≡ id_of lock.now },
}

/// Pushes as many numbers by each of so many threads. The first pushes the numbers from 0 on, and
/// each next one those that follow. Says whether all were pushed, and gives back a seat.
pub fn push_in_crowd<R: Threads + Wait + Sync>(
    rt: &R,
    alloc: Global,
    lock: &TicketLock<Numbers>,
    seat: Seat<Numbers>,
    threads: u64,
    count: u64,
) -> Result<(bool, Seat<Numbers>), AllocError>
    requires { lock_of seat ≡ id_of lock.now }
    ensures { IfOk result (λ r. lock_of r.1 ≡ id_of lock.now) }
{
    let (parts, seat) = parts(alloc, lock, seat, threads, count)?;
    let pushed = map_vec(
        rt,
        parts,
        &|part: Part| { push_all(rt, part.lock, part.seat, part.from, count).is_some() },
    )?;
    Ok((pushed.iter().all(|pushed| *pushed), seat))
}

fn parts<'a>(
    alloc: Global,
    lock: &'a TicketLock<Numbers>,
    mut seat: Seat<Numbers>,
    threads: u64,
    count: u64,
) -> Result<(Vec<Part<'a>>, Seat<Numbers>), AllocError>
    requires { lock_of seat ≡ id_of lock.now }
    ensures { IfOk result (λ r. lock_of r.1 ≡ id_of lock.now) }
{
    let mut parts = Vec::new(alloc);
    for thread in 0..threads {
        let (one, other) = lock.split(seat);
        let from = thread.wrapping_mul(count);
        parts.push(Part {
            lock,
            seat: one,
            from,
        })?;
        seat = other;
    }
    Ok((parts, seat))
}

/// Holds the lock until two of four other threads wait at the door, each of which takes it in a way
/// of its own. Says how a seat that tries meanwhile is refused, and how many of the four got the
/// lock.
pub fn hold_before_four<R: Clock + Threads + Wait + Sync>(
    rt: &R,
    alloc: Global,
    lock: &TicketLock<Numbers>,
    seat: Seat<Numbers>,
) -> Result<(Option<TryFault>, usize), AllocError>
    requires { lock_of seat ≡ id_of lock.now }
{
    let (parts, seat) = parts(alloc, lock, seat, 4, 1)?;
    let start = Barrier::new(5);
    let shared = &start;
    let (fault, pushed) = join(
        rt,
        move || -> Option<TryFault>
            requires { lock_of seat ≡ id_of lock.now }
        { ask_before_door(rt, lock, seat, shared) },
        move || {
            map_vec(
                rt,
                parts,
                &|part: Part| {
                    shared.wait(rt);
                    let way = WAYS[(part.from % 4) as usize];
                    push_by(rt, part.lock, part.seat, way, part.from).is_some()
                },
            )
        },
    );
    Ok((fault, pushed?.iter().filter(|pushed| **pushed).count()))
}

/// Locks, has the others start, and waits until two of them wait at the door, for two seconds at
/// most. Then tries the lock with another seat, and unlocks.
fn ask_before_door<R: Clock + Wait>(
    rt: &R,
    lock: &TicketLock<Numbers>,
    seat: Seat<Numbers>,
    start: &Barrier,
) -> Option<TryFault>
    requires { lock_of seat ≡ id_of lock.now }
{
    let (first, second) = lock.split(seat);
    let held = match lock.lock(rt, first) {
        Ok(held) => held,
        Err(_) => return None,
    };
    start.wait(rt);
    for _ in 0..2000 {
        if lock.door.waiting() >= 2 {
            break;
        }
        sleep(rt, Duration::from_millis(1));
    }
    let fault = match try_push(lock, second, 9) {
        Ok(_) => None,
        Err((fault, _)) => Some(fault),
    };
    lock.unlock(held);
    fault
}
