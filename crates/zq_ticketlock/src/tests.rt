//! Crowds of threads that lock in every way, and locks at their last tickets.

mod crowd;
mod numbers;
mod pushing;

ghost use Rattle.std.specs.Prelude.{◌≡◌, IfOk};
ghost use Rattle.zq_ticketlock.specs.Seats.{id_of, lock_of};

use crate::{LAST_TICKET, Seat, TicketLock, TryFault, Worn};
use crowd::{hold_before_four, push_in_crowd};
use numbers::{Numbers, lock_after_both, lock_after_join};
use pushing::{holds_while_asked, push, try_push};
use std::alloc::Global;
use std::process::Abort;
use std::test::Fail;

/// A lock over an empty list, with its first seat.
fn opened(alloc: Global) -> Result<(TicketLock<Numbers>, Seat<Numbers>), Fail>
    ensures { IfOk result (λ made. lock_of made.1 ≡ id_of made.0) }
{
    match TicketLock::new(alloc, Numbers::new(alloc)) {
        Ok(made) => Ok(made),
        Err(_) => Err(Fail::from("memory")),
    }
}

/// The same, with so many tickets left.
fn opened_with(alloc: Global, tickets: u64) -> Result<(TicketLock<Numbers>, Seat<Numbers>), Fail>
    ensures { IfOk result (λ made. lock_of made.1 ≡ id_of made.0) }
{
    let first = LAST_TICKET.saturating_sub(tickets);
    match TicketLock::new_at(alloc, Numbers::new(alloc), first) {
        Ok(made) => Ok(made),
        Err(_) => Err(Fail::from("memory")),
    }
}

/// So many numbers from this one on stand there in their order.
fn in_order(numbers: &[u64], from: u64, count: u64) -> bool {
    let end = from.wrapping_add(count);
    let mut next = from;
    for number in numbers {
        if *number >= from && *number < end {
            if *number != next {
                return false;
            }
            next = next.wrapping_add(1);
        }
    }
    next == end
}

#[test]
fn crowds_push_in_their_order(rt: HostRuntime) -> Result<(), Fail> {
    for (threads, count) in [(8u64, 20_000u64), (64, 10_000)] {
        let (lock, seat) = opened(rt.alloc())?;
        let (first, second) = lock.split(seat);
        let (pushed, second) = push_in_crowd(&rt, rt.alloc(), &lock, second, threads, count)?;
        assert!(rt; pushed, "memory or tickets");
        let held = match lock_after_join(&rt, &lock, first, second) {
            Ok(held) => held,
            Err(_) => return Err(Fail::from("worn")),
        };
        let numbers = held.value().as_slice();
        assert_eq!(rt; numbers.len() as u64, threads.wrapping_mul(count));
        for thread in 0..threads {
            let from = thread.wrapping_mul(count);
            assert!(rt;
                in_order(numbers, from, count),
                "thread {thread} of {threads}"
            );
        }
        lock.unlock(held);
    }
    Ok(())
}

#[test]
fn a_seat_finds_another_busy(rt: HostRuntime) -> Result<(), Fail> {
    let (lock, seat) = opened(rt.alloc())?;
    let (first, second) = lock.split(seat);
    let (fault, first, second) = holds_while_asked(&rt, &lock, first, second, 7).ok_or("worn")?;
    assert_eq!(rt; fault, Some(TryFault::Busy));
    let second = try_push(&lock, second, 8).ok().ok_or("busy")?;
    let (held, _second) = match lock_after_both(&rt, &lock, first, second) {
        Ok(both) => both,
        Err(_) => return Err(Fail::from("worn")),
    };
    assert_eq!(rt; held.value().as_slice(), [7, 8].as_slice());
    lock.unlock(held);
    Ok(())
}

#[test]
fn a_lock_is_worn_after_its_last_ticket(rt: HostRuntime) -> Result<(), Fail> {
    let (lock, seat) = opened_with(rt.alloc(), 1)?;
    let seat = push(&rt, &lock, seat, 1).ok().ok_or("worn")?;
    let Err((Worn, seat)) = push(&rt, &lock, seat, 2) else {
        panic!(rt; "a ticket was left")
    };
    let Err((fault, _seat)) = try_push(&lock, seat, 2) else {
        panic!(rt; "a ticket was left")
    };
    assert_eq!(rt; fault, TryFault::Worn);
    Ok(())
}

#[test]
fn all_who_wait_at_the_door_come_in(rt: HostRuntime) -> Result<(), Fail> {
    for (tickets, pushed) in [(9, 4), (2, 1)] {
        let (lock, seat) = opened_with(rt.alloc(), tickets)?;
        let found = hold_before_four(&rt, rt.alloc(), &lock, seat)?;
        assert_eq!(rt;
            found,
            (Some(TryFault::Busy), pushed),
            "with {tickets} tickets"
        );
    }
    Ok(())
}
