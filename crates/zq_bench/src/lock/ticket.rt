//! A ticket lock over a count as a lock to be timed.

ghost use Rattle.std.specs.Prelude.{◌≡◌};
ghost use Rattle.zq_ticketlock.specs.Seats.{id_of, lock_of};

use crate::lock::worker::{Worker, worked};
use std::sync::Wait;
use zq_ticketlock::{Keeps, Seat, TicketLock};

#[derive(Drop)]
pub struct Total {
    pub count: u64,
}

impl Keeps for Total {
    ghost holds = { λ _. Unit {0} };

    ghost follows = { λ _ _. Unit {0} };

    ghost reflexive = { λ _. tt };

    ghost transitive = { λ _ _ _ _ _. tt };
}

/// A lock and a seat of it.
#[derive(Drop)]
pub struct Seated<'a> {
    pub lock: &'a TicketLock<Total>,
    pub seat: Seat<Total>,
    ghost own: { lock_of seat ≡ id_of lock.now },
}

impl<'a> Worker for Seated<'a> {
    fn lock_once<R: Wait>(self, rt: &R, work: u32) -> Option<Self> {
        let Seated { lock, seat } = self;
        let mut held = match lock.lock(rt, seat) {
            Ok(held) => held,
            Err(_) => return None,
        };
        let total = held.value_mut();
        total.count = worked(total.count.wrapping_add(1), work);
        let seat = lock.unlock(held);
        Some(Seated { lock, seat })
    }

    fn split(self) -> (Self, Self) {
        let Seated { lock, seat } = self;
        let (first, second) = lock.split(seat);
        (Seated { lock, seat: first }, Seated { lock, seat: second })
    }
}
