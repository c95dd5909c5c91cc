//! Locking, in all its ways, and unlocking.
ghost use Rattle.std.specs.Prelude.{◌≡◌, ◌<◌, ◌≤◌, ◌↔◌, ◌++◌, ◌∷◌, Some, IfOk, IfErr, IfSome};
ghost use Rattle.zq_ticketlock.specs.Limits.{last_ticket};
ghost use Rattle.zq_ticketlock.specs.Seats.{id_of, lock_of, seen, HasSeen, turn, turns, served, reached, ticket_lock, ticket_seen, ticket_turns, held_lock, held_turns, given, value_of, entry, logged, held_logged, ticket_logged};
ghost use Rattle.zq_ticketlock.specs.Steps.{FollowsSeen};

use crate::errors::{TryFault, Worn};
use crate::held::Held;
use crate::keeps::Keeps;
use crate::lock::{LAST_TICKET, TicketLock};
use crate::seat::{Seat, Ticket};
use std::sync::Wait;

impl<T: Keeps> TicketLock<T> {
    /// Draws a ticket, after a wait at the door where it is crowded.
    fn draw_next<R: Wait>(&self, rt: &R, mut seat: Seat<T>) -> Result<Ticket<T>, (Worn, Seat<T>)>
        requires own { lock_of seat ≡ id_of self.now }
        ensures drawn { IfOk result (λ ticket. (ticket_lock ticket ≡ lock_of seat)
            × (ticket_seen ticket ≡ seen seat)) }
        ensures drawn_turns { IfOk result (λ ticket. ticket_turns ticket ≡ turns seat) }
        ensures drawn_logged { IfOk result (λ ticket. ticket_logged ticket ≡ logged seat) }
        ensures worn { IfErr result (λ e. (lock_of e.1 ≡ lock_of seat) × (seen e.1 ≡ seen seat)) }
        ensures worn_turns { IfErr result (λ e. turns e.1 ≡ turns seat) }
        ensures worn_logged { IfErr result (λ e. logged e.1 ≡ logged seat) }
        ensures last { IfErr result (λ e. last_ticket ≤ reached e.1) }
    {
        let mut next = self.look(&mut seat);
        if self.is_crowded(next) {
            self.wait_at_door(rt);
            next = self.look(&mut seat);
        }
        for _ in rt.forever() {
            if next >= LAST_TICKET {
                return Err((Worn, seat));
            }
            match self.draw(seat, next) {
                Ok(ticket) => return Ok(ticket),
                Err((found, back)) => {
                    next = found;
                    seat = back;
                }
            }
        }
        unreachable!()
    }

    /// Waits until the seat is served, and takes the value out. It follows what the seat had seen.
    /// Seats are served in the order of their tickets, which a thread may draw only after a wait at
    /// the door. Where the lock's tickets are used up, the seat comes back: it has found that the
    /// last one was reached.
    pub fn lock<R: Wait>(&self, rt: &R, seat: Seat<T>) -> Result<Held<T>, (Worn, Seat<T>)>
        requires own { lock_of seat ≡ id_of self.now }
        ensures lock { IfOk result (λ held. held_lock held ≡ lock_of seat) }
        ensures holds { IfOk result (λ held. T.holds (value_of held)) }
        ensures follows { IfOk result (λ held. FollowsSeen T.follows (value_of held) (seen seat)) }
        ensures given { IfOk result (λ held. given held ≡ Some (value_of held)) }
        ensures turns { IfOk result (λ held. held_turns held ≡ turns seat) }
        ensures logged { IfOk result (λ held. held_logged held ≡ logged seat) }
        ensures worn { IfErr result (λ e. (lock_of e.1 ≡ lock_of seat) × (seen e.1 ≡ seen seat)) }
        ensures worn_turns { IfErr result (λ e. turns e.1 ≡ turns seat) }
        ensures worn_logged { IfErr result (λ e. logged e.1 ≡ logged seat) }
        ensures last { IfErr result (λ e. last_ticket ≤ reached e.1) }
    {
        match self.draw_next(rt, seat) {
            Ok(ticket) => Ok(self.wait_for(rt, ticket)),
            Err(refused) => {
                // A thread that was called in and draws no ticket calls the next one, since it will
                // not release.
                self.door.call();
                Err(refused)
            }
        }
    }

    /// Lets two seats meet, and locks with the first. The value follows what either had seen, and
    /// both have the turns of both. Where the lock's tickets are used up, both come back, and have
    /// seen one value.
    pub fn lock_after<R: Wait>(
        &self,
        rt: &R,
        first: Seat<T>,
        second: Seat<T>,
    ) -> Result<(Held<T>, Seat<T>), (Worn, Seat<T>, Seat<T>)>
        requires own { (lock_of first ≡ id_of self.now) × (lock_of second ≡ id_of self.now) }
        ensures lock { IfOk result (λ r. (held_lock r.0 ≡ id_of self.now)
            × (lock_of r.1 ≡ id_of self.now)) }
        ensures holds { IfOk result (λ r. T.holds (value_of r.0)) }
        ensures follows { IfOk result (λ r. FollowsSeen T.follows (value_of r.0) (seen first)
            × FollowsSeen T.follows (value_of r.0) (seen second)) }
        ensures given { IfOk result (λ r. given r.0 ≡ Some (value_of r.0)) }
        ensures turns { IfOk result (λ r. held_turns r.0 ≡ turns first ++ turns second) }
        ensures logged { IfOk result (λ r. held_logged r.0 ≡ logged first ++ logged second) }
        ensures second_turns { IfOk result (λ r. turns r.1 ≡ turns first ++ turns second) }
        ensures second_logged { IfOk result (λ r. logged r.1 ≡ logged first ++ logged second) }
        ensures second { IfOk result
            (λ r. HasSeen r.1 (λ x. FollowsSeen T.follows x (seen second)
            × T.follows (value_of r.0) x)) }
        ensures worn_lock { IfErr result (λ e. (lock_of e.1 ≡ id_of self.now)
            × (lock_of e.2 ≡ id_of self.now)) }
        ensures worn { IfErr result (λ e. (seen e.1 ≡ seen e.2)
            × HasSeen e.1 (λ x. FollowsSeen T.follows x (seen first)
            × FollowsSeen T.follows x (seen second))) }
        ensures worn_turns { IfErr result (λ e. (turns e.1 ≡ turns first ++ turns second)
            × (turns e.2 ≡ turns first ++ turns second)) }
        ensures worn_logged { IfErr result (λ e. (logged e.1 ≡ logged first ++ logged second)
            × (logged e.2 ≡ logged first ++ logged second)) }
        ensures last { IfErr result (λ e. last_ticket ≤ reached e.1) }
    {
        let (one, other) = self.split(self.join(first, second));
        match self.lock(rt, one) {
            Ok(held) => Ok((held, other)),
            Err((worn, one)) => Err((worn, one, other)),
        }
    }

    /// Takes the value out if nobody holds the lock or waits with a ticket. It never sleeps, nor
    /// waits at the door. Or else the seat comes back: exhausted where it found that all tickets
    /// were served, and else busy, where it found that somebody else had drawn the ticket which is
    /// served.
    pub fn try_lock(&self, mut seat: Seat<T>) -> Result<Held<T>, (TryFault, Seat<T>)>
        requires own { lock_of seat ≡ id_of self.now }
        ensures lock { IfOk result (λ held. held_lock held ≡ lock_of seat) }
        ensures holds { IfOk result (λ held. T.holds (value_of held)) }
        ensures follows { IfOk result (λ held. FollowsSeen T.follows (value_of held) (seen seat)) }
        ensures given { IfOk result (λ held. given held ≡ Some (value_of held)) }
        ensures turns { IfOk result (λ held. held_turns held ≡ turns seat) }
        ensures logged { IfOk result (λ held. held_logged held ≡ logged seat) }
        ensures refused { IfErr result (λ e. (lock_of e.1 ≡ lock_of seat)
            × (seen e.1 ≡ seen seat)) }
        ensures refused_turns { IfErr result (λ e. turns e.1 ≡ turns seat) }
        ensures refused_logged { IfErr result (λ e. logged e.1 ≡ logged seat) }
        ensures worn { IfErr result (λ e. (e.0 ≡ TryFault.Worn) ↔ (last_ticket ≤ served e.1)) }
        ensures last { IfErr result (λ e. served e.1 ≤ reached e.1) }
        ensures busy { IfErr result (λ e. e.0 ≡ TryFault.Busy → served e.1 < reached e.1) }
    {
        let serving = self.look(&mut seat);
        if serving >= LAST_TICKET {
            return Err((TryFault::Worn, seat));
        }
        match self.try_draw(seat, serving) {
            Ok(held) => Ok(held),
            Err(seat) => Err((TryFault::Busy, seat)),
        }
    }

    /// Puts the value home, and lets the next thread have it. The seat has then seen it, and has
    /// this turn more: what it was given and what it put home.
    pub fn unlock(&self, held: Held<T>) -> Seat<T>
        requires own { held_lock held ≡ id_of self.now }
        requires holds { T.holds (value_of held) }
        requires follows { FollowsSeen T.follows (value_of held) (given held) }
        ensures lock { lock_of result ≡ held_lock held }
        ensures seen { seen result ≡ Some (value_of held) }
        ensures turns { IfSome (given held)
            (λ found. turns result ≡ turn found (value_of held) ∷ held_turns held) }
        ensures logged { IfSome (given held)
            (λ found. logged result ≡ entry held.ticket found (value_of held) ∷ held_logged held) }
    {
        let next_turn = held.ticket + 1;
        let seat = self.release(held);
        self.wake();
        self.look_at_door(next_turn);
        seat
    }
}
