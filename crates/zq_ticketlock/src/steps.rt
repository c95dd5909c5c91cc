//! The steps. Each is one load, store or compare-exchange on one of the two words. One that takes
//! the value out of its slot, or puts it home, also moves it.
ghost use Rattle.std.specs.Prelude.{◌≡◌, ◌<◌, ◌++◌, ◌∷◌, Some, IfOk, IfErr, IfSome, MatchResult};
ghost use Rattle.zq_ticketlock.specs.Limits.{last_ticket};
ghost use Rattle.zq_ticketlock.specs.Seats.{id_of, lock_of, seen, HasSeen, turn, turns, served, reached, ticket_lock, ticket_seen, ticket_turns, held_lock, held_turns, given, logged, value_of, entry, held_logged, ticket_logged};
ghost use Rattle.zq_ticketlock.specs.Log.{AreChained};
ghost use Rattle.zq_ticketlock.specs.Steps.{FollowsSeen};

use crate::held::Held;
use crate::keeps::Keeps;
use crate::lock::{NEXT, SERVING, TicketLock};
use crate::order::{Arrive, Draw, Look, Meet, Release, Settle, Share, Try};
use crate::seat::{Seat, Ticket};

impl<T: Keeps> TicketLock<T> {
    /// Reads which ticket is served.
    pub(crate) fn look(&self, seat: &mut Seat<T>) -> u64
        requires own { lock_of seat.old ≡ id_of self.now }
        ensures lock { lock_of seat.new ≡ lock_of seat.old }
        ensures seen { seen seat.new ≡ seen seat.old }
        ensures turns { turns seat.new ≡ turns seat.old }
        ensures logged { logged seat.new ≡ logged seat.old }
        ensures served { result ≡ served seat.new }
        ensures reached { result ≡ reached seat.new }
    {
        self.table.shared.load::<Look>(&mut seat.place, SERVING)
    }

    /// Draws this ticket, if it is next. Or else finds which one is next.
    pub(crate) fn draw(&self, seat: Seat<T>, number: u64) -> Result<Ticket<T>, (u64, Seat<T>)>
        requires own { lock_of seat ≡ id_of self.now }
        requires in_range { number < last_ticket }
        ensures drawn { IfOk result (λ ticket. (ticket_lock ticket ≡ lock_of seat)
            × (ticket_seen ticket ≡ seen seat)) }
        ensures drawn_turns { IfOk result (λ ticket. ticket_turns ticket ≡ turns seat) }
        ensures drawn_logged { IfOk result (λ ticket. ticket_logged ticket ≡ logged seat) }
        ensures missed { IfErr result (λ e. (lock_of e.1 ≡ lock_of seat) × (seen e.1 ≡ seen seat)) }
        ensures missed_turns { IfErr result (λ e. turns e.1 ≡ turns seat) }
        ensures missed_logged { IfErr result (λ e. logged e.1 ≡ logged seat) }
        ensures found { IfErr result (λ e. e.0 ≡ reached e.1) }
    {
        let Seat { mut place } = seat;
        let found = self
            .table
            .shared
            .compare_exchange::<Draw>(&mut place, NEXT, number, number + 1);
        if found == number {
            Ok(Ticket { place, number })
        } else {
            Err((found, Seat { place }))
        }
    }

    /// Takes the value out, if the ticket is served. Or else finds which one is.
    pub(crate) fn arrive(&self, ticket: Ticket<T>) -> Result<Held<T>, (u64, Ticket<T>)>
        requires own { ticket_lock ticket ≡ id_of self.now }
        ensures lock { IfOk result (λ held. held_lock held ≡ ticket_lock ticket) }
        ensures holds { IfOk result (λ held. T.holds (value_of held)) }
        ensures follows { IfOk result
            (λ held. FollowsSeen T.follows (value_of held) (ticket_seen ticket)) }
        ensures given { IfOk result (λ held. given held ≡ Some (value_of held)) }
        ensures turns { IfOk result (λ held. held_turns held ≡ ticket_turns ticket) }
        ensures logged { IfOk result (λ held. held_logged held ≡ ticket_logged ticket) }
        ensures missed { IfErr result (λ e. (ticket_lock e.1 ≡ ticket_lock ticket)
            × (ticket_seen e.1 ≡ ticket_seen ticket)) }
        ensures missed_turns { IfErr result (λ e. ticket_turns e.1 ≡ ticket_turns ticket) }
        ensures missed_logged { IfErr result (λ e. ticket_logged e.1 ≡ ticket_logged ticket) }
    {
        let Ticket { mut place, number } = ticket;
        let shared = &self.table.shared;
        let serving = shared.load::<Arrive>(&mut place, SERVING);
        if serving != number {
            return Err((serving, Ticket { place, number }));
        }
        let value = shared.exchange(&mut place, 0, None).unwrap();
        Ok(Held {
            place,
            ticket: number,
            value,
        })
    }

    /// Draws the ticket that is served, and takes the value out, if nobody has drawn it.
    pub(crate) fn try_draw(&self, seat: Seat<T>, number: u64) -> Result<Held<T>, Seat<T>>
        requires own { lock_of seat ≡ id_of self.now }
        requires served { served seat ≡ number }
        requires in_range { number < last_ticket }
        ensures lock { IfOk result (λ held. held_lock held ≡ lock_of seat) }
        ensures holds { IfOk result (λ held. T.holds (value_of held)) }
        ensures follows { IfOk result (λ held. FollowsSeen T.follows (value_of held) (seen seat)) }
        ensures given { IfOk result (λ held. given held ≡ Some (value_of held)) }
        ensures turns { IfOk result (λ held. held_turns held ≡ turns seat) }
        ensures logged { IfOk result (λ held. held_logged held ≡ logged seat) }
        ensures missed { IfErr result (λ back. (lock_of back ≡ lock_of seat)
            × (seen back ≡ seen seat)) }
        ensures missed_turns { IfErr result (λ back. turns back ≡ turns seat) }
        ensures missed_logged { IfErr result (λ back. logged back ≡ logged seat) }
        ensures drawn { IfErr result (λ back. (served back ≡ number) × (number < reached back)) }
    {
        let Seat { mut place } = seat;
        let shared = &self.table.shared;
        let next = shared.compare_exchange::<Try>(&mut place, NEXT, number, number + 1);
        if next != number {
            return Err(Seat { place });
        }
        let value = shared.exchange(&mut place, 0, None).unwrap();
        Ok(Held {
            place,
            ticket: number,
            value,
        })
    }

    /// Puts the value home, and serves the next ticket.
    pub(crate) fn release(&self, held: Held<T>) -> Seat<T>
        requires own { held_lock held ≡ id_of self.now }
        requires holds { T.holds (value_of held) }
        requires follows { FollowsSeen T.follows (value_of held) (given held) }
        ensures lock { lock_of result ≡ held_lock held }
        ensures seen { seen result ≡ Some (value_of held) }
        ensures turns { IfSome (given held)
            (λ found. turns result ≡ turn found (value_of held) ∷ held_turns held) }
        ensures logged { IfSome (given held)
            (λ found. logged result ≡ entry held.ticket found (value_of held) ∷ held_logged held) }
    {
        let Held {
            mut place,
            ticket,
            value,
        } = held;
        let shared = &self.table.shared;
        match shared.exchange(&mut place, 0, Some(value)) {
            None => {}
            Some(_) => unreachable!(),
        }
        shared.store::<Release>(&mut place, SERVING, ticket + 1);
        Seat { place }
    }

    /// Makes two seats of one. Both have seen what the one had, and have its turns.
    pub fn split(&self, seat: Seat<T>) -> (Seat<T>, Seat<T>)
        requires own { lock_of seat ≡ id_of self.now }
        ensures lock { (lock_of result.0 ≡ lock_of seat) × (lock_of result.1 ≡ lock_of seat) }
        ensures seen { (seen result.0 ≡ seen seat) × (seen result.1 ≡ seen seat) }
        ensures turns { (turns result.0 ≡ turns seat) × (turns result.1 ≡ turns seat) }
        ensures logged { (logged result.0 ≡ logged seat) × (logged result.1 ≡ logged seat) }
    {
        let Seat { mut place } = seat;
        let other = self.table.shared.split_seat::<Share>(&mut place);
        (Seat { place }, Seat { place: other })
    }

    /// Makes one seat of two. It has seen a value that follows what either had, and has the turns
    /// of both, which are those of one history: a hold was given what the hold by the ticket before
    /// it put home.
    pub fn join(&self, first: Seat<T>, second: Seat<T>) -> Seat<T>
        requires own { (lock_of first ≡ id_of self.now) × (lock_of second ≡ id_of self.now) }
        ensures lock { lock_of result ≡ lock_of first }
        ensures seen { HasSeen result (λ x. FollowsSeen T.follows x (seen first)
            × FollowsSeen T.follows x (seen second)) }
        ensures turns { turns result ≡ turns first ++ turns second }
        ensures logged { logged result ≡ logged first ++ logged second }
        ensures chained { AreChained (logged result) }
    {
        let Seat { mut place } = first;
        let Seat { place: other } = second;
        let shared = &self.table.shared;
        shared.join_seat::<Meet>(&mut place, other);
        shared.load::<Settle>(&mut place, SERVING);
        Seat { place }
    }
}
