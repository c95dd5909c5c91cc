//! How a thread waits for its turn: before it draws a ticket, and with one. No clause speaks of who
//! waits for how long.
ghost use Rattle.std.specs.Prelude.{◌≡◌, Some};
ghost use Rattle.zq_ticketlock.specs.Seats.{id_of, ticket_lock, ticket_seen, ticket_turns, held_lock, held_turns, given, value_of, held_logged, ticket_logged};
ghost use Rattle.zq_ticketlock.specs.Steps.{FollowsSeen};

use crate::held::Held;
use crate::keeps::Keeps;
use crate::lock::{NEXT, SERVING, TicketLock};
use crate::seat::Ticket;
use std::hint::spin_loop;
use std::sync::Wait;
use std::sync::atomic::Ordering::SeqCst;

// With so many tickets out, those who come wait at the door: one thread holds the lock, and one
// looks out for its turn.
const CROWD: u64 = 2;

// At every so many turns a release calls one in, also where tickets are out, so that nobody stays
// at the door for long.
const TURNS: u64 = 64;

// How often a thread looks before each sleep, with a ticket or at the door. That takes a few times
// as long as a sleeper takes to wake up: with far fewer looks, one that sleeps has all behind it
// asleep before it is served.
const SPINS: u32 = 2000;

// So many at the door look whether the crowd is gone. Where more are there, who comes sleeps at
// once.
const LOOKERS: u64 = 1;

impl<T: Keeps> TicketLock<T> {
    /// Waits at the door until the crowd is gone or the thread is called in. Then it goes on,
    /// crowded or not.
    pub(crate) fn wait_at_door<R: Wait>(&self, rt: &R) {
        self.door.come();
        if self.stays_crowded() {
            self.door.sleep(rt);
        }
        self.door.leave();
    }

    /// Whether the crowd that the thread found on its way in is still there after so many looks, or
    /// at the first one where more than [`LOOKERS`] are at the door.
    fn stays_crowded(&self) -> bool {
        for _look in 0..SPINS {
            let serving = self.table.shared.peek(SERVING);
            if !self.is_crowded(serving) {
                return false;
            }
            if self.door.waiting() > LOOKERS {
                return true;
            }
            spin_loop();
        }
        true
    }

    /// Whether a crowd has tickets, by the ticket that was just found to be served. Where a release
    /// comes in between, the answer may be of a crowd that is gone: a caller that was counted
    /// before is then found by that release.
    pub(crate) fn is_crowded(&self, serving: u64) -> bool {
        self.table.shared.peek(NEXT).saturating_sub(serving) >= CROWD
    }

    /// After a release, by which this ticket is served: calls one in where no ticket is out, and at
    /// every [`TURNS`]th turn.
    pub(crate) fn look_at_door(&self, serving: u64) {
        if self.door.waiting() > 0
            && (serving % TURNS == 0 || self.table.shared.peek(NEXT) == serving)
        {
            self.door.call();
        }
    }

    /// Looks until the ticket is served, and sleeps after every [`SPINS`] looks.
    pub(crate) fn wait_for<R: Wait>(&self, rt: &R, mut ticket: Ticket<T>) -> Held<T>
        requires own { ticket_lock ticket ≡ id_of self.now }
        ensures lock { held_lock result ≡ ticket_lock ticket }
        ensures holds { T.holds (value_of result) }
        ensures follows { FollowsSeen T.follows (value_of result) (ticket_seen ticket) }
        ensures given { given result ≡ Some (value_of result) }
        ensures turns { held_turns result ≡ ticket_turns ticket }
        ensures logged { held_logged result ≡ ticket_logged ticket }
    {
        let mut spins = SPINS;
        for _ in rt.forever() {
            match self.arrive(ticket) {
                Ok(held) => return held,
                Err((serving, back)) => {
                    ticket = back;
                    if spins > 0 {
                        spins -= 1;
                        spin_loop();
                    } else {
                        self.sleep_while(rt, serving);
                        spins = SPINS;
                    }
                }
            }
        }
        unreachable!()
    }

    /// Sleeps while this ticket is served. It may also wake for no reason.
    /// A thread that releases between the two calls changes the word, and then `park` returns.
    fn sleep_while<R: Wait>(&self, rt: &R, serving: u64) {
        self.sleepers.fetch_add(1, SeqCst);
        self.table
            .shared
            .park(rt, SERVING, (serving % (1 << 32)) as u32);
        self.sleepers.fetch_sub(1, SeqCst);
    }

    /// After a release: wakes those who sleep with a ticket, for whom the word has changed.
    pub(crate) fn wake(&self) {
        if self.sleepers.load(SeqCst) > 0 {
            self.table.shared.wake_all(SERVING);
        }
    }
}
