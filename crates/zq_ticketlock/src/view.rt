//! What a seat knows of its lock.

use crate::turns::Turns;

/// What a seat knows of its lock. Proofs alone speak of it: no value of it is ever made.
pub enum View<T> {
    /// The lock has no value yet, and this is its only seat. It has the empty slot out, or not yet.
    Vacant {
        ticket: u64,
        out: bool,
    },
    /// The seat neither waits nor holds. It has read `low` in `serving`, knows that `next` has come
    /// to `reached`, has seen this value, and has held the lock for these turns.
    Idle {
        low: u64,
        reached: u64,
        seen: T,
        turns: Turns<T>,
    },
    /// Two seats that were joined, with what each had seen, and the turns of both. The next load of
    /// `serving` settles it.
    Met {
        low: u64,
        first: T,
        second: T,
        turns: Turns<T>,
    },
    /// The seat has drawn this ticket.
    Waiting {
        ticket: u64,
        seen: T,
        turns: Turns<T>,
    },
    /// The seat's ticket is served. It has the value out, which was `given` to it.
    Holding {
        ticket: u64,
        given: T,
        turns: Turns<T>,
    },
    /// The seat was joined into another.
    Spent,
}
