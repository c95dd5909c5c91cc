//! What became of the value at each hold of a lock.

use std::marker::Model;

/// A hold of the lock by a seat: the value that it was given, and the one that it put home. Proofs
/// alone speak of it: no value of it is ever made.
pub struct Turn<T> {
    given: T,
    home: T,
}

/// The hold by a ticket. Proofs alone speak of it.
pub struct Entry<T> {
    ticket: u64,
    turn: Turn<T>,
}

/// The holds of a seat, the latest first, each by its ticket. Proofs alone speak of it.
pub struct Turns<T> {
    entries: Vec<Entry<T>>,
}

impl<T> Model for Turns<T> {
    ghost use Rattle.std.specs.Prelude.{List};
    ghost use Rattle.zq_ticketlock.specs.declared.turns.Entry.{Entry as Hold};

    ghost Value = { List (Hold T) };

    ghost view = { λ turns. turns.entries.items };
}
