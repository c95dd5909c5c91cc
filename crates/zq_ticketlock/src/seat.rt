//! Seats: what a thread uses a lock with.

ghost use Rattle.std.specs.Prelude.{◌≡◌, ◌<◌, true};
ghost use Rattle.zq_ticketlock.specs.Limits.{last_ticket};
ghost use Rattle.zq_ticketlock.specs.Views.{is_idle, is_waiting};

use crate::boxed::Boxed;
use crate::view::View;

/// A token of no bytes with which a thread uses a lock. It remembers the last value that it saw
/// under the lock.
#[derive(Drop)]
pub struct Seat<T> {
    pub(crate) place: atomic_table::Seat<Option<Boxed<T>>, View<T>>,
    ghost idle: { is_idle place.me ≡ true },
}

/// A seat that has drawn a ticket. It has no `Drop`: a ticket that nobody redeems would stop the
/// lock.
pub(crate) struct Ticket<T> {
    pub(crate) place: atomic_table::Seat<Option<Boxed<T>>, View<T>>,
    pub(crate) number: u64,
    ghost waiting: { is_waiting number place.me ≡ true },
    ghost in_range: { number < last_ticket },
}

impl<T> Seat<T> {
    ghost use Rattle.std.specs.Prelude.{IsSome};
    ghost use Rattle.zq_ticketlock.specs.Seats.{seen};

    /// A seat has always seen a value.
    pub fn has_seen(&self)
        ensures { IsSome (seen self.now) }
    {}
}
