//! The value of a lock, out with a seat.

ghost use Rattle.std.specs.Prelude.{◌≡◌, ◌<◌, true};
ghost use Rattle.zq_ticketlock.specs.Limits.{last_ticket};
ghost use Rattle.zq_ticketlock.specs.Views.{is_holding};

use crate::boxed::Boxed;
use crate::view::View;

/// The lock's value, out with one seat. It has no `Drop`: `unlock` puts the value home.
pub struct Held<T> {
    pub(crate) place: atomic_table::Seat<Option<Boxed<T>>, View<T>>,
    pub(crate) ticket: u64,
    pub(crate) value: Boxed<T>,
    ghost holding: { is_holding ticket place.me ≡ true },
    ghost in_range: { ticket < last_ticket },
}

impl<T> Held<T> {
    ghost use Rattle.std.specs.Prelude.{◌≡◌, IsSome};
    ghost use Rattle.std.specs.Borrow.{sem};
    ghost use Rattle.zq_ticketlock.specs.Seats.{given, value_of};
    ghost use Rattle.zq_ticketlock.specs.Lending.{lends_value};

    /// A value that is held was always given.
    pub fn was_given(&self)
        ensures { IsSome (given self.now) }
    {}

    /// The value.
    pub fn value(&self) -> &T
        ensures { result.now ≡ value_of self.now }
    {
        self.value.get()
    }

    /// The value, to be changed. When the borrow ends, what was written through it is held.
    pub fn value_mut(&mut self) -> &mut T
        ensures* writes_back { sem 𝓛 (lends_value T.row self.entry result) }
        ensures value { result.now ≡ value_of self.old }
    {
        self.value.get_mut()
    }
}
