//! The rule of the lock's words, its slot and all seats, and what each step tells the seat that
//! steps.

ghost use Rattle.std.specs.Prelude.{false};
ghost use Rattle.zq_ticketlock.specs.Order.{IsRuled};
ghost use Rattle.zq_ticketlock.specs.Steps.{Emptied, Filled, Looked, Drew, Arrived, Tried, Released, Settled, met};
ghost use Rattle.zq_ticketlock.specs.declared.view.View.TheVariants.{Vacant, Spent};

use crate::boxed::Boxed;
use crate::keeps::Keeps;
use crate::view::View;
use atomic_table::{Join, Play, Split, TableRule};

/// The rule. A lock opens at a ticket.
pub struct TicketOrder;

impl<T: Keeps> TableRule<Option<Boxed<T>>, View<T>, u64> for TicketOrder {
    ghost holds = { λ _. IsRuled T.holds T.follows };

    ghost first = { λ ticket. Vacant ticket false };
}

/// A load of `serving` by which the seat of a vacant lock takes the empty slot out.
pub struct Empty;

impl<T> Play<Option<Boxed<T>>, View<T>> for Empty {
    ghost then = { Emptied };
}

/// A load of `serving` by which that seat puts the first value home.
pub struct Fill;

impl<T> Play<Option<Boxed<T>>, View<T>> for Fill {
    ghost then = { Filled };
}

/// A load of `serving` by a seat that waits for nothing.
pub struct Look;

impl<T> Play<Option<Boxed<T>>, View<T>> for Look {
    ghost then = { Looked };
}

/// A compare-exchange on `next` that draws a ticket.
pub struct Draw;

impl<T> Play<Option<Boxed<T>>, View<T>> for Draw {
    ghost then = { Drew };
}

/// A load of `serving` by a seat with a ticket.
pub struct Arrive;

impl<T: Keeps> Play<Option<Boxed<T>>, View<T>> for Arrive {
    ghost then = { Arrived T.follows T.holds };
}

/// A compare-exchange on `next` that draws the ticket which is served.
pub struct Try;

impl<T: Keeps> Play<Option<Boxed<T>>, View<T>> for Try {
    ghost then = { Tried T.follows T.holds };
}

/// A store to `serving` that puts the value home.
pub struct Release;

impl<T> Play<Option<Boxed<T>>, View<T>> for Release {
    ghost then = { Released };
}

/// A load of `serving` by a seat that was joined with another.
pub struct Settle;

impl<T: Keeps> Play<Option<Boxed<T>>, View<T>> for Settle {
    ghost then = { Settled T.follows };
}

/// Both seats know what the one knew.
pub struct Share;

impl<T> Split<View<T>> for Share {
    ghost left = { λ view. view };

    ghost right = { λ view. view };
}

/// One seat knows what both knew.
pub struct Meet;

impl<T> Join<View<T>> for Meet {
    ghost both = { met };

    ghost spent = { Spent };
}
