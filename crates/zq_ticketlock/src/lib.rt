//! A ticket lock whose seats remember what they saw.
//!
//! A thread uses the lock by a seat. A seat remembers the last value that it saw under the lock,
//! and each value that it is given later follows that one, by an order of the value's own
//! ([`Keeps`]). It also remembers its turns: what it was given and what it put home each time that
//! it held the lock, by its ticket. So a caller can be held to have changed nothing. The turns of
//! all seats are those of one history: each hold was given what the hold by the ticket before it
//! put home. Proofs alone speak of all this, and it costs nothing.
//!
//! The lock has two words: `next` is the ticket that is drawn next, and `serving` the one that is
//! served. They change in six kinds of step alone, each a function of its own:
//!
//! - a *draw* is a compare-exchange on `next`, by which an idle seat gets a ticket, or learns which
//!   one is next;
//! - a *look* is a load of `serving`, by which an idle seat learns it, and a seat with that ticket
//!   takes the value out;
//! - a *try* is a compare-exchange on `next`, which draws the ticket that is served, and takes the
//!   value out at once, or learns which one is next;
//! - a *release* is a store to `serving`, by which a holder puts the value home;
//! - a *split* makes two seats of one, and a *join* one of two.
//!
//! A lock opens with all its memory and no value. Its only seat puts the first value in by two
//! loads of `serving`. The value lies in a box, so that taking it out and putting it home moves a
//! pointer, however large it is.
//!
//! A thread with a ticket looks 2,000 times, and then sleeps until a release wakes it. Where two
//! tickets are out, a thread that comes sleeps at a *door* before it draws its own, until it is
//! called in. So the lock serves threads in the order of their tickets, and not in the order in
//! which they called: at the door there is none, though whoever waits there is mostly called in
//! first come, first served. `try_lock` passes by the door and never sleeps.
//!
//! Nothing is proved of how long a thread waits, nor that it is served.
#![tactic(auto)]

mod boxed;
mod calls;
mod door;
mod errors;
mod held;
mod keeps;
mod lock;
mod order;
mod seat;
mod steps;
mod turns;
mod vacant;
mod view;
mod waiting;

pub use errors::{NoMemory, TryFault, Worn};
pub use held::Held;
pub use keeps::Keeps;
pub use lock::{LAST_TICKET, TicketLock};
pub use seat::Seat;
pub use vacant::Vacant;

#[cfg(test)]
mod tests;
