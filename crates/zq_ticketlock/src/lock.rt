//! The lock.

ghost use Rattle.std.specs.Prelude.{◌≡◌};

use crate::boxed::Boxed;
use crate::door::Door;
use crate::errors::NoMemory;
use crate::keeps::Keeps;
use crate::order::TicketOrder;
use crate::seat::Seat;
use crate::vacant::Vacant;
use crate::view::View;
use atomic_table::Table;
use std::alloc::Global;
use std::sync::atomic::AtomicU64;

/// The last value of both words, at which no ticket is drawn: there the lock is exhausted.
pub const LAST_TICKET: u64 = 4_611_686_018_427_387_904;

/// The word that says which ticket is served.
pub(crate) const SERVING: usize = 0;

/// The word that says which ticket is drawn next.
pub(crate) const NEXT: usize = 1;

/// A lock that serves its seats in the order in which they drew their tickets. Before it draws one,
/// a thread may wait at the door, where no order is kept.
#[derive(Drop)]
pub struct TicketLock<T: Keeps> {
    pub(crate) table: Table<Option<Boxed<T>>, View<T>, u64, TicketOrder, Global>,
    // How many threads with a ticket may be asleep. It saves a lock that nobody waits for the call
    // that wakes.
    pub(crate) sleepers: AtomicU64,
    // Where threads wait that have no ticket yet.
    pub(crate) door: Door,
    ghost sized: { (table.shared.table_id.words ≡ 2) × (table.shared.table_id.slots ≡ 1) },
}

impl<T: Keeps> TicketLock<T> {
    ghost use Rattle.std.specs.Prelude.{◌≡◌, ◌≤◌, Some, [], IfOk, IfErr};
    ghost use Rattle.zq_ticketlock.specs.Limits.{last_ticket};
    ghost use Rattle.zq_ticketlock.specs.Seats.{id_of, lock_of, seen, served, turns};

    /// A lock over the value, with its first seat, which has seen the value. Where there is no
    /// memory, the value is given back.
    pub fn new(alloc: Global, value: T) -> Result<(TicketLock<T>, Seat<T>), (NoMemory, T)>
        requires { T.holds value }
        ensures lock { IfOk result (λ made. lock_of made.1 ≡ id_of made.0) }
        ensures seen { IfOk result (λ made. seen made.1 ≡ Some value) }
        ensures turns { IfOk result (λ made. turns made.1 ≡ []) }
        ensures served { IfOk result (λ made. served made.1 ≡ 0) }
        ensures refused { IfErr result (λ e. e.1 ≡ value) }
    {
        TicketLock::new_at(alloc, value, 0)
    }

    /// The same, and the first ticket that is drawn has this number. At [`LAST_TICKET`] none is
    /// drawn.
    pub fn new_at(
        alloc: Global,
        value: T,
        ticket: u64,
    ) -> Result<(TicketLock<T>, Seat<T>), (NoMemory, T)>
        requires holds { T.holds value }
        requires in_range { ticket ≤ last_ticket }
        ensures lock { IfOk result (λ made. lock_of made.1 ≡ id_of made.0) }
        ensures seen { IfOk result (λ made. seen made.1 ≡ Some value) }
        ensures turns { IfOk result (λ made. turns made.1 ≡ []) }
        ensures served { IfOk result (λ made. served made.1 ≡ ticket) }
        ensures refused { IfErr result (λ e. e.1 ≡ value) }
    {
        match Vacant::new(alloc, ticket) {
            Ok(vacant) => Ok(vacant.fill(value)),
            Err(_) => Err((NoMemory, value)),
        }
    }
}
