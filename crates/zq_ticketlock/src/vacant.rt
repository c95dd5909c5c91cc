//! A lock that has no value yet.

ghost use Rattle.std.specs.Prelude.{◌≡◌, true, None};
ghost use Rattle.zq_ticketlock.specs.Views.{is_vacant};

use crate::boxed::Boxed;
use crate::door::Door;
use crate::errors::NoMemory;
use crate::keeps::Keeps;
use crate::lock::{SERVING, TicketLock};
use crate::order::{Empty, Fill};
use crate::seat::Seat;
use crate::view::View;
use atomic_table::Table;
use std::alloc::Global;
use std::sync::atomic::AtomicU64;

/// A lock that has all its memory, and no value yet.
#[derive(Drop)]
pub struct Vacant<T: Keeps> {
    lock: TicketLock<T>,
    place: atomic_table::Seat<Option<Boxed<T>>, View<T>>,
    // The memory for the value.
    room: Box<Option<T>>,
    ghost own: { place.table_id ≡ lock.table.shared.table_id },
    ghost vacant: { is_vacant place.me ≡ true },
    ghost empty: { room.value ≡ None },
}

impl<T: Keeps> Vacant<T> {
    ghost use Rattle.std.specs.Prelude.{◌≡◌, ◌≤◌, Some, [], IfOk};
    ghost use Rattle.zq_ticketlock.specs.Limits.{last_ticket};
    ghost use Rattle.zq_ticketlock.specs.Seats.{id_of, lock_of, opens_at, seen, served, turns};

    /// The memory of a lock, whose first ticket will have this number. At
    /// [`LAST_TICKET`](crate::LAST_TICKET) none will be drawn.
    pub fn new(alloc: Global, ticket: u64) -> Result<Vacant<T>, NoMemory>
        requires in_range { ticket ≤ last_ticket }
        ensures opens { IfOk result (λ vacant. opens_at vacant ≡ ticket) }
    {
        let room = Boxed::reserve(alloc)?;
        match Table::vacant(alloc, &[ticket, ticket], 1, &ticket) {
            Ok((table, place)) => {
                let lock = TicketLock {
                    table,
                    sleepers: AtomicU64::new(0),
                    door: Door::new(),
                };
                Ok(Vacant { lock, place, room })
            }
            Err(_) => {
                Boxed::give_back(room);
                Err(NoMemory)
            }
        }
    }

    /// The lock over this value, with its first seat, which has seen the value. It takes no memory.
    pub fn fill(self, value: T) -> (TicketLock<T>, Seat<T>)
        requires holds { T.holds value }
        ensures lock { lock_of result.1 ≡ id_of result.0 }
        ensures seen { seen result.1 ≡ Some value }
        ensures turns { turns result.1 ≡ [] }
        ensures served { served result.1 ≡ opens_at self }
    {
        let Vacant {
            lock,
            mut place,
            room,
        } = self;
        let shared = &lock.table.shared;
        shared.load::<Empty>(&mut place, SERVING);
        match shared.exchange(&mut place, 0, Some(Boxed::new(room, value))) {
            None => {}
            Some(_) => unreachable!(),
        }
        shared.load::<Fill>(&mut place, SERVING);
        (lock, Seat { place })
    }
}
