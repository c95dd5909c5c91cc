//! Ways to push numbers under a lock, alone and in a crowd.
ghost use Rattle.std.specs.Prelude.{◌≡◌, IfSome, MatchResult};
ghost use Rattle.zq_ticketlock.specs.Seats.{id_of, lock_of};

use super::numbers::{Numbers, lock_after_both};
use crate::{Seat, TicketLock, TryFault, Worn};
use std::sync::Wait;

/// Pushes a number, if memory allows it.
pub fn push<R: Wait>(
    rt: &R,
    lock: &TicketLock<Numbers>,
    seat: Seat<Numbers>,
    number: u64,
) -> Result<Seat<Numbers>, (Worn, Seat<Numbers>)>
    requires { lock_of seat ≡ id_of lock.now }
    ensures { MatchResult result (λ seat. lock_of seat ≡ id_of lock.now)
        (λ e. lock_of e.1 ≡ id_of lock.now) }
{
    let mut held = lock.lock(rt, seat)?;
    let _ = held.value_mut().push(number);
    Ok(lock.unlock(held))
}

/// The same, without waiting.
pub fn try_push(
    lock: &TicketLock<Numbers>,
    seat: Seat<Numbers>,
    number: u64,
) -> Result<Seat<Numbers>, (TryFault, Seat<Numbers>)>
    requires { lock_of seat ≡ id_of lock.now }
    ensures { MatchResult result (λ seat. lock_of seat ≡ id_of lock.now)
        (λ e. lock_of e.1 ≡ id_of lock.now) }
{
    let mut held = lock.try_lock(seat)?;
    let _ = held.value_mut().push(number);
    Ok(lock.unlock(held))
}

/// The same, after two seats have met.
pub fn push_after<R: Wait>(
    rt: &R,
    lock: &TicketLock<Numbers>,
    first: Seat<Numbers>,
    second: Seat<Numbers>,
    number: u64,
) -> Option<(Seat<Numbers>, Seat<Numbers>)>
    requires { (lock_of first ≡ id_of lock.now) × (lock_of second ≡ id_of lock.now) }
    ensures { IfSome result (λ seats. (lock_of seats.0 ≡ id_of lock.now)
        × (lock_of seats.1 ≡ id_of lock.now)) }
{
    let (mut held, second) = lock_after_both(rt, lock, first, second).ok()?;
    let _ = held.value_mut().push(number);
    Some((lock.unlock(held), second))
}

/// Pushes a number, and says how another seat that tries meanwhile is refused.
pub fn holds_while_asked<R: Wait>(
    rt: &R,
    lock: &TicketLock<Numbers>,
    first: Seat<Numbers>,
    second: Seat<Numbers>,
    number: u64,
) -> Option<(Option<TryFault>, Seat<Numbers>, Seat<Numbers>)>
    requires { (lock_of first ≡ id_of lock.now) × (lock_of second ≡ id_of lock.now) }
    ensures { IfSome result (λ r. (lock_of r.1 ≡ id_of lock.now) × (lock_of r.2 ≡ id_of lock.now)) }
{
    let mut held = match lock.lock(rt, first) {
        Ok(held) => held,
        Err(_) => return None,
    };
    let _ = held.value_mut().push(number);
    let (fault, second) = match try_push(lock, second, number) {
        Ok(seat) => (None, seat),
        Err((fault, seat)) => (Some(fault), seat),
    };
    Some((fault, lock.unlock(held), second))
}

// How a turn takes the lock.
#[derive(Clone, Copy)]
pub enum Way {
    Lock,
    // `try_lock`, and `lock` where that is refused.
    Try,
    // With one half of the seat. Then the halves are joined.
    Half,
    // With both halves, by `lock_after`.
    After,
}

pub const WAYS: [Way; 4] = [Way::Lock, Way::Try, Way::Half, Way::After];

/// Pushes a number in one of the ways.
pub fn push_by<R: Wait>(
    rt: &R,
    lock: &TicketLock<Numbers>,
    seat: Seat<Numbers>,
    way: Way,
    number: u64,
) -> Option<Seat<Numbers>>
    requires { lock_of seat ≡ id_of lock.now }
    ensures { IfSome result (λ seat. lock_of seat ≡ id_of lock.now) }
{
    match way {
        Way::Lock => push(rt, lock, seat, number).ok(),
        Way::Try => match try_push(lock, seat, number) {
            Ok(seat) => Some(seat),
            Err((_, seat)) => push(rt, lock, seat, number).ok(),
        },
        Way::Half => {
            let (one, other) = lock.split(seat);
            let one = push(rt, lock, one, number).ok()?;
            Some(lock.join(one, other))
        }
        Way::After => {
            let (one, other) = lock.split(seat);
            let (one, other) = push_after(rt, lock, one, other, number)?;
            Some(lock.join(one, other))
        }
    }
}

/// Pushes so many numbers from this one on, each under a locking of its own, in each way in turn.
pub fn push_all<R: Wait>(
    rt: &R,
    lock: &TicketLock<Numbers>,
    mut seat: Seat<Numbers>,
    from: u64,
    count: u64,
) -> Option<Seat<Numbers>>
    requires { lock_of seat ≡ id_of lock.now }
    ensures { IfSome result (λ seat. lock_of seat ≡ id_of lock.now) }
{
    for i in 0..count {
        seat = push_by(rt, lock, seat, WAYS[(i % 4) as usize], from.wrapping_add(i))?;
    }
    Some(seat)
}
