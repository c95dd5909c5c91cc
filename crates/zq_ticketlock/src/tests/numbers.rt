//! A list of numbers under a lock.
ghost use Rattle.std.specs.Prelude.{◌≡◌, [], Some, IfOk, vec_len};
ghost use mathlib.Core.List.{IsPrefix};
ghost use Rattle.zq_ticketlock.specs.Seats.{id_of, lock_of, HasSeen, given, value_of, held_lock};

use crate::{Held, Keeps, Seat, TicketLock, Worn};
use std::alloc::{AllocError, Global};
use std::sync::Wait;

/// The numbers, with how many there are.
#[derive(Drop)]
pub struct Numbers {
    items: Vec<u64>,
    count: usize,
}

impl Keeps for Numbers {
    ghost use Rattle.std.specs.Prelude.{◌≡◌, vec_len};
    ghost use mathlib.Core.List.{IsPrefix};
    ghost use Rattle.zq_ticketlock.specs.Prefixes.{prefix_self, prefix_trans};

    ghost holds = { λ n. n.count ≡ vec_len n.items };

    ghost follows = { λ later earlier. IsPrefix earlier.items.items later.items.items };

    ghost reflexive = { λ n. prefix_self n.items.items };

    ghost transitive = { λ x y z later earlier.
        prefix_trans z.items.items y.items.items x.items.items earlier later };
}

impl Numbers {
    pub fn new(alloc: Global) -> Numbers
        ensures counted { result.count ≡ vec_len result.items }
        ensures empty { result.items.items ≡ [] }
    {
        Numbers {
            items: Vec::new(alloc),
            count: 0,
        }
    }

    pub fn push(&mut self, number: u64) -> Result<(), AllocError>
        requires { self.old.count ≡ vec_len self.old.items }
        ensures counted { self.new.count ≡ vec_len self.new.items }
        ensures grown { IsPrefix self.old.items.items self.new.items.items }
    {
        self.items.push(number)?;
        self.count = self.items.len();
        Ok(())
    }

    pub fn as_slice(&self) -> &[u64]
        ensures { result.now ≡ self.now.items.items }
    {
        self.items.as_slice()
    }
}

/// `lock_after` over both seats gives a list that begins with what either had seen.
pub fn lock_after_both<R: Wait>(
    rt: &R,
    lock: &TicketLock<Numbers>,
    first: Seat<Numbers>,
    second: Seat<Numbers>,
) -> Result<(Held<Numbers>, Seat<Numbers>), (Worn, Seat<Numbers>, Seat<Numbers>)>
    requires own { (lock_of first ≡ id_of lock.now) × (lock_of second ≡ id_of lock.now) }
    ensures lock { IfOk result (λ r. (held_lock r.0 ≡ id_of lock.now)
        × (lock_of r.1 ≡ id_of lock.now)) }
    ensures given { IfOk result (λ r. ((value_of r.0).count ≡ vec_len (value_of r.0).items)
        × (given r.0 ≡ Some (value_of r.0))) }
    ensures first { IfOk result
        (λ r. HasSeen first (λ seen. IsPrefix seen.items.items (value_of r.0).items.items)) }
    ensures second { IfOk result
        (λ r. HasSeen second (λ seen. IsPrefix seen.items.items (value_of r.0).items.items)) }
{
    first.has_seen();
    second.has_seen();
    let (held, second) = lock.lock_after(rt, first, second)?;
    Ok((held, second))
}

/// `lock` after `join` of both seats gives a list that begins with what either had seen.
pub fn lock_after_join<R: Wait>(
    rt: &R,
    lock: &TicketLock<Numbers>,
    first: Seat<Numbers>,
    second: Seat<Numbers>,
) -> Result<Held<Numbers>, (Worn, Seat<Numbers>)>
    requires own { (lock_of first ≡ id_of lock.now) × (lock_of second ≡ id_of lock.now) }
    ensures lock { IfOk result (λ held. held_lock held ≡ id_of lock.now) }
    ensures given { IfOk result (λ held. ((value_of held).count ≡ vec_len (value_of held).items)
        × (given held ≡ Some (value_of held))) }
    ensures first { IfOk result
        (λ held. HasSeen first (λ seen. IsPrefix seen.items.items (value_of held).items.items)) }
    ensures second { IfOk result
        (λ held. HasSeen second (λ seen. IsPrefix seen.items.items (value_of held).items.items)) }
{
    first.has_seen();
    second.has_seen();
    let seat = lock.join(first, second);
    let held = lock.lock(rt, seat)?;
    Ok(held)
}
