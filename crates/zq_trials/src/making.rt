//! Locks and sites of which a growth is refused when they are made.
use crate::ended::{Ended, Tried, judge};
use std::alloc::Global;
use zq_dots::SiteNo;
use zq_spread::{Pass, Site, SiteFault};
use zq_ticketlock::{Keeps, TicketLock};

/// What lies under the lock.
#[derive(Drop)]
struct Number {
    value: u64,
}

impl Keeps for Number {
    ghost holds = { λ _. Unit {0} };

    ghost follows = { λ _ _. Unit {0} };

    ghost reflexive = { λ _. tt };

    ghost transitive = { λ _ _ _ _ _. tt };
}

/// A lock over a number, which comes back where there is no memory.
pub fn lock(alloc: Global) -> Option<Ended> {
    match TicketLock::new(alloc, Number { value: 7 }) {
        Ok(_) => Some(Ended::Owed(1)),
        Err((_, number)) => {
            let kept = number.value == 7;
            let again = TicketLock::new(alloc, number).is_ok();
            Some(judge(Tried::Refused, kept, again))
        }
    }
}

/// What the making of a site with three passes said.
fn said(made: &Result<(Site, Vec<Pass>), SiteFault>) -> Tried {
    match made {
        Ok((_, passes)) if passes.len() == 3 => Tried::Done,
        Err(SiteFault::NoMemory) => Tried::Refused,
        _ => Tried::Other,
    }
}

/// Makes a site of two heaps with three passes.
fn made(alloc: Global, number: SiteNo) -> Tried {
    let made = Site::new(alloc, number, 2, 3);
    said(&made)
}

/// A site is made, and once more where it had no memory.
pub fn site(alloc: Global) -> Option<Ended> {
    let number = SiteNo::new(5)?;
    let tried = made(alloc, number);
    let again = match tried {
        Tried::Refused => made(alloc, number),
        other => other,
    };
    Some(judge(tried, true, again == Tried::Done))
}
