//! The members of a queue with their entries, by the members' bytes.

ghost use Rattle.std.specs.Prelude.{IfOk, map, ◌≡◌};
ghost use Rattle.std.specs.FinMap as finite;
ghost use Rattle.zq_queue.specs.Lent.{lent_entry, lent_turned};
ghost use Rattle.zq_posheap.specs.Listing.{IsListing};

use crate::members::Members;
use crate::queue::Queue;
use std::alloc::{AllocError, Global};
use zq_entry::Entry;

/// The members with their entries, in no order.
fn in_any_order(alloc: Global, members: &Members) -> Result<Vec<(&[u8], &Entry)>, AllocError>
    ensures { IfOk result
        (λ rows. IsListing members.now.entries (map lent_turned rows.items)) }
{
    let mut rows = Vec::with_capacity(alloc, members.len())?;
    for (member, entry) in members.iter() {
        rows.push((member, entry))?;
    }
    Ok(rows)
}

impl Queue {
    /// The members with their entries, by the members' bytes.
    pub fn rows(&self, alloc: Global) -> Result<Vec<(&[u8], &Entry)>, AllocError>
        ensures { IfOk result (λ rows. map lent_entry rows.items
            ≡ finite.entries self.now.entries) }
    {
        let mut rows = in_any_order(alloc, &self.members)?;
        rows.sort_unstable_by_key(|row| row.0);
        Ok(rows)
    }
}
