//! A site, its type.
ghost use Rattle.std.specs.Prelude.{length, ◌≤◌};

use crate::heap_slot::HeapSlot;
use zq_dots::{Rule, SiteNo};

/// A site of several heaps. Threads use it side by side, each by a pass of its own.
#[derive(Drop)]
pub struct Site {
    pub(crate) number: SiteNo,
    pub(crate) rule: Rule,
    pub(crate) slots: Vec<HeapSlot>,
    ghost some: { 2 ≤ length slots.items },
    ghost most: { length slots.items ≤ 16 },
}
