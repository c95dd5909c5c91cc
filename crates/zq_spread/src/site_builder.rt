//! The memory of a site. It is taken before any book is moved, so that want of memory can give the
//! books back.
use crate::empty_slot::EmptySlot;
use crate::heap_slot::HeapSlot;
use crate::pass::Pass;
use zq_dots::Rule;

/// What heaps take that have no book yet, the heaps that have one, and the passes.
#[derive(Drop)]
pub(crate) struct SiteBuilder {
    pub(crate) empty_slots: Vec<EmptySlot>,
    pub(crate) slots: Vec<HeapSlot>,
    pub(crate) passes: Vec<Pass>,
    pub(crate) heaps: u8,
    pub(crate) rule: Rule,
}
