//! What was made of a log that was adopted.

ghost use Rattle.std.specs.Prelude.{IfOk, ◌≡◌};
ghost use Rattle.zq_adopt.specs.Told.{line_of};

use std::alloc::{AllocError, Global};
use zq_dots::{SITES, SiteNo, Vector};
use zq_stage::Stage;

/// What was made: a log of this site.
#[derive(Clone, Copy, Debug, PartialEq, Eq)]
pub struct Adopted {
    pub site: SiteNo,
    pub heaps: u8,
    /// How many members its heaps have together.
    pub members: u64,
    /// How many operations they have, those of members that are gone too.
    pub operations: u64,
}

/// The line that tells it, with its end.
pub fn adopted_line(alloc: Global, adopted: &Adopted) -> Result<String, AllocError>
    ensures { IfOk result (λ line. line.bytes.items ≡ line_of adopted.now) }
{
    let Adopted {
        site,
        heaps,
        members,
        operations,
    } = *adopted;
    let site = site.value();
    format!(in alloc; "site {site} heaps {heaps} members {members} operations {operations}\n")
}

/// How many operations these heaps have together.
pub(crate) fn operations_of(stages: &[Stage]) -> u64 {
    let mut operations: u64 = 0;
    for stage in stages {
        operations = operations.saturating_add(operations_in(stage.vector()));
    }
    operations
}

/// How many operations a vector has.
fn operations_in(vector: &Vector) -> u64 {
    let mut operations: u64 = 0;
    for number in 0..SITES as u8 {
        if let Some(site) = SiteNo::new(number) {
            operations = operations.saturating_add(vector.get(site));
        }
    }
    operations
}
