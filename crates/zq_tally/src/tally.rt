//! A table that counts steps.

ghost use Rattle.std.specs.Prelude.{◌≡◌, []};

use crate::errors::NoMemory;
use crate::rule::Counting;
use crate::total::Total;
use crate::view::View;
use atomic_table::Table;
use std::alloc::Global;

/// The word that each step loads. It never changes.
pub(crate) const WORD: usize = 0;

/// A table whose seats count the steps of passes, and the total of them all.
#[derive(Drop)]
pub struct Tally {
    pub(crate) table: Table<(), View, (), Counting, Global>,
    ghost sized: { table.shared.table_id.words ≡ 1 },
}

impl Tally {
    ghost use Rattle.std.specs.Prelude.{◌≡◌, [], IfOk};
    ghost use Rattle.zq_tally.specs.Limits.{ALL_PARTS};
    ghost use Rattle.zq_tally.specs.declared.view.TheConstants.{PARTS};
    ghost use Rattle.zq_tally.specs.Words.{id_of, total_table, total_of, kept_of, passes_of};

    /// A table without a pass, and its total, which is 0 and has all parts.
    pub fn new(alloc: Global) -> Result<(Tally, Total), NoMemory>
        ensures table { IfOk result (λ made. total_table made.1 ≡ id_of made.0) }
        ensures zero { IfOk result (λ made. total_of made.1 ≡ 0) }
        ensures number { PARTS ≡ ALL_PARTS }
        ensures parts { IfOk result (λ made. (kept_of made.1 ≡ ALL_PARTS)
            × (passes_of made.1 ≡ [])) }
    {
        match Table::of_words(alloc, &[0], &()) {
            Ok((table, place)) => Ok((Tally { table }, Total { place, steps: 0 })),
            Err(_) => Err(NoMemory),
        }
    }
}
