//! The steps. Each is one load of the word.
ghost use Rattle.std.specs.Prelude.{◌≡◌, ℕ, ◌+◌, ◌<◌, ◌≤◌, Some, [], ◌∷◌, sum, slice_get};
ghost use Rattle.zq_tally.specs.Limits.{ALL_PARTS};
ghost use Rattle.zq_tally.specs.Words.{id_of, count_table, steps_of, total_table, total_of, kept_of, passes_of, parts_of, IsSameTotal};

use crate::count::Count;
use crate::rule::{Deal, First, Gather, Look};
use crate::tally::{Tally, WORD};
use crate::total::Total;

impl Tally {
    /// A count for one more pass, which has made no step. It takes one of the parts that are kept
    /// with the total. One part always stays there, so a table has at most 128 passes.
    pub fn add_pass(&self, total: &mut Total) -> Count
        requires own { total_table total.old ≡ id_of self.now }
        requires spare { 1 < kept_of total.old }
        ensures table { count_table result ≡ id_of self.now }
        ensures none { steps_of result ≡ 0 }
        ensures kept { kept_of total.new + 1 ≡ kept_of total.old }
        ensures stays { (total_table total.new ≡ total_table total.old)
            × (total_of total.new ≡ total_of total.old)
            × (passes_of total.new ≡ passes_of total.old) }
    {
        let place = self.table.shared.split_seat::<Deal>(&mut total.place);
        Count { place, steps: 0 }
    }

    /// Joins a count with the total. The pass then stands first among those that are joined.
    pub fn join(&self, total: &mut Total, count: Count)
        requires own { (total_table total.old ≡ id_of self.now)
            × (count_table count ≡ id_of self.now) }
        ensures joined { passes_of total.new ≡ steps_of count ∷ passes_of total.old }
        ensures stays { (total_table total.new ≡ total_table total.old)
            × (total_of total.new ≡ total_of total.old) × (kept_of total.new ≡ kept_of total.old) }
    {
        let Count { place, steps: _ } = count;
        self.table
            .shared
            .join_seat::<Gather>(&mut total.place, place);
    }

    /// Takes the pass out that was joined last. The caller says how many steps it has made.
    pub fn split(&self, total: &mut Total, steps: u64) -> Count
        requires own { total_table total.old ≡ id_of self.now }
        requires first { slice_get (passes_of total.old) 0 ≡ Some steps }
        ensures table { count_table result ≡ id_of self.now }
        ensures first { steps_of result ≡ steps }
        ensures others { passes_of total.old ≡ steps ∷ passes_of total.new }
        ensures stays { (total_table total.new ≡ total_table total.old)
            × (total_of total.new ≡ total_of total.old) × (kept_of total.new ≡ kept_of total.old) }
    {
        let place = self.table.shared.split_seat::<First>(&mut total.place);
        Count { place, steps }
    }

    /// Learns that the total is no less than the steps of the passes that are joined in it, and
    /// where it has all parts together, that it is their sum. Nothing changes.
    pub fn look(&self, total: &mut Total)
        requires own { total_table total.old ≡ id_of self.now }
        ensures at_least { sum (passes_of total.old) ≤ total_of total.old }
        ensures all { parts_of total.old ≡ ALL_PARTS →
            total_of total.old ≡ sum (passes_of total.old) }
        ensures stays { IsSameTotal total.new total.old }
    {
        self.table.shared.load::<Look>(&mut total.place, WORD);
    }
}
