//! Counting a step, and the tally of all passes.
ghost use Rattle.std.specs.Prelude.{◌≡◌, ◌+◌, ◌<◌, [], sum, length};
ghost use Rattle.zq_tally.specs.Limits.{ALL_PARTS};
ghost use Rattle.zq_tally.specs.Words.{id_of, count_table, steps_of, total_table, total_of, kept_of, passes_of, parts_of, AreOf, all_steps, AreSameCounts, IsSameTotal};

use crate::count::Count;
use crate::rule::{Advance, Gather, Leave};
use crate::tally::Tally;
use crate::total::Total;

/// The greatest total.
pub const LAST_TOTAL: u64 = u64::MAX;

impl Tally {
    /// Counts one more step of a pass, and one more in the total.
    pub fn step(&self, count: &mut Count, total: &mut Total)
        requires own { (count_table count.old ≡ id_of self.now)
            × (total_table total.old ≡ id_of self.now) }
        requires below_last { total_of total.old < LAST_TOTAL }
        ensures step { steps_of count.new ≡ steps_of count.old + 1 }
        ensures total { total_of total.new ≡ total_of total.old + 1 }
        ensures table { count_table count.new ≡ count_table count.old }
        ensures stays { (total_table total.new ≡ total_table total.old)
            × (kept_of total.new ≡ kept_of total.old)
            × (passes_of total.new ≡ passes_of total.old) }
    {
        let shared = &self.table.shared;
        let place = shared.split_seat::<Leave>(&mut count.place);
        let steps = count.steps;
        self.join(total, Count { place, steps });
        // The steps of one pass are no more than the total, so one more is below the last value
        // too.
        self.look(total);
        let place = shared.split_seat::<Advance>(&mut total.place);
        shared.join_seat::<Gather>(&mut count.place, place);
        count.steps += 1;
        total.steps += 1;
    }

    /// Joins these counts with the total, looks, and splits them again as they were.
    fn tally_with(&self, total: &mut Total, first: &mut Count, others: &mut [Count])
        requires own { (total_table total.old ≡ id_of self.now)
            × (count_table first.old ≡ id_of self.now) × AreOf (id_of self.now) others.old }
        requires all { 1 + length others.old + parts_of total.old ≡ ALL_PARTS }
        ensures sum { total_of total.old ≡ steps_of first.old + all_steps others.old
            + sum (passes_of total.old) }
        ensures first { (steps_of first.new ≡ steps_of first.old)
            × (count_table first.new ≡ count_table first.old) }
        ensures others { AreSameCounts others.new others.old }
        ensures stays { IsSameTotal total.new total.old }
    {
        let shared = &self.table.shared;
        let place = shared.split_seat::<Leave>(&mut first.place);
        let steps = first.steps;
        self.join(total, Count { place, steps });
        match others.split_first_mut() {
            None => self.look(total),
            Some((second, rest)) => self.tally_with(total, second, rest),
        }
        let Count { place, steps: _ } = self.split(total, steps);
        shared.join_seat::<Gather>(&mut first.place, place);
    }

    /// The steps of all passes together, which the total says too. Joins the counts of all passes
    /// with the total, and splits them again as they were.
    pub fn tally(&self, total: &mut Total, counts: &mut [Count]) -> u64
        requires own { (total_table total.old ≡ id_of self.now)
            × AreOf (id_of self.now) counts.old }
        requires alone { passes_of total.old ≡ [] }
        requires all { length counts.old + kept_of total.old ≡ ALL_PARTS }
        ensures total { result ≡ total_of total.old }
        ensures sum { result ≡ all_steps counts.old }
        ensures counts { AreSameCounts counts.new counts.old }
        ensures stays { IsSameTotal total.new total.old }
    {
        if let Some((first, others)) = counts.split_first_mut() {
            self.tally_with(total, first, others);
        } else {
            self.look(total);
        }
        total.steps
    }
}
