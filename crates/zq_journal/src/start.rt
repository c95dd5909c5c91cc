//! Where a walk over the records that a peer lacks begins.
ghost use Rattle.std.specs.Prelude.{◌≡◌, ◌<◌, ◌≤◌, ◌⊎◌, drop, length, take, true, ℕ};
ghost use Rattle.zq_journal.specs.Records.{AreCounted, LacksFirst, vector_over, vector_under};
ghost use Rattle.zq_model.specs.Sets.{covers};

use crate::records::Record;
use std::collections::VecDeque;
use zq_dots::Vector;

/// A place in a tail, and the vector of the state before the record there.
#[derive(Clone, Copy)]
pub(crate) struct Start {
    pub(crate) place: usize,
    pub(crate) seen: Vector,
}

impl Start {
    /// The oldest record that a vector lacks, of a tail that leads from the vector `base` to `last`.
    /// It is looked for from the newest record on back, or from the oldest one on; the vector covers
    /// `base`.
    pub(crate) fn of(
        tail: &VecDeque<Record>,
        base: &Vector,
        last: &Vector,
        vector: &Vector,
        is_old: bool,
    ) -> Start
        ensures within { result.place ≤ length tail.now.items }
        ensures seen { (h K : ℕ) →
            (result.seen ≡ vector_over h K base.now (take result.place tail.now.items))
            ⊎ (result.seen ≡ vector_under h K last.now (drop result.place tail.now.items)) }
        ensures covered { covers vector.now base.now ≡ true → 0 < result.place →
            covers vector.now result.seen ≡ true }
        ensures lacked { (h K : ℕ) → AreCounted h K last.now tail.now.items →
            covers vector.now (vector_under h K last.now tail.now.items) ≡ true →
            LacksFirst h K vector.now (drop result.place tail.now.items) }
    {
        if is_old {
            Start::from_oldest(tail, base, vector)
        } else {
            Start::from_newest(tail, last, vector)
        }
    }

    /// From the oldest record on: it counts `base` up, over what the vector has. It looks at none
    /// behind the one that it gives.
    fn from_oldest(tail: &VecDeque<Record>, base: &Vector, vector: &Vector) -> Start
        ensures within { result.place ≤ length tail.now.items }
        ensures seen { (h K : ℕ) →
            result.seen ≡ vector_over h K base.now (take result.place tail.now.items) }
        ensures covered { covers vector.now base.now ≡ true →
            covers vector.now result.seen ≡ true }
        ensures lacked { (h K : ℕ) → LacksFirst h K vector.now (drop result.place tail.now.items) }
    {
        let mut seen = *base;
        for place in 0..tail.len() {
            let what = &tail[place].what;
            if what.is_new_to(vector) {
                return Start { place, seen };
            }
            let dot = what.dot();
            seen.set(dot.site, dot.n);
        }
        let place = tail.len();
        Start { place, seen }
    }

    /// From the newest record on back: it counts `last` down, until the vector covers what is left.
    /// It looks at none before the one that it gives.
    fn from_newest(tail: &VecDeque<Record>, last: &Vector, vector: &Vector) -> Start
        ensures within { result.place ≤ length tail.now.items }
        ensures seen { (h K : ℕ) →
            result.seen ≡ vector_under h K last.now (drop result.place tail.now.items) }
        ensures covered { 0 < result.place → covers vector.now result.seen ≡ true }
        ensures lacked { (h K : ℕ) → AreCounted h K last.now tail.now.items →
            covers vector.now (vector_under h K last.now tail.now.items) ≡ true →
            LacksFirst h K vector.now (drop result.place tail.now.items) }
    {
        let mut seen = *last;
        if vector.covers(&seen) {
            let place = tail.len();
            return Start { place, seen };
        }
        for newer in 0..tail.len() {
            let place = tail.len() - 1 - newer;
            let dot = tail[place].what.dot();
            seen.set(dot.site, dot.n - 1);
            // Only where it lacks no older one of this site can it lack no older one at all.
            if vector.get(dot.site) == dot.n - 1 && vector.covers(&seen) {
                return Start { place, seen };
            }
        }
        Start { place: 0, seen }
    }
}
