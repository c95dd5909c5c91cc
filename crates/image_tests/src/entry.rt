//! Two sides that act on a member apart and meet, and an entry of 64 additions.

mod side;

use crate::deed::Deed;
use crate::rows::row_holds;
use side::Side;
use std::alloc::Global;
use std::process::Abort;
use zq_dots::{Dot, Rule, Score, SiteNo, Vector};
use zq_entry::{Addition, Entry};

/// One of two sides.
#[derive(Clone, Copy)]
enum Who {
    A,
    B,
}

/// What is done to a member at two sides, or what it shows there.
enum Step {
    /// A side acts on the member.
    Does(Who, Deed),
    /// Each side takes what the other has.
    Meet,
    /// The member has these scores at a side, by the greatest value and by the least.
    Scores(Who, Option<i128>, Option<i128>),
}

const STEPS: &[Step] = &[
    Step::Scores(Who::A, None, None),
    Step::Does(Who::A, Deed::Put(10)),
    Step::Meet,
    Step::Does(Who::A, Deed::Bump(5)),
    Step::Does(Who::B, Deed::Bump(7)),
    Step::Scores(Who::A, Some(15), Some(15)),
    Step::Scores(Who::B, Some(17), Some(17)),
    Step::Meet,
    Step::Scores(Who::A, Some(22), Some(22)),
    Step::Meet,
    Step::Scores(Who::B, Some(22), Some(22)),
    // A sum that comes to 0 again.
    Step::Does(Who::B, Deed::Bump(-7)),
    Step::Meet,
    Step::Scores(Who::A, Some(15), Some(15)),
    // A Drop takes what it has seen, and not a Bump's addition that it has not.
    Step::Does(Who::A, Deed::Drop),
    Step::Scores(Who::A, None, None),
    Step::Meet,
    Step::Scores(Who::B, None, None),
    // Two Puts apart.
    Step::Does(Who::A, Deed::Put(5)),
    Step::Does(Who::B, Deed::Put(9)),
    Step::Meet,
    Step::Scores(Who::A, Some(9), Some(5)),
    Step::Does(Who::A, Deed::Bump(2)),
    Step::Scores(Who::A, Some(11), Some(7)),
    Step::Does(Who::B, Deed::Put(1)),
    Step::Scores(Who::B, Some(1), Some(1)),
    Step::Meet,
    Step::Scores(Who::A, Some(1), Some(1)),
    // A Put that a Drop has not seen.
    Step::Does(Who::A, Deed::Put(3)),
    Step::Does(Who::B, Deed::Drop),
    Step::Meet,
    Step::Scores(Who::A, Some(3), Some(3)),
    Step::Scores(Who::B, Some(3), Some(3)),
];

/// A member at two sides.
#[derive(Drop)]
struct Sides {
    a: Side,
    b: Side,
}

impl Sides {
    /// Each side takes what the other has: whether both could, and have the same then.
    fn meet(&mut self, alloc: Global) -> bool {
        let Some(first) = self.a.merge(alloc, &self.b) else {
            return false;
        };
        let Some(second) = self.b.merge(alloc, &self.a) else {
            return false;
        };
        let same = first.entry().same(second.entry());
        self.a = first;
        self.b = second;
        same
    }

    /// Whether the step could be done, or what it says holds.
    fn follows(&mut self, alloc: Global, numbers: [SiteNo; 2], step: &Step) -> bool {
        let [a, b] = numbers;
        match *step {
            Step::Does(Who::A, deed) => self.a.does(alloc, a, deed),
            Step::Does(Who::B, deed) => self.b.does(alloc, b, deed),
            Step::Meet => self.meet(alloc),
            Step::Scores(Who::A, high, low) => has_scores(self.a.entry(), high, low),
            Step::Scores(Who::B, high, low) => has_scores(self.b.entry(), high, low),
        }
    }
}

fn has_scores(entry: &Entry, high: Option<i128>, low: Option<i128>) -> bool {
    entry.score(Rule::High) == high && entry.score(Rule::Low) == low
}

/// Two sides of sites with these numbers follow the steps.
fn follow(rt: &impl Abort, alloc: Global, a: u8, b: u8) {
    let a = SiteNo::new(a).expect(rt, "a site");
    let b = SiteNo::new(b).expect(rt, "a site");
    let mut sides = Sides {
        a: Side::new(),
        b: Side::new(),
    };
    for (row, step) in STEPS.iter().enumerate() {
        row_holds(rt, "steps", row, sides.follows(alloc, [a, b], step));
    }
}

#[test]
fn two_sites_agree_when_they_have_met(rt: HostRuntime) {
    follow(&rt, rt.alloc(), 0, 1);
}

#[test]
fn the_last_site_is_like_the_others(rt: HostRuntime) {
    follow(&rt, rt.alloc(), 7, 63);
}

/// Puts a site's first addition, at the site's number, by one who has seen none.
fn put_first(entry: &mut Entry, alloc: Global, number: u8) -> bool {
    let (Some(site), Some(score)) = (SiteNo::new(number), Score::new(i64::from(number))) else {
        return false;
    };
    let dot = Dot { site, n: 1 };
    entry.put(alloc, dot, score, &Vector::new()).is_ok()
}

#[test]
fn an_entry_has_an_addition_of_each_site(rt: HostRuntime) {
    let mut entry = Entry::new();
    for number in 0..64 {
        assert!(rt; put_first(&mut entry, rt.alloc(), number));
    }
    assert!(rt; entry.len() == 64);
    assert!(rt; has_scores(&entry, Some(63), Some(0)));
    let copy = entry.copy(rt.alloc()).expect(&rt, "a copy");
    assert!(rt; copy.same(&entry));
}

/// Whether an entry of one addition, of a site at -1 and the 40 that another added, has its score,
/// and is the entry of its additions.
fn is_remade(alloc: Global, site: SiteNo, other: SiteNo) -> Option<bool> {
    let score = Score::new(-1)?;
    let mut sums = Vec::new(alloc);
    sums.push((other, 40)).ok()?;
    let mut entry = Entry::new();
    let addition = Addition::of(Dot { site, n: 12 }, score, sums);
    let Ok(()) = entry.append(alloc, addition) else {
        return None;
    };
    let Ok(additions) = entry.additions(alloc) else {
        return None;
    };
    let Ok(again) = Entry::of_additions(alloc, &additions) else {
        return None;
    };
    let shows = has_scores(&entry, Some(39), Some(39)) && additions.len() == 1;
    Some(shows && again.same(&entry))
}

#[test]
fn an_entry_is_made_of_its_additions(rt: HostRuntime) {
    let site = SiteNo::new(7).expect(&rt, "a site");
    let other = SiteNo::new(3).expect(&rt, "a site");
    assert!(rt; is_remade(rt.alloc(), site, other) == Some(true));
}
