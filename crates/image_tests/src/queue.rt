//! A table of steps on the members of a key, and what is read of a queue.

mod forms;
mod side;

use crate::rows::row_holds;
use side::Side;
use std::alloc::{AllocError, Global};
use zq_dots::{Rule, SiteNo};
use zq_entry::Entry;
use zq_queue::Queue;

/// One of two sides.
#[derive(Clone, Copy)]
pub enum Who {
    A,
    B,
}

/// What is done to a key at two sides, or what it shows there.
enum Step {
    /// A side puts a member at this score.
    Put(Who, u8, i64),
    /// A side drops a member.
    Drop(Who, u8),
    /// A side puts a member at this score, and the member gets back what it had.
    Undone(Who, u8, i64),
    /// Each side takes what the other has.
    Meet,
    /// The queue of a side, in order.
    Shows(Who, &'static [(i128, u8)]),
}

const STEPS: &[Step] = &[
    Step::Shows(Who::A, &[]),
    Step::Drop(Who::A, b'x'),
    Step::Shows(Who::A, &[]),
    Step::Put(Who::A, b'x', 5),
    Step::Put(Who::A, b'b', 5),
    Step::Put(Who::A, b'c', 1),
    Step::Shows(Who::A, &[(1, b'c'), (5, b'b'), (5, b'x')]),
    Step::Put(Who::A, b'c', 9),
    Step::Shows(Who::A, &[(5, b'b'), (5, b'x'), (9, b'c')]),
    Step::Undone(Who::A, b'c', 2),
    Step::Undone(Who::A, b'd', 2),
    Step::Shows(Who::A, &[(5, b'b'), (5, b'x'), (9, b'c')]),
    Step::Shows(Who::B, &[]),
    Step::Meet,
    Step::Shows(Who::B, &[(5, b'b'), (5, b'x'), (9, b'c')]),
    // What the one drops and the other has, what both have, and what each has alone.
    Step::Drop(Who::A, b'x'),
    Step::Put(Who::B, b'e', 2),
    Step::Put(Who::A, b'f', -3),
    Step::Meet,
    Step::Shows(Who::A, &[(-3, b'f'), (2, b'e'), (5, b'b'), (9, b'c')]),
    // A Drop leaves a Put that it had not seen.
    Step::Put(Who::A, b'c', 1),
    Step::Drop(Who::B, b'c'),
    Step::Meet,
    Step::Shows(Who::B, &[(-3, b'f'), (1, b'c'), (2, b'e'), (5, b'b')]),
];

/// A key at two sides.
#[derive(Drop)]
struct Sides {
    a: Side,
    b: Side,
}

impl Sides {
    fn new(alloc: Global) -> Option<Sides> {
        let (a, b) = (SiteNo::new(0)?, SiteNo::new(7)?);
        Some(Sides {
            a: Side::new(alloc, Rule::High, a),
            b: Side::new(alloc, Rule::High, b),
        })
    }

    fn side(&mut self, who: Who) -> &mut Side {
        match who {
            Who::A => &mut self.a,
            Who::B => &mut self.b,
        }
    }

    /// Each side takes what the other has: whether both could, and have the same then.
    fn meet(&mut self, alloc: Global) -> bool {
        let (a, b) = (&self.a, &self.b);
        if a.queue.rule() != b.queue.rule() {
            return false;
        }
        let Ok(first) = a.queue.merge(alloc, &a.seen, &b.queue, &b.seen) else {
            return false;
        };
        let Ok(second) = b.queue.merge(alloc, &b.seen, &a.queue, &a.seen) else {
            return false;
        };
        let same = first.same(&second);
        self.keep(first, second);
        same
    }

    /// The sides have these queues, and have seen the same.
    fn keep(&mut self, first: Queue, second: Queue) {
        self.a.queue = first;
        self.b.queue = second;
        self.a.seen.join_with(&self.b.seen);
        self.b.seen = self.a.seen;
    }

    /// Whether the step could be done, or what it says holds.
    fn follows(&mut self, alloc: Global, step: &Step) -> bool {
        match *step {
            Step::Put(who, member, value) => self.side(who).puts(alloc, member, value),
            Step::Drop(who, member) => self.side(who).drops(alloc, member),
            Step::Undone(who, member, value) => self
                .side(who)
                .undoes(alloc, &[member], Some(value)),
            Step::Meet => self.meet(alloc),
            Step::Shows(who, pairs) => shows_queue(&self.side(who).queue, alloc, pairs),
        }
    }
}

/// What a queue lists.
type Listed<'a> = Result<Vec<(i128, &'a [u8])>, AllocError>;

/// Whether the pairs are these, of members of one byte.
fn are(listed: Listed<'_>, expected: &[(i128, u8)]) -> bool {
    match listed {
        Ok(pairs) => are_pairs(&pairs, expected),
        Err(AllocError) => false,
    }
}

fn are_pairs(pairs: &[(i128, &[u8])], expected: &[(i128, u8)]) -> bool {
    let mut same = pairs.len() == expected.len();
    for ((score, member), (wanted, letter)) in pairs.iter().zip(expected) {
        same = same && score == wanted && *member == [*letter].as_slice();
    }
    same
}

/// Whether a queue has these pairs in order, and so has its copy.
fn shows_queue(queue: &Queue, alloc: Global, expected: &[(i128, u8)]) -> bool {
    match queue.copy(alloc) {
        Ok(copy) => copy.same(queue) && are(queue.in_order(alloc), expected),
        Err(AllocError) => false,
    }
}

#[test]
fn two_sides_agree_when_they_have_met(rt: HostRuntime) {
    let alloc = rt.alloc();
    let mut sides = Sides::new(alloc).expect(&rt, "sides");
    for (row, step) in STEPS.iter().enumerate() {
        row_holds(&rt, "steps", row, sides.follows(alloc, step));
    }
}

/// What a member shows in a queue.
struct Case {
    member: u8,
    score: i64,
    rank: usize,
    turned_rank: usize,
}

const CASES: &[Case] = &[
    Case {
        member: b'b',
        score: 1,
        rank: 3,
        turned_rank: 0,
    },
    Case {
        member: b'a',
        score: 1,
        rank: 2,
        turned_rank: 1,
    },
    Case {
        member: b'c',
        score: -4,
        rank: 0,
        turned_rank: 3,
    },
    Case {
        member: b'd',
        score: 0,
        rank: 1,
        turned_rank: 2,
    },
];

/// From one place up to another, the pairs there, and those of the turned queue.
struct Cut {
    from: usize,
    to: usize,
    pairs: &'static [(i128, u8)],
    turned: &'static [(i128, u8)],
}

const CUTS: &[Cut] = &[
    Cut {
        from: 0,
        to: 2,
        pairs: &[(-4, b'c'), (0, b'd')],
        turned: &[(1, b'b'), (1, b'a')],
    },
    Cut {
        from: 1,
        to: 3,
        pairs: &[(0, b'd'), (1, b'a')],
        turned: &[(1, b'a'), (0, b'd')],
    },
    Cut {
        from: 3,
        to: 9,
        pairs: &[(1, b'b')],
        turned: &[(-4, b'c')],
    },
    Cut {
        from: 2,
        to: 2,
        pairs: &[],
        turned: &[],
    },
    Cut {
        from: 7,
        to: 9,
        pairs: &[],
        turned: &[],
    },
];

/// The first pair of the cases.
const FIRST: &[(i128, u8)] = &[(-4, b'c')];

/// A side whose queue has the cases.
fn with_cases(alloc: Global) -> Option<Side> {
    let mut side = Side::new(alloc, Rule::Low, SiteNo::new(63)?);
    for case in CASES {
        if !side.puts(alloc, case.member, case.score) {
            return None;
        }
    }
    Some(side)
}

fn shows_case(queue: &Queue, case: &Case) -> bool {
    let member: &[u8] = &[case.member];
    queue.score(member) == Some(i128::from(case.score))
        && queue.rank(member) == Some(case.rank)
        && queue.turned_rank(member) == Some(case.turned_rank)
        && queue.entry(member).is_some()
}

/// Whether a queue of the cases shows what it has beside them.
fn shows_rest(queue: &Queue) -> bool {
    queue.len() == CASES.len()
        && !queue.is_empty()
        && queue.rank(b"z").is_none()
        && queue.turned_rank(b"z").is_none()
        && queue.count_below(1, false) == 2
        && queue.count_below(1, true) == 4
        && queue.top() == Some((-4, b"c".as_slice()))
}

#[test]
fn shows_each_member(rt: HostRuntime) {
    let side = with_cases(rt.alloc()).expect(&rt, "the cases");
    assert!(rt; shows_rest(&side.queue));
    for (row, case) in CASES.iter().enumerate() {
        row_holds(&rt, "cases", row, shows_case(&side.queue, case));
    }
}

fn shows_cut(queue: &Queue, alloc: Global, cut: &Cut) -> bool {
    are(queue.slice(alloc, cut.from, cut.to), cut.pairs)
        && are(queue.slice_turned(alloc, cut.from, cut.to), cut.turned)
}

#[test]
fn cuts_by_places(rt: HostRuntime) {
    let side = with_cases(rt.alloc()).expect(&rt, "the cases");
    assert!(rt; are(side.queue.first(rt.alloc(), 1), FIRST));
    for (row, cut) in CUTS.iter().enumerate() {
        row_holds(&rt, "cuts", row, shows_cut(&side.queue, rt.alloc(), cut));
    }
}

/// A side whose queue has so many members.
fn with_members(alloc: Global, count: u8) -> Option<Side> {
    let mut side = Side::new(alloc, Rule::Low, SiteNo::new(63)?);
    for member in 0..count {
        if !side.puts(alloc, member, 0) {
            return None;
        }
    }
    Some(side)
}

/// Whether a queue has no index once it is merged, and then one.
fn merges_without_index(side: &Side, alloc: Global) -> bool {
    let queue = &side.queue;
    let Ok(mut merged) = queue.merge(alloc, &side.seen, queue, &side.seen) else {
        return false;
    };
    let had = merged.has_index();
    merged.index(alloc, 39);
    !had && merged.has_index() && merged.same(queue)
}

#[test]
fn an_index_stays_until_a_merge(rt: HostRuntime) {
    let alloc = rt.alloc();
    let mut side = with_members(alloc, 40).expect(&rt, "the members");
    side.queue.index(alloc, 40);
    assert!(rt; !side.queue.has_index());
    side.queue.index(alloc, 39);
    assert!(rt; side.queue.has_index());
    assert!(rt; side.drops(alloc, 7));
    assert!(rt; side.puts(alloc, 99, 7));
    assert!(rt; side.queue.has_index());
    assert!(rt; merges_without_index(&side, alloc));
}

/// Appends a member with what it has, where it is not there.
fn append(queue: &mut Queue, alloc: Global, member: &[u8], entry: &Entry) -> bool {
    if queue.entry(member).is_some() || entry.is_bare() {
        return false;
    }
    match entry.copy(alloc) {
        Ok(copy) => queue.push(member, copy).is_ok(),
        Err(AllocError) => false,
    }
}

/// Appends the rows, each of which has to come behind the one before it.
fn append_all(built: &mut Queue, alloc: Global, rows: &[(&[u8], &Entry)]) -> bool {
    let mut last: &[u8] = b"";
    for (member, entry) in rows {
        if last >= *member || !append(built, alloc, member, entry) {
            return false;
        }
        last = *member;
    }
    true
}

/// Whether another queue, made of the rows of this one, is the same.
fn is_built(queue: &Queue, alloc: Global, built: &mut Queue) -> bool {
    match queue.rows(alloc) {
        Ok(rows) => built.reserve(rows.len()).is_ok()
            && append_all(built, alloc, &rows)
            && built.same(queue),
        Err(AllocError) => false,
    }
}

#[test]
fn is_built_of_its_rows(rt: HostRuntime) {
    let side = with_cases(rt.alloc()).expect(&rt, "the cases");
    let site = SiteNo::new(1).expect(&rt, "a site");
    let mut built = Side::new(rt.alloc(), Rule::Low, site);
    assert!(rt; is_built(&side.queue, rt.alloc(), &mut built.queue));
}
