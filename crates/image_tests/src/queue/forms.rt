//! A key of 0 to 40 members at two sides, as a list and as a table with a heap: a table of steps
//! over both thresholds, and drawn steps.

mod tables;

use super::side::Side;
use super::{Sides, Who};
use crate::held::{
    Held, MEMBERS, NONE, alone, change, count, count_before, has_score, is_top, join, letter_of,
    lists, lists_turned, name_of, next_from, number_of, rank, score_of,
};
use crate::rows::row_holds;
use rand_core::{Rng, SeedableRng};
use rand_pcg::Pcg64;
use std::alloc::{AllocError, Global};
use std::process::Abort;
use tables::{Step, TABLES, Table};
use zq_entry::Entry;
use zq_queue::Queue;

/// Changes a member at a side, in its queue and in the list: whether the queue answers what it had.
fn changes(
    side: &mut Side,
    held: &mut Held,
    alloc: Global,
    letter: u8,
    score: Option<i64>,
    step: usize,
) -> bool {
    let number = number_of(letter);
    let answer = match side.changes(alloc, name_of(number), score) {
        Some(before) => has_score(held, number, before),
        None => false,
    };
    change(held, number, score, step);
    answer
}

/// Changes each of some members: whether the queue answers what each had.
fn changes_all(
    side: &mut Side,
    held: &mut Held,
    alloc: Global,
    letters: &[u8],
    score: Option<i64>,
    step: usize,
) -> bool {
    for letter in letters {
        if !changes(side, held, alloc, *letter, score, step) {
            return false;
        }
    }
    true
}

/// A copy takes the place of a side's queue: whether it could, and is the same.
fn copies(side: &mut Side, alloc: Global) -> bool {
    match side.queue.copy(alloc) {
        Ok(copy) => {
            let same = copy.same(&side.queue) && side.queue.same(&copy);
            side.queue = copy;
            same
        }
        Err(AllocError) => false,
    }
}

/// Makes an index where there are more members than so many: whether there is one then.
fn indexes(queue: &mut Queue, alloc: Global, most: usize) -> bool {
    queue.index(alloc, most);
    queue.has_index()
}

/// The side that a step is about, where it is about one.
fn who_of(step: &Step) -> Who {
    match *step {
        Step::Put(who, _, _)
        | Step::Drop(who, _)
        | Step::Undone(who, _, _)
        | Step::Reserve(who, _)
        | Step::Index(who, _, _)
        | Step::Copied(who)
        | Step::Order(who, _)
        | Step::Stands(who, _, _, _) => who,
        Step::Meet => Who::A,
    }
}

/// Whether a step of one side could be done, or what it says holds.
fn does(side: &mut Side, held: &mut Held, alloc: Global, step: &Step, number: usize) -> bool {
    match *step {
        Step::Put(_, letters, score) => {
            changes_all(side, held, alloc, letters, Some(score), number)
        }
        Step::Drop(_, letters) => changes_all(side, held, alloc, letters, None, number),
        Step::Undone(_, letter, score) => side.undoes(alloc, name_of(number_of(letter)), score),
        Step::Reserve(_, additional) => side.queue.reserve(additional).is_ok(),
        Step::Index(_, most, has) => indexes(&mut side.queue, alloc, most) == has,
        Step::Copied(_) => copies(side, alloc),
        Step::Order(_, letters) => are_in_order(&side.queue, alloc, letters),
        Step::Stands(_, letter, score, rank) => {
            let member = name_of(number_of(letter));
            side.queue.score(member) == Some(score) && side.queue.rank(member) == Some(rank)
        }
        Step::Meet => true,
    }
}

/// Whether a queue has the members of these letters, in order.
fn are_in_order(queue: &Queue, alloc: Global, letters: &[u8]) -> bool {
    match queue.in_order(alloc) {
        Ok(pairs) => pairs.len() == letters.len() && begin_with(&pairs, letters),
        Err(AllocError) => false,
    }
}

/// Whether the names begin with these letters.
fn begin_with(pairs: &[(i128, &[u8])], letters: &[u8]) -> bool {
    for (pair, letter) in pairs.iter().zip(letters) {
        if pair.1 != name_of(number_of(*letter)) {
            return false;
        }
    }
    true
}

/// Whether an entry has the score of a member, or there is none where the member does not stand.
fn is_entry(held: &Held, number: usize, queue: &Queue, entry: Option<&Entry>) -> bool {
    match entry {
        Some(entry) => entry.len() == 1 && has_score(held, number, entry.score(queue.rule())),
        None => score_of(held, number).is_none(),
    }
}

/// Whether the queue shows what the list has of a member.
fn shows_member(queue: &Queue, held: &Held, number: usize) -> bool {
    let member = name_of(number);
    let score = i128::from(score_of(held, number).unwrap_or(0));
    let place = rank(held, number);
    is_entry(held, number, queue, queue.entry(member))
        && has_score(held, number, queue.score(member))
        && queue.rank(member) == place
        && queue.turned_rank(member).is_some() == place.is_some()
        && queue.count_before(score, member) == count_before(held, score, member)
        && queue.count_below(score, false) == count_before(held, score, b"")
        && queue.count_below(score, true) == count_before(held, score.saturating_add(1), b"")
}

/// Whether the queue shows what the list has of each member.
fn shows_members(queue: &Queue, held: &Held) -> bool {
    for number in 0..MEMBERS {
        if !shows_member(queue, held, number) {
            return false;
        }
    }
    true
}

/// Whether the queue lists what the list has, and its part from one place up to another.
fn shows_order(queue: &Queue, held: &Held, alloc: Global, from: usize, to: usize) -> bool {
    queue.len() == count(held)
        && queue.is_empty() == (count(held) == 0)
        && is_top(held, queue.top())
        && lists(held, 0, MEMBERS, queue.in_order(alloc))
        && lists(held, 0, to, queue.first(alloc, to))
        && lists(held, from, to, queue.slice(alloc, from, to))
        && lists_turned(held, from, to, queue.slice_turned(alloc, from, to))
}

/// Whether a side shows its list, with the member and the part that the step's number says.
fn shows(side: &Side, held: &Held, alloc: Global, number: usize) -> bool {
    let from = number % 19;
    shows_member(&side.queue, held, number % MEMBERS)
        && shows_order(&side.queue, held, alloc, from, from + number % 7)
}

/// Whether the step with this number can be done, with the answers that it should have, and both
/// sides show their lists after it.
fn follows(
    sides: &mut Sides,
    ours: &mut Held,
    theirs: &mut Held,
    alloc: Global,
    step: &Step,
    number: usize,
) -> bool {
    let done = match (step, who_of(step)) {
        (Step::Meet, _) => {
            join(ours, theirs);
            join(theirs, ours);
            sides.meet(alloc)
        }
        (_, Who::A) => does(&mut sides.a, ours, alloc, step, number),
        (_, Who::B) => does(&mut sides.b, theirs, alloc, step, number),
    };
    done && shows(&sides.a, ours, alloc, number) && shows(&sides.b, theirs, alloc, number)
}

/// Follows the steps of a table from two empty queues.
fn follow(rt: &impl Abort, alloc: Global, table: &Table) {
    let mut sides = Sides::new(alloc).expect(rt, "sides");
    let (mut ours, mut theirs) = (NONE, NONE);
    for (row, step) in table.steps.iter().enumerate() {
        let number = row.saturating_add(1);
        let holds = follows(&mut sides, &mut ours, &mut theirs, alloc, step, number);
        let all = shows_members(&sides.a.queue, &ours) && shows_members(&sides.b.queue, &theirs);
        row_holds(rt, table.name, row, holds && all);
    }
}

#[test]
fn both_forms_follow_the_tables(rt: HostRuntime) {
    for table in TABLES {
        follow(&rt, rt.alloc(), table);
    }
}

/// The step that is drawn. Where `rises`, most steps put members, and else most drop them, many of
/// them of those that the list has not, or has. Each side changes its own half of the members.
fn drawn(draw: [u8; 8], rises: bool, held: &Held) -> Step {
    let mut number = usize::from(draw[0]) % MEMBERS;
    if draw[1] & 2 == 0 {
        number = next_from(held, number, !rises);
    }
    let who = if draw[1] & 1 == 0 { Who::A } else { Who::B };
    let owner = if number % 2 == 0 { Who::A } else { Who::B };
    let (letter, letters) = (letter_of(number), alone(number));
    let score = i64::from(draw[2] & 7);
    let room = usize::from(draw[4] & 15);
    match draw[3] & 15 {
        0 => Step::Meet,
        1 => Step::Copied(who),
        2 => Step::Reserve(who, room),
        3 => Step::Undone(who, letter, Some(score)),
        4 => Step::Undone(who, letter, None),
        n => {
            if rises == (n < 14) {
                Step::Put(owner, letters, score)
            } else {
                Step::Drop(owner, letters)
            }
        }
    }
}

#[test]
fn both_forms_follow_drawn_steps(rt: HostRuntime) {
    let alloc = rt.alloc();
    let mut sides = Sides::new(alloc).expect(&rt, "sides");
    let (mut ours, mut theirs) = (NONE, NONE);
    let mut draws = Pcg64::seed_from_u64(1);
    for row in 0..800usize {
        let step = drawn(draws.next_u64().to_le_bytes(), row / 200 % 2 == 0, &ours);
        let number = row.saturating_add(1);
        if row % 40 == 0 {
            sides.a.queue.index(alloc, 8);
        }
        let holds = follows(&mut sides, &mut ours, &mut theirs, alloc, &step, number);
        row_holds(&rt, "drawn steps", row, holds);
    }
}
