//! Three sites against a plain list of operations, which is read by the words of the definitions.

use crate::rows::row_holds;
use rand_core::{Rng, SeedableRng};
use rand_pcg::Pcg64;
use std::alloc::Global;
use std::process::Abort;
use zq_dots::{Act, Op, Rule, Score, SiteNo};
use zq_posheap::Seeded;
use zq_shard::{Shard, Taken};

const SITES: usize = 3;

/// The numbers of the sites.
const NUMBERS: [u8; SITES] = [0, 7, 63];

const MEMBERS: [&[u8; 1]; 3] = [b"a", b"b", b"c"];

/// A heap at each of the sites.
#[derive(Drop)]
struct Heaps {
    a: Shard,
    b: Shard,
    c: Shard,
}

impl Heaps {
    fn new(alloc: Global, rule: Rule) -> Heaps {
        Heaps {
            a: Shard::new_ruled(alloc, 0, 1, rule, Seeded::new(1)),
            b: Shard::new_ruled(alloc, 0, 1, rule, Seeded::new(2)),
            c: Shard::new_ruled(alloc, 0, 1, rule, Seeded::new(3)),
        }
    }

    fn at(&self, site: usize) -> &Shard {
        match site {
            0 => &self.a,
            1 => &self.b,
            _ => &self.c,
        }
    }

    fn at_mut(&mut self, site: usize) -> &mut Shard {
        match site {
            0 => &mut self.a,
            1 => &mut self.b,
            _ => &mut self.c,
        }
    }
}

/// An operation, and which of the sites have taken it.
#[derive(Drop)]
struct Record {
    op: Op,
    taken: [bool; SITES],
}

impl Record {
    fn is_taken(&self, site: usize) -> bool {
        self.taken.get(site) == Some(&true)
    }

    /// Whether it was made by a site that had taken the other.
    fn has_seen(&self, other: &Record) -> bool {
        let dot = other.op.dot();
        dot.n <= self.op.seen().get(dot.site)
    }

    fn is_of(&self, member: &[u8]) -> bool {
        self.op.member() == member
    }

    /// Whether it takes the other away.
    fn removes(&self, other: &Record) -> bool {
        !matches!(self.op.act(), Act::Bump(_))
            && self.op.member() == other.op.member()
            && self.has_seen(other)
    }

    /// What it adds to the other.
    fn adds_to(&self, other: &Record) -> i64 {
        match self.op.act() {
            Act::Bump(increment) if self.op.member() == other.op.member() && self.has_seen(other) =>
                { increment.value() }
            _ => 0,
        }
    }
}

/// What a site answers to the operation at this place of the list.
fn expected(records: &[Record], site: usize, record: &Record) -> Taken {
    if record.is_taken(site) {
        return Taken::Known;
    }
    for other in records {
        if record.has_seen(other) && !other.is_taken(site) {
            return Taken::Early;
        }
    }
    Taken::New
}

/// Whether an operation that the site has taken removes this one.
fn is_removed(records: &[Record], site: usize, record: &Record) -> bool {
    for other in records {
        if other.is_taken(site) && other.removes(record) {
            return true;
        }
    }
    false
}

/// A Put's score and all that the site has taken adds to it.
fn value_of(records: &[Record], site: usize, record: &Record, score: Score) -> i64 {
    let mut value = score.value();
    for other in records {
        if other.is_taken(site) {
            value = value.saturating_add(other.adds_to(record));
        }
    }
    value
}

/// The preferred of two values, where there are two.
fn preferred(rule: Rule, best: Option<i64>, value: i64) -> i64 {
    match (rule, best) {
        (_, None) => value,
        (Rule::High, Some(best)) => best.max(value),
        (Rule::Low, Some(best)) => best.min(value),
    }
}

/// The preferred value of a Put of the member that the site has taken and nothing removed.
fn expected_score(rule: Rule, records: &[Record], site: usize, member: &[u8]) -> Option<i64> {
    let mut best = None;
    for record in records {
        if let Act::Put(score) = record.op.act()
            && record.is_taken(site)
            && record.is_of(member)
            && !is_removed(records, site, record)
        {
            best = Some(preferred(rule, best, value_of(records, site, record, score)));
        }
    }
    best
}

fn is_score(score: Option<i128>, expected: Option<i64>) -> bool {
    match (score, expected) {
        (Some(score), Some(value)) => score == i128::from(value),
        (None, None) => true,
        _ => false,
    }
}

/// Whether the site's heap has the scores, the number of members and the first that the list gives
/// it.
fn is_as_expected(rule: Rule, shard: &Shard, records: &[Record], site: usize) -> bool {
    let mut count: usize = 0;
    let mut first = None;
    for member in MEMBERS {
        let score = expected_score(rule, records, site, member);
        if !is_score(shard.score(b"q", member), score) {
            return false;
        }
        if let Some(score) = score {
            first = Some(preferred(Rule::Low, first, score));
            count = count.saturating_add(1);
        }
    }
    let top = match shard.top(b"q") {
        Some((score, _)) => Some(score),
        None => None,
    };
    shard.count(b"q") == count && is_score(top, first)
}

/// How many members go before one by the scores that the list gives them.
fn expected_rank(rule: Rule, records: &[Record], site: usize, member: &[u8]) -> Option<usize> {
    let score = expected_score(rule, records, site, member)?;
    let mut rank: usize = 0;
    for other in MEMBERS {
        if let Some(its) = expected_score(rule, records, site, other)
            && (its, other.as_slice()).cmp(&(score, member)).is_lt()
        {
            rank = rank.saturating_add(1);
        }
    }
    Some(rank)
}

/// Whether each member has the rank that the list gives it.
fn is_ranked(rule: Rule, shard: &Shard, records: &[Record], site: usize) -> bool {
    for member in MEMBERS {
        if shard.rank(b"q", member) != expected_rank(rule, records, site, member) {
            return false;
        }
    }
    true
}

/// An act, a Drop one time in four and a Bump one time in four.
fn act(draws: &mut Pcg64) -> Option<Act> {
    let drawn = i64::try_from(draws.next_u64() % 9).ok()?;
    let value = Score::new(drawn.saturating_sub(4))?;
    match draws.next_u64() % 4 {
        0 => Some(Act::Drop),
        1 => Some(Act::Bump(value)),
        _ => Some(Act::Put(value)),
    }
}

/// Makes an operation at a site.
fn make(shard: &mut Shard, alloc: Global, draws: &mut Pcg64, site: usize) -> Option<Record> {
    let number = SiteNo::new(NUMBERS[site % SITES])?;
    let member = MEMBERS[(draws.next_u64() % 3) as usize];
    let op = shard.make(alloc, number, b"q", member, act(draws)?).ok()?;
    let mut taken = [false; SITES];
    taken[site % SITES] = true;
    Some(Record { op, taken })
}

/// Makes an operation at a site, and lists it: whether it could.
fn makes(
    shard: &mut Shard,
    alloc: Global,
    records: &mut Vec<Record>,
    draws: &mut Pcg64,
    site: usize,
) -> bool {
    match make(shard, alloc, draws, site) {
        Some(record) => records.push(record).is_ok(),
        None => false,
    }
}

/// One site takes all that another has: whether it could.
fn merges(heaps: &mut Heaps, alloc: Global, site: usize, from: usize) -> bool {
    match heaps.at(from).copy(alloc) {
        Ok(other) => heaps.at_mut(site).merge(alloc, &other).is_ok(),
        Err(_) => false,
    }
}

/// Notes that a site has taken all that another has.
fn note_merged(records: &mut [Record], site: usize, from: usize) {
    for record in records {
        if record.is_taken(from) {
            record.taken[site % SITES] = true;
        }
    }
}

/// Notes that a site has taken an operation.
fn note_taken(records: &mut [Record], at: usize, site: usize) {
    if let Some(record) = records.get_mut(at) {
        record.taken[site % SITES] = true;
    }
}

/// Hands an operation to a site: whether it answers as it should.
fn hands(shard: &mut Shard, alloc: Global, records: &mut [Record], at: usize, site: usize) -> bool {
    let Some(record) = records.get(at) else {
        return false;
    };
    let answer = expected(records, site, record);
    let answers = shard.take(alloc, &record.op) == Ok(answer);
    if answer == Taken::New {
        note_taken(records, at, site);
    }
    answers
}

/// Draws what happens next, which is made, handed on or merged: whether it could be, with the
/// answer that it should have.
fn steps(
    heaps: &mut Heaps,
    alloc: Global,
    records: &mut Vec<Record>,
    draws: &mut Pcg64,
    site: usize,
) -> bool {
    let kind = draws.next_u64() % 6;
    if records.is_empty() || kind < 2 {
        return makes(heaps.at_mut(site), alloc, records, draws, site);
    }
    if kind == 2 {
        let from = (draws.next_u64() % 3) as usize;
        note_merged(records, site, from);
        return merges(heaps, alloc, site, from);
    }
    let at = (draws.next_u64() % records.len() as u64) as usize;
    hands(heaps.at_mut(site), alloc, records, at, site)
}

/// Plays a run of three sites, whose heaps have an index past so many members, and compares a site
/// with the list after each of its steps.
fn play(rt: &impl Abort, alloc: Global, rule: Rule, most: usize, draws: &mut Pcg64) {
    let mut heaps = Heaps::new(alloc, rule);
    let mut records: Vec<Record> = Vec::new(alloc);
    for step in 0..60 {
        let site = (draws.next_u64() % 3) as usize;
        let done = steps(&mut heaps, alloc, &mut records, draws, site);
        heaps.at_mut(site).index(alloc, b"q", most);
        let holds = is_as_expected(rule, heaps.at(site), &records, site)
            && is_ranked(rule, heaps.at(site), &records, site);
        row_holds(rt, "drawn steps", step, done && holds);
    }
}

#[test]
fn sites_hold_what_they_have_taken(rt: HostRuntime) {
    let mut draws = Pcg64::seed_from_u64(1);
    for _ in 0..8 {
        for most in [usize::MAX, 1] {
            play(&rt, rt.alloc(), Rule::High, most, &mut draws);
            play(&rt, rt.alloc(), Rule::Low, most, &mut draws);
        }
    }
}
