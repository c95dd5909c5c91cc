//! Steps of two sites on a heap, in a table, and what does them.

use crate::deed::Deed;
use crate::rows::row_holds;
use std::alloc::{AllocError, Global};
use std::process::Abort;
use zq_dots::{Op, Rule, SiteNo};
use zq_posheap::Seeded;
use zq_shard::{Shard, Taken};

/// Two sites.
#[derive(Clone, Copy)]
pub enum Site {
    A,
    B,
}

/// What is done to a heap at two sites, or what it shows there.
pub enum Step {
    /// A site puts a member of the key q at this score.
    Put(Site, u8, i64),
    /// A site adds to a member of the key q.
    Bump(Site, u8, i64),
    /// A site drops a member of the key q.
    Drop(Site, u8),
    /// A site is handed the operation that was made as the nth, counted from 0, and answers so.
    Give(Site, usize, Taken),
    /// A site merges what the other has.
    Merge(Site),
    /// A member of the key q has this score at a site.
    Score(Site, u8, Option<i128>),
    /// The first of the key q at a site.
    Top(Site, Option<(i128, u8)>),
    /// A member of the key q has this rank at a site, and this one from the other end.
    Ranks(Site, u8, Option<usize>, Option<usize>),
    /// So many pairs of the key q go before one of this score and member, and so many after it.
    Around(Site, i128, u8, usize, usize),
    /// So many scores of the key q are below this one, and so many below it or at it.
    Below(Site, i128, usize, usize),
    /// The members of the key q at a site, in order.
    Order(Site, &'static [u8]),
    /// The first so many of them.
    First(Site, usize, &'static [u8]),
    /// Those from one place up to another.
    Slice(Site, usize, usize, &'static [u8]),
    /// The same of the turned order.
    Turned(Site, usize, usize, &'static [u8]),
    /// The key q has so many members at a site.
    Count(Site, usize),
    /// Whether the two sites' heaps are the same.
    Same(bool),
}

/// Steps of two sites with these numbers, from an empty heap of a rule.
pub struct Table {
    pub name: &'static str,
    pub numbers: [u8; 2],
    pub rule: Rule,
    pub steps: &'static [Step],
}

/// A heap at two sites, and what they made there.
#[derive(Drop)]
struct Sites {
    a: Shard,
    b: Shard,
    made: Vec<Op>,
}

impl Sites {
    fn new(alloc: Global, rule: Rule) -> Sites {
        Sites {
            a: Shard::new_ruled(alloc, 0, 1, rule, Seeded::new(1)),
            b: Shard::new_ruled(alloc, 0, 1, rule, Seeded::new(2)),
            made: Vec::new(alloc),
        }
    }

    fn at(&self, site: Site) -> &Shard {
        match site {
            Site::A => &self.a,
            Site::B => &self.b,
        }
    }

    /// A site makes an operation on a member of the key q: whether it could.
    fn makes(
        &mut self,
        alloc: Global,
        numbers: [u8; 2],
        site: Site,
        member: u8,
        deed: Deed,
    ) -> bool {
        let [a, b] = numbers;
        let made = match site {
            Site::A => make(&mut self.a, alloc, a, member, deed),
            Site::B => make(&mut self.b, alloc, b, member, deed),
        };
        match made {
            Some(op) => self.made.push(op).is_ok(),
            None => false,
        }
    }

    /// A site is handed the operation that was made as the nth: whether it answers so.
    fn gives(&mut self, alloc: Global, site: Site, nth: usize, answer: Taken) -> bool {
        match (self.made.get(nth), site) {
            (Some(op), Site::A) => self.a.take(alloc, op) == Ok(answer),
            (Some(op), Site::B) => self.b.take(alloc, op) == Ok(answer),
            (None, _) => false,
        }
    }

    /// Whether the step could be done, or what it says holds.
    fn follows(&mut self, alloc: Global, numbers: [u8; 2], step: &Step) -> bool {
        if let Some((site, member, deed)) = deed_of(step) {
            return self.makes(alloc, numbers, site, member, deed);
        }
        match *step {
            Step::Give(site, nth, answer) => self.gives(alloc, site, nth, answer),
            Step::Merge(Site::A) => self.a.merge(alloc, &self.b).is_ok(),
            Step::Merge(Site::B) => self.b.merge(alloc, &self.a).is_ok(),
            Step::Same(same) => self.a.same(&self.b) == same,
            _ => self.shows(alloc, step),
        }
    }

    /// Whether a site shows what the step says.
    fn shows(&self, alloc: Global, step: &Step) -> bool {
        match *step {
            Step::Score(site, member, score) => self.at(site).score(b"q", &[member]) == score,
            Step::Count(site, count) => self.at(site).count(b"q") == count,
            Step::Top(site, first) => is_top(self.at(site).top(b"q"), first),
            Step::Ranks(site, member, rank, turned) => {
                let shard = self.at(site);
                shard.rank(b"q", &[member]) == rank && shard.turned_rank(b"q", &[member]) == turned
            }
            Step::Around(site, score, member, before, after) => {
                let shard = self.at(site);
                shard.count_before(b"q", score, &[member]) == before
                    && shard.count_after(b"q", score, &[member]) == after
            }
            Step::Below(site, score, below, at) => {
                let shard = self.at(site);
                shard.count_below(b"q", score, false) == below
                    && shard.count_below(b"q", score, true) == at
            }
            _ => self.lists(alloc, step),
        }
    }

    /// Whether a site lists what the step says.
    fn lists(&self, alloc: Global, step: &Step) -> bool {
        match *step {
            Step::Order(site, members) => are(self.at(site).in_order(alloc, b"q"), members),
            Step::First(site, count, members) => {
                are(self.at(site).first(alloc, b"q", count), members)
            }
            Step::Slice(site, from, to, members) => {
                are(self.at(site).slice(alloc, b"q", from, to), members)
            }
            Step::Turned(site, from, to, members) => {
                are(self.at(site).slice_turned(alloc, b"q", from, to), members)
            }
            _ => false,
        }
    }
}

/// What the step does to which member at which site, where it makes an operation.
fn deed_of(step: &Step) -> Option<(Site, u8, Deed)> {
    match *step {
        Step::Put(site, member, score) => Some((site, member, Deed::Put(score))),
        Step::Bump(site, member, score) => Some((site, member, Deed::Bump(score))),
        Step::Drop(site, member) => Some((site, member, Deed::Drop)),
        _ => None,
    }
}

/// Whether the first pair has this score and this member of one byte.
fn is_top(top: Option<(i128, &[u8])>, first: Option<(i128, u8)>) -> bool {
    match (top, first) {
        (Some((score, member)), Some((expected, byte))) => score == expected
            && member == [byte].as_slice(),
        (None, None) => true,
        _ => false,
    }
}

/// What a heap lists.
type Listed<'a> = Result<Vec<(i128, &'a [u8])>, AllocError>;

/// Whether the pairs are of these members of one byte each.
fn are(listed: Listed<'_>, members: &[u8]) -> bool {
    match listed {
        Ok(pairs) => are_of(&pairs, members),
        Err(AllocError) => false,
    }
}

fn are_of(pairs: &[(i128, &[u8])], members: &[u8]) -> bool {
    let mut same = pairs.len() == members.len();
    for (pair, member) in pairs.iter().zip(members) {
        same = same && pair.1 == [*member].as_slice();
    }
    same
}

/// Makes the next operation of a site on a member of the key q.
pub fn make(shard: &mut Shard, alloc: Global, site: u8, member: u8, deed: Deed) -> Option<Op> {
    let (site, act) = (SiteNo::new(site)?, deed.act()?);
    shard.make(alloc, site, b"q", &[member], act).ok()
}

/// Follows the steps of a table, with an index wherever the key q has more than so many members.
pub fn follow(rt: &impl Abort, alloc: Global, table: &Table, most: usize) {
    let mut sites = Sites::new(alloc, table.rule);
    for (row, step) in table.steps.iter().enumerate() {
        sites.a.index(alloc, b"q", most);
        sites.b.index(alloc, b"q", most);
        row_holds(
            rt,
            table.name,
            row,
            sites.follows(alloc, table.numbers, step),
        );
    }
}
