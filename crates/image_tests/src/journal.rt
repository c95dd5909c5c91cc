//! Books of three sites, by tables of steps.

mod calls;
mod drawn;
mod handing;
mod limits;
mod untouched;

use crate::deed::Deed;
use crate::rows::row_holds;
use calls::{cuts, gives, is_sound, make, merge, shows, take, takes_all, touches, two_members};
use std::alloc::Global;
use std::process::Abort;
use zq_dots::{Op, SiteNo};
use zq_journal::{Book, Since};
use zq_shard::{Shard, Taken};

/// The sites 0, 1 and 2.
#[derive(Clone, Copy)]
enum Site {
    A,
    B,
    C,
}

/// What is done to the books of the sites, or what they show.
enum Step {
    /// A site acts on a member of the key q, at its book's stamp.
    Make(Site, u8, Deed),
    /// A site's book is touched at a stamp.
    Touch(Site, u64),
    /// A site is handed the operation that was made as the nth, counted from 0, and answers so.
    Take(Site, usize, Taken),
    /// The first site takes what it lacks of the second's book: its operations, or its state where
    /// they are too old.
    Tell(Site, Site),
    /// The first site merges the second's state.
    Merge(Site, Site),
    /// So many of the oldest records of a site's book are dropped.
    Cut(Site, usize),
    /// A peer that has so many operations of the sites 0, 1 and 2 is given those on these members,
    /// in this order, or `TooOld`.
    Given(Site, [u64; 3], Option<&'static [u8]>),
    /// A site's book has this stamp, this count and so many records.
    Shows(Site, u64, u64, usize),
    /// A member of the key q has this score at a site.
    Scores(Site, u8, Option<i128>),
    /// A site's book passes its audit.
    Sound(Site),
    /// Two sites have the same state.
    Equal(Site, Site),
}

/// Steps from books over a heap of two members.
struct Table {
    name: &'static str,
    steps: &'static [Step],
}

const TABLES: &[Table] = &[
    Table {
        name: "a_peer_is_given_what_it_lacks",
        steps: &[
            Step::Scores(Site::A, b'y', Some(2)),
            Step::Make(Site::A, b'z', Deed::Put(3)),
            Step::Given(Site::A, [1, 0, 0], None),
            Step::Given(Site::A, [2, 0, 0], Some(b"z")),
            Step::Given(Site::A, [3, 0, 0], Some(b"")),
            Step::Sound(Site::A),
            Step::Scores(Site::A, b'z', Some(3)),
        ],
    },
    Table {
        name: "a_peer_is_given_what_it_lacks_of_each_site",
        steps: &[
            Step::Given(Site::A, [2, 0, 0], Some(b"")),
            Step::Given(Site::A, [1, 9, 9], None),
            Step::Make(Site::B, b'x', Deed::Put(3)),
            Step::Make(Site::A, b'z', Deed::Put(4)),
            Step::Take(Site::A, 0, Taken::New),
            Step::Make(Site::B, b'y', Deed::Put(5)),
            Step::Take(Site::A, 2, Taken::New),
            Step::Make(Site::A, b'w', Deed::Put(6)),
            // the newest alone, none to all,
            Step::Given(Site::A, [4, 2, 0], Some(b"")),
            Step::Given(Site::A, [3, 2, 0], Some(b"w")),
            Step::Given(Site::A, [3, 1, 0], Some(b"yw")),
            Step::Given(Site::A, [3, 0, 0], Some(b"xyw")),
            Step::Given(Site::A, [2, 0, 0], Some(b"zxyw")),
            // those of one site,
            Step::Given(Site::A, [2, 2, 0], Some(b"zw")),
            Step::Given(Site::A, [4, 1, 0], Some(b"y")),
            Step::Given(Site::A, [4, 0, 0], Some(b"xy")),
            // where it has what the book lacks,
            Step::Given(Site::A, [9, 9, 9], Some(b"")),
            Step::Given(Site::A, [9, 1, 7], Some(b"y")),
            Step::Given(Site::A, [2, 9, 0], Some(b"zw")),
            Step::Given(Site::A, [1, 9, 9], None),
            // after a cut,
            Step::Cut(Site::A, 2),
            Step::Given(Site::A, [4, 2, 0], Some(b"")),
            Step::Given(Site::A, [3, 2, 0], Some(b"w")),
            Step::Given(Site::A, [4, 1, 0], Some(b"y")),
            Step::Given(Site::A, [3, 1, 0], Some(b"yw")),
            Step::Given(Site::A, [3, 0, 9], None),
            Step::Given(Site::A, [2, 9, 9], None),
            // and after a merge.
            Step::Merge(Site::A, Site::C),
            Step::Given(Site::A, [4, 2, 0], Some(b"")),
            Step::Given(Site::A, [3, 2, 0], None),
            Step::Make(Site::A, b'v', Deed::Put(7)),
            Step::Given(Site::A, [4, 2, 0], Some(b"v")),
            Step::Given(Site::A, [5, 2, 0], Some(b"")),
            Step::Given(Site::A, [5, 1, 0], None),
        ],
    },
    Table {
        name: "a_book_records_what_is_new",
        steps: &[
            Step::Touch(Site::A, 3),
            Step::Make(Site::A, b'z', Deed::Put(7)),
            Step::Make(Site::A, b'z', Deed::Drop),
            Step::Touch(Site::B, 5),
            Step::Take(Site::B, 1, Taken::Early),
            Step::Take(Site::B, 0, Taken::New),
            Step::Take(Site::B, 1, Taken::New),
            Step::Take(Site::B, 0, Taken::Known),
            Step::Shows(Site::B, 5, 2, 2),
            Step::Shows(Site::A, 3, 2, 2),
            Step::Scores(Site::B, b'z', None),
        ],
    },
    Table {
        name: "an_audit_undoes_each_act",
        steps: &[
            Step::Sound(Site::A),
            Step::Make(Site::B, b'y', Deed::Put(2)),
            Step::Make(Site::A, b'x', Deed::Bump(4)),
            Step::Scores(Site::A, b'x', Some(5)),
            Step::Sound(Site::A),
            Step::Make(Site::A, b'x', Deed::Drop),
            Step::Take(Site::A, 0, Taken::New),
            Step::Make(Site::A, b'y', Deed::Put(3)),
            Step::Make(Site::A, b'y', Deed::Bump(-1)),
            Step::Make(Site::A, b'z', Deed::Put(9)),
            Step::Make(Site::A, b'z', Deed::Put(8)),
            Step::Shows(Site::A, 0, 7, 7),
            Step::Sound(Site::A),
            Step::Cut(Site::A, 3),
            Step::Shows(Site::A, 0, 7, 4),
            Step::Sound(Site::A),
            Step::Scores(Site::A, b'y', Some(2)),
        ],
    },
    Table {
        name: "a_merge_leaves_no_record",
        steps: &[
            Step::Make(Site::A, b'z', Deed::Put(3)),
            Step::Make(Site::B, b'x', Deed::Drop),
            Step::Touch(Site::A, 4),
            Step::Merge(Site::A, Site::B),
            Step::Shows(Site::A, 4, 2, 0),
            Step::Given(Site::A, [3, 0, 0], None),
            Step::Scores(Site::A, b'x', None),
            Step::Scores(Site::A, b'z', Some(3)),
            Step::Sound(Site::A),
            Step::Merge(Site::B, Site::A),
            Step::Equal(Site::A, Site::B),
        ],
    },
];

/// A book at each of three sites over one heap, and what they made since.
#[derive(Drop)]
struct Sites {
    a: Book,
    b: Book,
    c: Book,
    made: Vec<Op>,
}

impl Sites {
    /// Books over a heap of two members.
    fn new(alloc: Global) -> Option<Sites> {
        let first = two_members(alloc)?;
        Some(Sites {
            a: Book::new(alloc, first.copy(alloc).ok()?),
            b: Book::new(alloc, first.copy(alloc).ok()?),
            c: Book::new(alloc, first),
            made: Vec::new(alloc),
        })
    }

    fn at(&self, site: Site) -> &Book {
        match site {
            Site::A => &self.a,
            Site::B => &self.b,
            Site::C => &self.c,
        }
    }

    fn at_mut(&mut self, site: Site) -> &mut Book {
        match site {
            Site::A => &mut self.a,
            Site::B => &mut self.b,
            Site::C => &mut self.c,
        }
    }

    /// A site makes an operation on a member of the key q: whether it could.
    fn makes(&mut self, alloc: Global, site: Site, member: u8, deed: Deed) -> bool {
        let Some(number) = SiteNo::new(number(site)) else {
            return false;
        };
        match make(self.at_mut(site), alloc, number, member, deed) {
            Some(op) => self.made.push(op).is_ok(),
            None => false,
        }
    }

    /// A site is handed the operation that was made as the nth: whether it answers so.
    fn takes(&mut self, alloc: Global, site: Site, nth: usize, answer: Taken) -> bool {
        match (self.made.get(nth), site) {
            (Some(op), Site::A) => take(&mut self.a, alloc, op) == Ok(answer),
            (Some(op), Site::B) => take(&mut self.b, alloc, op) == Ok(answer),
            (Some(op), Site::C) => take(&mut self.c, alloc, op) == Ok(answer),
            (None, _) => false,
        }
    }

    /// The first site takes what it lacks of the second's book: whether it could.
    fn tells(&mut self, alloc: Global, to: Site, from: Site) -> bool {
        let vector = *self.at(to).shard().vector();
        match self.at(from).since(alloc, &vector) {
            Ok(Since::TooOld) => self.merges(alloc, to, from),
            Ok(Since::Ops(ops)) => takes_all(self.at_mut(to), alloc, &ops),
            Err(_) => false,
        }
    }

    /// The first site merges the second's state: whether it could.
    fn merges(&mut self, alloc: Global, to: Site, from: Site) -> bool {
        match self.at(from).shard().copy(alloc) {
            Ok(state) => merge(self.at_mut(to), alloc, &state).is_ok(),
            Err(_) => false,
        }
    }

    /// Whether the step could be done, or what it says holds.
    fn follows(&mut self, alloc: Global, step: &Step) -> bool {
        match *step {
            Step::Make(site, member, deed) => self.makes(alloc, site, member, deed),
            Step::Touch(site, stamp) => touches(self.at_mut(site), stamp),
            Step::Take(site, nth, answer) => self.takes(alloc, site, nth, answer),
            Step::Tell(to, from) => self.tells(alloc, to, from),
            Step::Merge(to, from) => self.merges(alloc, to, from),
            Step::Cut(site, records) => cuts(self.at_mut(site), records),
            _ => self.shows(alloc, step),
        }
    }

    /// Whether a site shows what the step says.
    fn shows(&self, alloc: Global, step: &Step) -> bool {
        match *step {
            Step::Given(site, counters, members) => {
                gives(self.at(site), alloc, counters, members)
            }
            Step::Shows(site, stamp, count, records) => {
                shows(self.at(site), stamp, count, records)
            }
            Step::Scores(site, member, score) => {
                self.at(site).shard().score(b"q", &[member]) == score
            }
            Step::Sound(site) => is_sound(self.at(site), alloc),
            Step::Equal(one, other) => self.at(one).shard().same(self.at(other).shard()),
            _ => false,
        }
    }
}

fn number(site: Site) -> u8 {
    match site {
        Site::A => 0,
        Site::B => 1,
        Site::C => 2,
    }
}

/// The sites follow the steps of a table, the first of which has this number.
fn follow(
    rt: &impl Abort,
    alloc: Global,
    sites: &mut Sites,
    name: &str,
    first: usize,
    steps: &[Step],
) {
    for (nth, step) in steps.iter().enumerate() {
        row_holds(
            rt,
            name,
            first.saturating_add(nth),
            sites.follows(alloc, step),
        );
    }
}

#[test]
fn books_follow_the_tables(rt: HostRuntime) {
    for table in TABLES {
        let mut sites = Sites::new(rt.alloc()).expect(&rt, "books");
        follow(&rt, rt.alloc(), &mut sites, table.name, 0, table.steps);
    }
}

/// What three sites do apart.
const APART: &[Step] = &[
    Step::Make(Site::A, b'x', Deed::Bump(5)),
    Step::Make(Site::B, b'x', Deed::Bump(7)),
    Step::Make(Site::B, b'y', Deed::Drop),
    Step::Make(Site::C, b'y', Deed::Put(9)),
    Step::Make(Site::C, b'z', Deed::Put(1)),
];

/// The six orders of what they then tell one another.
const ORDERS: &[Table] = &[
    Table {
        name: "order 0 1 2",
        steps: &[
            Step::Tell(Site::A, Site::B),
            Step::Merge(Site::B, Site::C),
            Step::Tell(Site::C, Site::A),
        ],
    },
    Table {
        name: "order 0 2 1",
        steps: &[
            Step::Tell(Site::A, Site::B),
            Step::Tell(Site::C, Site::A),
            Step::Merge(Site::B, Site::C),
        ],
    },
    Table {
        name: "order 1 0 2",
        steps: &[
            Step::Merge(Site::B, Site::C),
            Step::Tell(Site::A, Site::B),
            Step::Tell(Site::C, Site::A),
        ],
    },
    Table {
        name: "order 1 2 0",
        steps: &[
            Step::Merge(Site::B, Site::C),
            Step::Tell(Site::C, Site::A),
            Step::Tell(Site::A, Site::B),
        ],
    },
    Table {
        name: "order 2 0 1",
        steps: &[
            Step::Tell(Site::C, Site::A),
            Step::Tell(Site::A, Site::B),
            Step::Merge(Site::B, Site::C),
        ],
    },
    Table {
        name: "order 2 1 0",
        steps: &[
            Step::Tell(Site::C, Site::A),
            Step::Merge(Site::B, Site::C),
            Step::Tell(Site::A, Site::B),
        ],
    },
];

/// What makes them equal after all that.
const ROUND: &[Step] = &[
    Step::Tell(Site::A, Site::B),
    Step::Tell(Site::A, Site::C),
    Step::Tell(Site::B, Site::A),
    Step::Tell(Site::C, Site::A),
    Step::Equal(Site::A, Site::B),
    Step::Equal(Site::A, Site::C),
    Step::Scores(Site::A, b'x', Some(13)),
    Step::Scores(Site::B, b'y', Some(9)),
    Step::Scores(Site::C, b'z', Some(1)),
    Step::Sound(Site::A),
    Step::Sound(Site::B),
    Step::Sound(Site::C),
    Step::Equal(Site::B, Site::C),
];

#[test]
fn books_that_exchange_in_any_order_end_equal(rt: HostRuntime) {
    for order in ORDERS {
        let mut sites = Sites::new(rt.alloc()).expect(&rt, "books");
        follow(&rt, rt.alloc(), &mut sites, order.name, 0, APART);
        follow(&rt, rt.alloc(), &mut sites, order.name, 100, order.steps);
        follow(&rt, rt.alloc(), &mut sites, order.name, 200, ROUND);
    }
}
