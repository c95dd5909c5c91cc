//! What a book gives peers of drawn vectors, against a plain list of its records.

use super::calls::{cuts, make, take};
use crate::deed::Deed;
use crate::rows::row_holds;
use rand_core::{Rng, SeedableRng};
use rand_pcg::Pcg64;
use std::alloc::Global;
use zq_dots::{Dot, Op, SiteNo, Vector};
use zq_journal::{Book, Since};
use zq_shard::{Shard, Taken};

/// The sites whose operations the book records: it makes those of the first two, and takes those of
/// the last.
const SITES: [u8; 3] = [0, 7, 63];

/// A record by the test's own count: its dot, and what its site had seen.
#[derive(Clone, Copy)]
struct Noted {
    dot: Dot,
    seen: Vector,
}

/// A book, one of a site that it takes from, and the list: the vectors before the book's records
/// and after them, and the records.
#[derive(Drop)]
struct Run {
    book: Book,
    from: Book,
    base: Vector,
    last: Vector,
    records: Vec<Noted>,
}

/// The vector with a site's counter at this number, 9999 at most.
#[tactic(auto, unfolding(zq_model::specs::Sets::LAST))]
fn with(vector: &Vector, site: SiteNo, n: u64) -> Vector {
    let mut with = *vector;
    with.set(site, n.min(9999));
    with
}

impl Run {
    fn new(alloc: Global) -> Run {
        Run {
            book: Book::new(alloc, Shard::new(alloc, 0, 1)),
            from: Book::new(alloc, Shard::new(alloc, 0, 1)),
            base: Vector::new(),
            last: Vector::new(),
            records: Vec::new(alloc),
        }
    }

    /// Notes the next operation of a site that had seen these.
    fn notes(&mut self, site: SiteNo, seen: Vector) -> bool {
        let n = self.last.get(site).saturating_add(1);
        self.last = with(&self.last, site, n);
        let dot = Dot { site, n };
        self.records.push(Noted { dot, seen }).is_ok()
    }

    /// The book makes an operation of a site: whether it could.
    fn makes(&mut self, alloc: Global, site: SiteNo) -> bool {
        let seen = self.last;
        make(&mut self.book, alloc, site, b'a', Deed::Put(1)).is_some() && self.notes(site, seen)
    }

    /// The other book makes one of a site, which has seen its own alone, and the book takes it:
    /// whether it could.
    fn takes(&mut self, alloc: Global, site: SiteNo) -> bool {
        let seen = with(&Vector::new(), site, self.last.get(site));
        match make(&mut self.from, alloc, site, b'b', Deed::Put(2)) {
            Some(op) => {
                take(&mut self.book, alloc, &op) == Ok(Taken::New) && self.notes(site, seen)
            }
            None => false,
        }
    }

    /// The oldest records are cut, so many or all: whether they could.
    fn cuts(&mut self, records: usize) -> bool {
        let records = records.min(self.records.len());
        for noted in &self.records[..records] {
            self.base = with(&self.base, noted.dot.site, noted.dot.n);
        }
        self.records.drain(..records);
        cuts(&mut self.book, records)
    }

    /// Does what is drawn: whether it could.
    fn follows(&mut self, alloc: Global, drawn: [u8; 8]) -> bool {
        let Some(site) = SiteNo::new(SITES[usize::from(drawn[1]) % 3]) else {
            return false;
        };
        match drawn[0] % 32 {
            0 => self.cuts(usize::from(drawn[2] % 32)),
            _ if site.value() == 63 => self.takes(alloc, site),
            _ => self.makes(alloc, site),
        }
    }

    /// Whether a peer of this vector is given what the list says, or that there is no telling.
    fn gives(&self, alloc: Global, vector: &Vector) -> bool {
        match self.book.since(alloc, vector) {
            Ok(Since::TooOld) => !has_all(vector, &self.base),
            Ok(Since::Ops(ops)) => {
                has_all(vector, &self.base) && are_lacking(&ops, &self.records, vector)
            }
            Err(_) => false,
        }
    }

    /// The vector of a peer that is ahead of a site by one, or behind by up to ten, as drawn.
    fn peer(&self, drawn: [u8; 8]) -> Vector {
        let mut vector = Vector::new();
        for (number, behind) in SITES.iter().zip(&drawn[3..6]) {
            if let Some(site) = SiteNo::new(*number) {
                let ahead = self.last.get(site).saturating_add(1);
                let behind = u64::from(behind % 16).saturating_sub(4);
                vector = with(&vector, site, ahead.saturating_sub(behind));
            }
        }
        vector
    }
}

/// Whether a vector has of each site what another has.
fn has_all(vector: &Vector, other: &Vector) -> bool {
    for number in SITES {
        if let Some(site) = SiteNo::new(number)
            && vector.get(site) < other.get(site)
        {
            return false;
        }
    }
    true
}

/// Whether these are the operations of the records that the vector lacks, the oldest first.
fn are_lacking(ops: &[Op], records: &[Noted], vector: &Vector) -> bool {
    let mut given = 0usize;
    for noted in records {
        if vector.get(noted.dot.site) < noted.dot.n {
            match ops.get(given) {
                Some(op) if op.dot() == noted.dot && *op.seen() == noted.seen => {
                    given = given.saturating_add(1);
                }
                _ => return false,
            }
        }
    }
    given == ops.len()
}

#[test]
fn peers_are_given_what_a_list_says(rt: HostRuntime) {
    let alloc = rt.alloc();
    for seed in [1, 2, 3] {
        let mut draws = Pcg64::seed_from_u64(seed);
        let mut run = Run::new(alloc);
        for row in 0..400usize {
            let drawn = draws.next_u64().to_le_bytes();
            let follows = run.follows(alloc, drawn);
            let vector = run.peer(drawn);
            let gives = run.gives(alloc, &vector);
            row_holds(&rt, "drawn peers", row, follows && gives);
        }
    }
}
