//! A heap that comes in pieces, with drawn operations between them: at each moment the stage is
//! compared with the heap that comes.

ghost use Rattle.std.specs.Prelude.{length, ◌≡◌};

use crate::deed::Deed;
use crate::rows::row_holds;
use rand_core::{Rng, SeedableRng};
use rand_pcg::Pcg64;
use std::alloc::{AllocError, Global};
use zq_dots::{Op, Rule, SiteNo, Vector};
use zq_entry::Entry;
use zq_journal::{Book, TakeOverFault};
use zq_posheap::Seeded;
use zq_shard::{Shard, Spot, Taken};
use zq_stage::{PieceFault, Portion, PortionLimits, Stage, TakeFault};

/// How many members there are, each in turn of one of two keys.
const MEMBERS: usize = 14;

/// The life that the pieces are of.
const LIFE: u64 = 5;

/// The heap that comes, which its own site and another change, the other's, and the stage: the
/// vector that it was begun at, the members that were in pieces, and the next piece.
#[derive(Drop)]
struct Run {
    sender: Shard,
    other: Shard,
    stage: Stage,
    first: Vector,
    sent: [bool; MEMBERS],
    next: u32,
}

fn key_of(member: usize) -> &'static [u8]
    ensures { length result.now ≡ 1 }
{
    if member % 2 == 0 { b"p" } else { b"q" }
}

fn name_of(member: usize) -> [u8; 1] {
    [b'a' + (member % MEMBERS) as u8]
}

/// What is drawn for a member.
fn deed_of(drawn: u8) -> Deed {
    let number = i64::from(drawn / 4);
    match drawn % 4 {
        0 | 1 => Deed::Put(number),
        2 => Deed::Bump(number),
        _ => Deed::Drop,
    }
}

/// A heap makes an operation of a site on a member.
fn make(shard: &mut Shard, alloc: Global, site: u8, member: usize, deed: Deed) -> Option<Op> {
    let (site, act) = (SiteNo::new(site)?, deed.act()?);
    let name = name_of(member);
    shard.make(alloc, site, key_of(member), &name, act).ok()
}

/// The piece of a heap that has this member alone, where it stands.
fn piece_of(heap: &Shard, alloc: Global, member: usize) -> Result<Shard, AllocError> {
    let (key, name) = (key_of(member), name_of(member));
    let mut piece = Shard::of_vector(
        alloc,
        heap.heap(),
        heap.heaps(),
        heap.rule(),
        heap.vector(),
        Seeded::new(3),
    );
    if let Some(entry) = heap.entry(key, &name) {
        piece.push_row(alloc, key, &name, entry.copy(alloc)?)?;
    }
    Ok(piece)
}

/// Whether these are those additions of an entry whose dots the vector has not.
fn is_newer(held: &Entry, whole: &Entry, vector: &Vector) -> bool {
    let mut place = 0;
    for number in 0..whole.len() {
        let addition = whole.at(number);
        if !vector.has(addition.dot) {
            if place >= held.len() {
                return false;
            }
            let kept = held.at(place);
            if kept.dot != addition.dot || kept.score != addition.score {
                return false;
            }
            place += 1;
        }
    }
    place == held.len() && (place < whole.len() || held.same(whole))
}

impl Run {
    /// Begins the stage where the heap stands.
    fn begin(alloc: Global, sender: Shard, other: Shard) -> Run {
        let first = *sender.vector();
        let piece = Shard::of_vector(
            alloc,
            sender.heap(),
            sender.heaps(),
            sender.rule(),
            &first,
            Seeded::new(4),
        );
        Run {
            sender,
            other,
            stage: Stage::new(LIFE, piece, false),
            first,
            sent: [false; MEMBERS],
            next: 1,
        }
    }

    /// The heap's site makes an operation, of which the stage hears: whether it took it.
    fn makes(&mut self, alloc: Global, member: usize, deed: Deed) -> bool {
        match make(&mut self.sender, alloc, 0, member, deed) {
            Some(op) => {
                self.stage.take(alloc, &op) == Ok(Taken::New)
                    && self.stage.take(alloc, &op) == Ok(Taken::Known)
            }
            None => false,
        }
    }

    /// The other site makes one, of which the heap hears, and then the stage.
    fn hears(&mut self, alloc: Global, member: usize, deed: Deed) -> bool {
        match make(&mut self.other, alloc, 9, member, deed) {
            Some(op) => {
                self.sender.take(alloc, &op) == Ok(Taken::New)
                    && self.stage.take(alloc, &op) == Ok(Taken::New)
            }
            None => false,
        }
    }

    /// A piece with this member goes: whether the stage takes it.
    fn sends(&mut self, alloc: Global, member: usize, last: bool) -> bool {
        let Ok(piece) = piece_of(&self.sender, alloc, member) else {
            return false;
        };
        self.sent[member % MEMBERS] = true;
        let number = self.next;
        self.next = number.saturating_add(1);
        self.stage.piece(alloc, LIFE + 1, number, &piece, last) == Err(PieceFault::WrongLife)
            && self.stage.piece(alloc, LIFE, self.next, &piece, last)
                == Err(PieceFault::WrongNumber)
            && self.stage.piece(alloc, LIFE, number, &piece, last) == Ok(())
    }

    /// Does what is drawn: whether it could.
    fn follows(&mut self, alloc: Global, drawn: [u8; 8]) -> bool {
        let member = usize::from(drawn[1]) % MEMBERS;
        match drawn[0] % 8 {
            0 => self.sends(alloc, member, false),
            1 | 2 => self.hears(alloc, member, deed_of(drawn[2])),
            3 => self.other.merge(alloc, &self.sender).is_ok(),
            _ => self.makes(alloc, member, deed_of(drawn[2])),
        }
    }

    /// Whether the stage has of a member what it is to have.
    fn has(&self, member: usize) -> bool {
        let name = name_of(member);
        let held = self.stage.held().entry(key_of(member), &name);
        let whole = self.sender.entry(key_of(member), &name);
        match (held, whole) {
            (Some(held), Some(whole)) if self.sent[member % MEMBERS] => held.same(whole),
            (Some(held), Some(whole)) => is_newer(held, whole, &self.first),
            (None, Some(whole)) => {
                !self.sent[member % MEMBERS] && is_newer(&Entry::new(), whole, &self.first)
            }
            (held, None) => held.is_none(),
        }
    }

    /// Whether it has of all members what it is to have, at the heap's vector.
    fn has_all(&self) -> bool {
        for member in 0..MEMBERS {
            if !self.has(member) {
                return false;
            }
        }
        self.stage.vector() == self.sender.vector()
    }

    /// Whether the stage is the heap once each member was in a piece.
    fn ends(mut self, alloc: Global) -> bool {
        for member in 0..MEMBERS {
            if !self.sends(alloc, member, member + 1 == MEMBERS) {
                return false;
            }
        }
        match self.stage.finish() {
            Some(shard) => shard.same(&self.sender),
            None => false,
        }
    }
}

/// A heap that two sites have changed as drawn, and that of the other.
fn grown(alloc: Global, draws: &mut Pcg64) -> Option<(Shard, Shard)> {
    let mut sender = Shard::new_ruled(alloc, 0, 1, Rule::High, Seeded::new(1));
    let mut other = Shard::new_ruled(alloc, 0, 1, Rule::High, Seeded::new(2));
    for _ in 0..40 {
        let drawn = draws.next_u64().to_le_bytes();
        let (member, deed) = (usize::from(drawn[1]), deed_of(drawn[2]));
        if drawn[0] % 2 == 0 {
            make(&mut sender, alloc, 0, member, deed)?;
        } else {
            make(&mut other, alloc, 9, member, deed)?;
        }
    }
    sender.merge(alloc, &other).ok()?;
    Some((sender, other))
}

#[test]
fn a_stage_has_what_came_and_what_is_newer(rt: HostRuntime) {
    let alloc = rt.alloc();
    for seed in 1..40 {
        let mut draws = Pcg64::seed_from_u64(seed);
        let (sender, other) = grown(alloc, &mut draws).expect(&rt, "memory");
        let mut run = Run::begin(alloc, sender, other);
        assert!(rt; run.has_all());
        for row in 0..60usize {
            let drawn = draws.next_u64().to_le_bytes();
            let follows = run.follows(alloc, drawn);
            row_holds(&rt, "drawn pieces", row, follows && run.has_all());
        }
        assert!(rt; run.ends(alloc));
    }
}

#[test]
fn what_does_not_fit_is_refused(rt: HostRuntime) {
    let alloc = rt.alloc();
    let mut sender = Shard::new(alloc, 0, 1);
    let old = sender.copy(alloc).expect(&rt, "memory");
    let mut stage = Stage::new(LIFE, sender.copy(alloc).expect(&rt, "memory"), false);
    drop(make(&mut sender, alloc, 0, 0, Deed::Put(1)));
    let second = make(&mut sender, alloc, 0, 0, Deed::Put(2)).expect(&rt, "memory");
    assert!(rt; stage.take(alloc, &second) == Err(TakeFault::Gap));
    assert!(rt; stage.piece(alloc, LIFE, 1, &sender, true) == Err(PieceFault::WrongVector));
    let elsewhere = Shard::new(alloc, 1, 2);
    assert!(rt; stage.piece(alloc, LIFE, 1, &elsewhere, true) == Err(PieceFault::WrongHeap));
    let low = Shard::new_ruled(alloc, 0, 1, Rule::Low, Seeded::new(0));
    assert!(rt; stage.piece(alloc, LIFE, 1, &low, true) == Err(PieceFault::WrongRule));
    assert!(rt; !stage.is_whole() && stage.life() == LIFE && stage.next() == 1);
    assert!(rt; stage.piece(alloc, LIFE, 1, &old, true) == Ok(()));
    assert!(rt; stage.is_whole() && stage.next() == 2);
}

/// How many members a heap has in its two keys.
fn members_in(heap: &Shard) -> usize {
    heap.count(key_of(0)).saturating_add(heap.count(key_of(1)))
}

/// A stage to which the heap comes in portions of these limits, and how many members each has.
fn portioned(alloc: Global, heap: &Shard, limits: PortionLimits) -> Option<(Shard, Vec<usize>)> {
    let mut sizes = Vec::new(alloc);
    let first = Portion::of(heap, alloc, Spot::start(), limits, Seeded::new(5)).ok()?;
    sizes.push(members_in(&first.part)).ok()?;
    let mut next = first.next;
    let mut stage = Stage::new(LIFE, first.part, next.is_end());
    for _ in 0..MEMBERS {
        if next.is_end() {
            return Some((stage.finish()?, sizes));
        }
        let more = Portion::of(heap, alloc, next, limits, Seeded::new(6)).ok()?;
        sizes.push(members_in(&more.part)).ok()?;
        next = more.next;
        let number = stage.next();
        stage
            .piece(alloc, LIFE, number, &more.part, next.is_end())
            .ok()?;
    }
    Some((stage.finish()?, sizes))
}

/// A heap of five members, of one addition each.
fn five(alloc: Global) -> Option<Shard> {
    let mut heap = Shard::new(alloc, 0, 1);
    for member in 0..5 {
        make(&mut heap, alloc, 0, member, Deed::Put(1))?;
    }
    Some(heap)
}

#[test]
fn portions_give_the_whole_heap(rt: HostRuntime) {
    let alloc = rt.alloc();
    let heap = five(alloc).expect(&rt, "memory");
    // A member counts for 1 + 1 + 32 + 1106 bytes.
    let rows: [(usize, usize, &[usize]); 6] = [
        (100, 1_000_000, &[5]),
        (2, 1_000_000, &[2, 2, 1]),
        (5, 1_000_000, &[5]),
        (100, 0, &[1, 1, 1, 1, 1]),
        (100, 2_279, &[1, 1, 1, 1, 1]),
        (100, 2_280, &[2, 2, 1]),
    ];
    for (row, (members, bytes, sizes)) in rows.iter().enumerate() {
        let limits = PortionLimits {
            rows: *members,
            bytes: *bytes,
        };
        let (whole, found) = portioned(alloc, &heap, limits).expect(&rt, "a heap");
        row_holds(
            &rt,
            "portions",
            row,
            whole.same(&heap) && found.as_slice() == *sizes,
        );
    }
}

/// Site 0 puts a member of a book, at the book's stamp: whether it could.
fn puts(book: &mut Book, alloc: Global, score: i64) -> bool {
    let stamp = book.stamp();
    match (SiteNo::new(0), Deed::Put(score).act()) {
        (Some(site), Some(act)) => book.make(alloc, site, stamp, b"p", b"a", act).is_ok(),
        _ => false,
    }
}

/// Exchanges the heap of a book, at the book's stamp.
fn exchange(book: &mut Book, other: &mut Shard) -> Result<(), TakeOverFault> {
    let stamp = book.stamp();
    book.take_over(stamp, other)
}

#[test]
fn a_book_exchanges_its_heap(rt: HostRuntime) {
    let alloc = rt.alloc();
    let mut book = Book::new(alloc, Shard::new(alloc, 0, 1));
    assert!(rt; puts(&mut book, alloc, 3));
    let mut other = Shard::new(alloc, 0, 1);
    assert!(rt; exchange(&mut book, &mut other) == Err(TakeOverFault::Lacks));
    assert!(rt; other.same(&Shard::new(alloc, 0, 1)) && book.tail_len() == 1);
    let old = book.shard().copy(alloc).expect(&rt, "memory");
    let mut other = old.copy(alloc).expect(&rt, "memory");
    drop(make(&mut other, alloc, 9, 2, Deed::Put(4)));
    let whole = other.copy(alloc).expect(&rt, "memory");
    assert!(rt; exchange(&mut book, &mut other) == Ok(()));
    assert!(rt; book.shard().same(&whole) && other.same(&old));
    assert!(rt; book.tail_len() == 0 && book.count() == 2);
    let mut elsewhere = Shard::new(alloc, 1, 2);
    assert!(rt; exchange(&mut book, &mut elsewhere) == Err(TakeOverFault::WrongHeap));
    let mut low = Shard::new_ruled(alloc, 0, 1, Rule::Low, Seeded::new(0));
    assert!(rt; exchange(&mut book, &mut low) == Err(TakeOverFault::WrongRule));
}
