//! Walks over a heap that drawn operations change between the pieces, against what they promise.

use super::acts;
use crate::deed::Deed;
use crate::rows::row_holds;
use rand_core::{Rng, SeedableRng};
use rand_pcg::Pcg64;
use std::alloc::{AllocError, Global};
use zq_dots::Vector;
use zq_entry::Entry;
use zq_shard::{RowRef, Shard, Spot};

/// Keys of one byte, of which one comes to have many members and the others have few.
const KEYS: [u8; 4] = [b'p', b'p', b'q', b'r'];

/// A heap, its vector where the walk over it began, where the walk is, and the keys and members
/// that it handed out.
#[derive(Drop)]
struct Run {
    shard: Shard,
    old: Vector,
    spot: Spot,
    sent: Vec<(u8, u8)>,
    ended: usize,
}

impl Run {
    fn new(alloc: Global) -> Run {
        Run {
            shard: Shard::new(alloc, 0, 1),
            old: Vector::new(),
            spot: Spot::start(),
            sent: Vec::new(alloc),
            ended: 0,
        }
    }

    /// Does what is drawn: whether it could, and each walk that ended kept its promise.
    fn follows(&mut self, alloc: Global, drawn: [u8; 8]) -> bool {
        let key = KEYS[usize::from(drawn[2] % 4)];
        let most_members = if key == b'p' { 96 } else { 6 };
        let member = drawn[3] % most_members;
        match drawn[0] % 64 {
            0 => empties(&mut self.shard, alloc, key),
            1..24 => self.walks(alloc, usize::from(drawn[1] % 8)),
            24..34 => acts(&mut self.shard, alloc, (key, member), Deed::Drop),
            34..40 => acts(&mut self.shard, alloc, (key, member), Deed::Bump(1)),
            _ => acts(&mut self.shard, alloc, (key, member), Deed::Put(5)),
        }
    }

    /// Hands out no more than so many members: whether each has the entry that the heap has, and,
    /// where the walk ended, it kept its promise. Then another begins.
    fn walks(&mut self, alloc: Global, most: usize) -> bool {
        let holds = match hand_out(&self.shard, alloc, self.spot, most, &mut self.sent) {
            Ok(Some(next)) => {
                self.spot = next;
                true
            }
            _ => false,
        };
        if !self.spot.is_end() {
            return holds;
        }
        let kept = all_sent(&self.shard, alloc, &self.old, &self.sent);
        self.old = *self.shard.vector();
        self.spot = Spot::start();
        self.sent.clear();
        self.ended = self.ended.saturating_add(1);
        holds && kept
    }
}

/// Hands out a piece, and answers where the walk goes on, if its rows are no more than so many and
/// have the entries that the heap has.
fn hand_out(
    shard: &Shard,
    alloc: Global,
    spot: Spot,
    most: usize,
    sent: &mut Vec<(u8, u8)>,
) -> Result<Option<Spot>, AllocError> {
    let piece = shard.walk(alloc, spot, most)?;
    for row in &piece.rows {
        if !has_its_entry(shard, *row) {
            return Ok(None);
        }
        sent.push(letters(*row))?;
    }
    Ok((piece.rows.len() <= most).then_some(piece.next))
}

/// Whether a row has the entry that the heap has of its member.
fn has_its_entry(shard: &Shard, row: RowRef<'_>) -> bool {
    match shard.entry(row.key, row.member) {
        Some(entry) => entry.same(row.entry),
        None => false,
    }
}

/// The first bytes of a row's key and of its member.
fn letters(row: RowRef<'_>) -> (u8, u8) {
    let key = row.key.first().copied().unwrap_or(0);
    let member = row.member.first().copied().unwrap_or(0);
    (key, member)
}

/// Whether a vector has the dot of one of the additions.
fn has_old(entry: &Entry, old: &Vector) -> bool {
    for place in 0..entry.len() {
        if old.has(entry.at(place).dot) {
            return true;
        }
    }
    false
}

/// Whether each member with an addition that the vector has was handed out.
fn all_sent(shard: &Shard, alloc: Global, old: &Vector, sent: &[(u8, u8)]) -> bool {
    match shard.rows(alloc) {
        Ok(rows) => rows_sent(&rows, old, sent),
        Err(AllocError) => false,
    }
}

fn rows_sent(rows: &[RowRef<'_>], old: &Vector, sent: &[(u8, u8)]) -> bool {
    for row in rows {
        if has_old(row.entry, old) && !sent.contains(&letters(*row)) {
            return false;
        }
    }
    true
}

/// The members of a key.
fn members_of(shard: &Shard, alloc: Global, key: u8) -> Result<Vec<u8>, AllocError> {
    let mut members = Vec::new(alloc);
    for row in &shard.rows(alloc)? {
        let (its_key, member) = letters(*row);
        if its_key == key {
            members.push(member)?;
        }
    }
    Ok(members)
}

/// Drops all members of a key: whether they could be dropped.
fn empties(shard: &mut Shard, alloc: Global, key: u8) -> bool {
    let Ok(members) = members_of(shard, alloc, key) else {
        return false;
    };
    let mut could = true;
    for member in &members {
        could = could && acts(shard, alloc, (key, *member), Deed::Drop);
    }
    could
}

#[test]
fn walks_keep_their_promise(rt: HostRuntime) {
    let alloc = rt.alloc();
    for seed in [1, 2, 3] {
        let mut draws = Pcg64::seed_from_u64(seed);
        let mut run = Run::new(alloc);
        for row in 0..4000usize {
            let follows = run.follows(alloc, draws.next_u64().to_le_bytes());
            row_holds(&rt, "drawn walks", row, follows);
        }
        assert!(rt; run.ended > 20);
    }
}
