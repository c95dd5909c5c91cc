//! Portions of a heap, one after the other: what a stage is given as pieces.

ghost use Rattle.std.specs.List.{sum};
ghost use Rattle.std.specs.Prelude.{IfOk, length, map, take, ◌<◌, ◌≡◌, ◌≤◌, ◌⊎◌};
ghost use Rattle.zq_shard.specs.Standing.{IsEnd};
ghost use Rattle.zq_shard.specs.Walk.{IsPiece};
ghost use Rattle.zq_stage.specs.Portion.{IsPortion, lent_weight};

use crate::replacing::replace;
use std::alloc::{AllocError, Global};
use zq_posheap::Seeded;
use zq_shard::{Piece, RowRef, Shard, Spot};

/// What a member counts for beside its key and its own bytes.
const ROW_BYTES: u128 = 32;

/// What each addition of a member counts for: its site, its counter, its score and a sum for each
/// site.
const ADDITION_BYTES: u128 = 1_106;

/// How much a portion may have.
#[derive(Clone, Copy, Debug, PartialEq, Eq)]
pub struct PortionLimits {
    /// How many members.
    pub rows: usize,
    /// How many bytes they may count for, where there is more than one. A member counts for its key
    /// and its own bytes, 32 more, and 1106 for each of its additions: no frame takes more for it.
    pub bytes: usize,
}

/// Some members of a heap, as a heap of their own.
#[derive(Drop)]
pub struct Portion {
    /// What the heap has of these members, with its vector.
    pub part: Shard,
    /// Where the walk goes on.
    pub next: Spot,
}

impl Portion {
    /// Copies of the next members of a walk over a heap, as many as the limits allow, but one at
    /// least where one is left and the limits allow any. [`Shard::walk`] says what a walk promises
    /// while the heap changes. Keys and members are placed by the hasher.
    pub fn of(
        shard: &Shard,
        alloc: Global,
        spot: Spot,
        limits: PortionLimits,
        hasher: Seeded,
    ) -> Result<Portion, AllocError>
        ensures portion { IfOk result
            (λ portion. IsPortion shard.now spot limits portion.part portion.next) }
    {
        let piece = walk_within(shard, alloc, spot, limits)?;
        let (heap, heaps, rule) = (shard.heap(), shard.heaps(), shard.rule());
        let mut part = Shard::of_vector(alloc, heap, heaps, rule, shard.vector(), hasher);
        replace(&mut part, alloc, shard, &piece.rows)?;
        Ok(Portion {
            part,
            next: piece.next,
        })
    }
}

/// The next members of a walk, as many as the limits allow.
fn walk_within<'a>(
    shard: &'a Shard,
    alloc: Global,
    spot: Spot,
    limits: PortionLimits,
) -> Result<Piece<'a>, AllocError>
    ensures piece { IfOk result
        (λ piece. IsPiece shard.now.image spot piece.rows.items piece.next) }
    ensures few { IfOk result (λ piece. length piece.rows.items ≤ limits.rows) }
    ensures light { IfOk result (λ piece. (length piece.rows.items ≤ 1)
        ⊎ (sum (map lent_weight piece.rows.items) ≤ limits.bytes)) }
    ensures some { IfOk result
        (λ piece. 0 < limits.rows → length piece.rows.items ≡ 0 → IsEnd piece.next) }
{
    let mut piece = shard.walk(alloc, spot, limits.rows)?;
    let mut fits = fitting(&piece.rows, limits.bytes);
    while fits < piece.rows.len() {
        piece = shard.walk(alloc, spot, fits)?;
        fits = fitting(&piece.rows, limits.bytes);
    }
    Ok(piece)
}

/// How many of the first rows count for no more than so many bytes; the first one alone where it
/// counts for more.
fn fitting(rows: &[RowRef<'_>], bytes: usize) -> usize
    ensures within { result ≤ length rows.now }
    ensures light { (result ≤ 1) ⊎ (sum (map lent_weight (take result rows.now)) ≤ bytes) }
    ensures some { result ≡ 0 → length rows.now ≡ 0 }
{
    let mut left = bytes as u128;
    for place in 0..rows.len() {
        let weight = weight_of(&rows[place]);
        if weight > left {
            return place.max(1);
        }
        left -= weight;
    }
    rows.len()
}

/// What a row counts for.
#[tactic(auto, unfolding(crate::specs::Portion::ROW_BYTES, crate::specs::Portion::ADDITION_BYTES))]
fn weight_of(row: &RowRef<'_>) -> u128
    ensures { result ≡ lent_weight row.now }
{
    let names = row.key.len() as u128 + row.member.len() as u128;
    names + ROW_BYTES + ADDITION_BYTES * row.entry.len() as u128
}
