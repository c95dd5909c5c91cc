//! A walk over the members of a heap, piece by piece, while the heap changes between the pieces.

ghost use Rattle.std.specs.Prelude.{IfNone, IfOk, IfSome, List, Some, [], length, map, reverse, slice_get, ◌++◌, ◌<◌, ◌^◌, ◌∷◌, ◌≡◌, ◌≤◌, ℕ};
ghost use Rattle.std.specs.FinMap.{get};
ghost use Rattle.zq_shard.specs.Listed.{lent_place};
ghost use Rattle.zq_shard.specs.Standing.{IsEnd, firsts_of, left};
ghost use Rattle.zq_shard.specs.Walk.{AreStanding, IsPiece};

use crate::queues::Queues;
use crate::row::RowRef;
use crate::shard::Shard;
use crate::spot::Spot;
use std::alloc::{AllocError, Global};

/// What a walk hands out at once.
#[derive(Drop)]
pub struct Piece<'a> {
    /// The members with their entries.
    pub rows: Vec<RowRef<'a>>,
    /// Where the walk goes on.
    pub next: Spot,
}

impl Queues {
    /// The last of the first so many members of the key of a number, and the spot at it.
    fn last_of(&self, key: usize, members: usize) -> Option<(RowRef<'_>, Spot)>
        ensures nothing { IfNone result (firsts_of members (slice_get self.now.order key) ≡ []) }
        ensures full { IfNone result (key < length self.now.order → members ≡ 0) }
        ensures last { IfSome result
            (λ step. firsts_of members (slice_get self.now.order key)
            ≡ firsts_of step.1.member (slice_get self.now.order key) ++ lent_place step.0 ∷ []) }
        ensures key { IfSome result (λ step. step.1.key ≡ key) }
        ensures small { IfSome result (λ _. (e : List ℕ × List (List ℕ)) →
            slice_get self.now.order key ≡ Some e → length e.1 < 2 ^ 63) }
        ensures entry { IfSome result
            (λ step. get self.now.members (lent_place step.0) ≡ Some step.0.entry.now) }
    {
        let (name, boxed) = self.queues.get_index(key)?;
        let queue = boxed.get();
        let number = members.min(queue.len()).checked_sub(1)?;
        let (member, entry) = queue.nth(number)?;
        let row = RowRef {
            key: name.as_slice(),
            member,
            entry,
        };
        let spot = Spot {
            key,
            member: number,
        };
        Some((row, spot))
    }

    /// The last of the members that are left at a spot, and the spot at it.
    fn last_left(&self, spot: Spot) -> Option<(RowRef<'_>, Spot)>
        ensures nothing { IfNone result (left self.now.order spot ≡ []) }
        ensures last { IfSome result (λ step. left self.now.order spot
            ≡ left self.now.order step.1 ++ lent_place step.0 ∷ []) }
        ensures entry { IfSome result
            (λ step. get self.now.members (lent_place step.0) ≡ Some step.0.entry.now) }
    {
        if let Some(last) = self.last_of(spot.key, spot.member) {
            return Some(last);
        }
        let key = spot.key.min(self.queues.len()).checked_sub(1)?;
        self.last_of(key, usize::MAX)
    }

    /// The members that are left at a spot with their entries, the last one first, but no more than
    /// so many, and the spot at which the others are left.
    pub fn walk(&self, alloc: Global, spot: Spot, most: usize) -> Result<Piece<'_>, AllocError>
        ensures parts { IfOk result (λ piece. left self.now.order spot
            ≡ left self.now.order piece.next ++ reverse (map lent_place piece.rows.items)) }
        ensures entries { IfOk result
            (λ piece. map (λ row. get self.now.members (lent_place row)) piece.rows.items
            ≡ map (λ row. Some row.entry.now) piece.rows.items) }
        ensures most { IfOk result (λ piece. length piece.rows.items ≤ most) }
        ensures end { IfOk result (λ piece. length piece.rows.items < most → IsEnd piece.next) }
        ensures standing { AreStanding self.now }
        ensures numbers { length self.now.order < 2 ^ 63 }
    {
        // How many keys there are, and that each of their members stands, is known from here on.
        let _keys = self.queues.len();
        let mut rows = Vec::new(alloc);
        let mut next = spot;
        while rows.len() < most {
            let Some((row, at)) = self.last_left(next) else {
                return Ok(Piece {
                    rows,
                    next: Spot::end(),
                });
            };
            rows.push(row)?;
            next = at;
        }
        Ok(Piece { rows, next })
    }
}

impl Shard {
    /// The members that are left at a spot with their entries, the last one first, but no more than
    /// so many, and the spot at which the others are left. A walk begins at [`Spot::start`] and is
    /// over at [`Spot::end`], which comes where there are fewer members than `most`.
    ///
    /// Between two pieces the heap may change. A member that was there before the first piece, and
    /// has an addition of that time when the last one is taken, was in a piece: a new member comes
    /// above all others, one that changes stays where it is, and where one goes the last one comes
    /// to its place. That holds of [`Shard::make`], [`Shard::put_next`], [`Shard::put_in`],
    /// [`Shard::take`] and [`Shard::index`], and no more after [`Shard::merge`], which makes other
    /// places, or where [`Shard::put_back`] gives a member back what it had.
    pub fn walk(&self, alloc: Global, spot: Spot, most: usize) -> Result<Piece<'_>, AllocError>
        ensures piece { IfOk result
            (λ piece. IsPiece self.now.image spot piece.rows.items piece.next) }
        ensures most { IfOk result (λ piece. length piece.rows.items ≤ most) }
        ensures end { IfOk result (λ piece. length piece.rows.items < most → IsEnd piece.next) }
    {
        self.queues.walk(alloc, spot, most)
    }
}
