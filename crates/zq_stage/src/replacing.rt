//! How rows take the place of what their members had.

ghost use Rattle.std.specs.Prelude.{List, OnErr, OnOk, map, take, ℕ, ◌≡◌};
ghost use Rattle.zq_model.specs.Rows.{Row, rows_of};
ghost use Rattle.zq_model.specs.Sets.{IsIn};
ghost use Rattle.zq_shard.specs.Listed.{lent_row};
ghost use Rattle.zq_shard.specs.Shard.{IsHeapImage, IsSameHeap};
ghost use Rattle.zq_stage.specs.Rows.{with_rows};

use std::alloc::{AllocError, Global};
use zq_shard::{RowRef, Shard};

/// Gives each member of a piece of this heap, whose vector is the heap's, what it has in the piece
/// in place of what it had. Where memory is refused the first so many rows were taken.
pub(crate) fn bring(shard: &mut Shard, alloc: Global, piece: &Shard) -> Result<(), AllocError>
    requires one { IsSameHeap shard.old piece.now }
    requires vector { shard.old.image.vector ≡ piece.now.image.vector }
    ensures heap { shard.new.heap ≡ shard.old.heap }
    ensures heaps { shard.new.heaps ≡ shard.old.heaps }
    ensures rule { shard.new.rule ≡ shard.old.rule }
    ensures image { OnOk result
        (shard.new.image ≡ with_rows (rows_of piece.now.image) shard.old.image) }
    ensures first { OnErr result ((n : ℕ)
        × (shard.new.image ≡ with_rows (take n (rows_of piece.now.image)) shard.old.image)) }
{
    let rows = match piece.rows(alloc) {
        Ok(rows) => rows,
        Err(refused) => return Err(refused),
    };
    replace(shard, alloc, piece, &rows)
}

/// Gives the member of each of these rows of a piece the row's entry in place of what it had. Where
/// memory is refused the first so many rows were taken.
pub(crate) fn replace(
    shard: &mut Shard,
    alloc: Global,
    piece: &Shard,
    rows: &[RowRef<'_>],
) -> Result<(), AllocError>
    requires kept { IsHeapImage piece.now }
    requires one { IsSameHeap shard.old piece.now }
    requires vector { shard.old.image.vector ≡ piece.now.image.vector }
    requires among { (row : Row) → IsIn row (map lent_row rows.now) →
        IsIn row (rows_of piece.now.image) }
    ensures heap { shard.new.heap ≡ shard.old.heap }
    ensures heaps { shard.new.heaps ≡ shard.old.heaps }
    ensures rule { shard.new.rule ≡ shard.old.rule }
    ensures image { OnOk result
        (shard.new.image ≡ with_rows (map lent_row rows.now) shard.old.image) }
    ensures first { OnErr result ((n : ℕ)
        × (shard.new.image ≡ with_rows (take n (map lent_row rows.now)) shard.old.image)) }
{
    for row in rows {
        // The piece answers for its entry; a row's own may be of any length for all that is known.
        if let Some(entry) = piece.entry(row.key, row.member) {
            shard.push_row(alloc, row.key, row.member, entry.copy(alloc)?)?;
        }
    }
    Ok(())
}
