//! The members of a key over all heaps.

ghost use Rattle.std.specs.List.Sorted.{IsPermutation, IsSorted};
ghost use Rattle.std.specs.Prelude.{IfOk, OnOk, flat_map, map, ◌++◌, ◌≡◌};
ghost use Rattle.zq_inspect.specs.Members.{listed_in};
ghost use Rattle.zq_model.specs.Meaning.{scored_cmp};
ghost use Rattle.zq_queue.specs.Lent.{lent_pair};
ghost use Rattle.zq_shard.specs.Shard.{queue_at};

use std::alloc::{AllocError, Global};
use zq_stage::Stage;

/// Appends the members that a heap has of a key, with their scores.
fn add_heap<'a>(
    alloc: Global,
    pairs: &mut Vec<(i128, &'a [u8])>,
    stage: &'a Stage,
    key: &[u8],
) -> Result<(), AllocError>
    ensures { OnOk result (map lent_pair pairs.new.items
        ≡ map lent_pair pairs.old.items ++ queue_at stage.now.held key.now) }
{
    let found = stage.held().in_order(alloc, key)?;
    pairs.extend_from_slice(&found)
}

/// The members that heaps have of a key, a heap after the other.
fn gathered<'a>(
    alloc: Global,
    stages: &'a [Stage],
    key: &[u8],
) -> Result<Vec<(i128, &'a [u8])>, AllocError>
    ensures { IfOk result (λ pairs.
        map lent_pair pairs.items ≡ flat_map (listed_in key.now) stages.now) }
{
    let mut pairs = Vec::new(alloc);
    for stage in stages {
        add_heap(alloc, &mut pairs, stage, key)?;
    }
    Ok(pairs)
}

/// The members of a key in all of these heaps with their scores, by score and then by bytes, as
/// ZRANGE gives them.
pub fn members_of<'a>(
    alloc: Global,
    stages: &'a [Stage],
    key: &[u8],
) -> Result<Vec<(i128, &'a [u8])>, AllocError>
    ensures all { IfOk result (λ pairs. IsPermutation (flat_map (listed_in key.now) stages.now)
        (map lent_pair pairs.items)) }
    ensures sorted { IfOk result (λ pairs. IsSorted scored_cmp (map lent_pair pairs.items)) }
{
    let mut pairs = gathered(alloc, stages, key)?;
    pairs.sort_unstable();
    Ok(pairs)
}
