//! Blocks of pairs.
ghost use Rattle.std.specs.Prelude.{Contains, IfErr, IfOk, OnErr, OnOk, length, ◌<◌, ◌≡◌};
ghost use Rattle.std.specs.List.Sorted.{IsStrictlySortedBy};
ghost use Rattle.zq_ranked.specs.Edits.{IsPut, IsTaken};
ghost use Rattle.zq_ranked.specs.Key.{pair_of_key};
ghost use Rattle.zq_ranked.specs.Order.{rank_of, scored_cmp};

use crate::pair::{Key, Pair};
use std::alloc::{AllocError, Global};

/// How many pairs a block has when it is split: enough that blocks are few, and few enough that
/// moving half of them is cheap.
pub(crate) const FULL: usize = 16;

/// How many pairs of a block go before another.
pub(crate) fn rank_in(block: &[Pair], key: &Key<'_>) -> usize
    requires { IsStrictlySortedBy scored_cmp block.now }
    ensures { result ≡ rank_of (pair_of_key key.now) block.now }
{
    block.partition_point(|pair| pair.is_before(key))
}

/// The place of a pair in a block, or the place where it belongs.
pub(crate) fn find(block: &[Pair], key: &Key<'_>) -> Result<usize, usize>
    requires { IsStrictlySortedBy scored_cmp block.now }
    ensures place { IfOk result (λ place. place ≡ rank_of (pair_of_key key.now) block.now) }
    ensures within { IfOk result (λ place. place < length block.now) }
    ensures there { OnOk result (Contains block.now (pair_of_key key.now)) }
    ensures belongs { IfErr result (λ place. place ≡ rank_of (pair_of_key key.now) block.now) }
    ensures absent { OnErr result (Contains block.now (pair_of_key key.now) → ⊥) }
{
    let place = rank_in(block, key);
    if place < block.len() && block[place].order(key).is_eq() {
        return Ok(place);
    }
    Err(place)
}

/// Puts a pair into a block at its place, and answers whether it was not there before. Where memory
/// is refused the pairs stay.
pub(crate) fn put_into(
    alloc: Global,
    block: &mut Vec<Pair>,
    key: &Key<'_>,
) -> Result<bool, AllocError>
    requires { IsStrictlySortedBy scored_cmp block.old.items }
    ensures put { IfOk result
        (λ added. IsPut (pair_of_key key.now) block.old.items block.new.items added) }
    ensures refused { OnErr result (block.new.items ≡ block.old.items) }
    ensures refused_absent { OnErr result (Contains block.old.items (pair_of_key key.now) → ⊥) }
{
    let Err(place) = find(block.as_slice(), key) else {
        return Ok(false);
    };
    block.insert(place, Pair::new(alloc, key)?)?;
    Ok(true)
}

/// Takes a pair out of a block, and answers whether it was there.
pub(crate) fn take_from(block: &mut Vec<Pair>, key: &Key<'_>) -> bool
    requires { IsStrictlySortedBy scored_cmp block.old.items }
    ensures taken { IsTaken (pair_of_key key.now) block.old.items block.new.items result }
{
    let Ok(place) = find(block.as_slice(), key) else {
        return false;
    };
    let _ = block.remove(place);
    true
}
