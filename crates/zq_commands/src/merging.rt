//! Two lists of pairs put together.

ghost use Rattle.std.specs.Prelude.{IfOk, IsTrue, is_some, length, map, option_map, ◌+◌, ◌≡◌, ◌≤◌};
ghost use Rattle.zq_commands.specs.FirstPairs.{lent_pair};
ghost use Rattle.zq_commands.specs.Weaving.{goes_before, is_next, woven};

use crate::first_of_key::order;
use std::alloc::{AllocError, Global};

/// The first so many pairs of both lists together, of which each is in order, or turned round.
pub fn merge<'a>(
    alloc: Global,
    first: Vec<(i128, &'a [u8])>,
    second: Vec<(i128, &'a [u8])>,
    is_turned: bool,
    most: usize,
) -> Result<Vec<(i128, &'a [u8])>, AllocError>
    requires few { length first.items ≤ most }
    ensures { IfOk result (λ pairs. map lent_pair pairs.items
        ≡ woven is_turned most (map lent_pair first.entry.items)
        (map lent_pair second.entry.items)) }
{
    if second.is_empty() {
        return Ok(first);
    }
    let few = most.min(first.len() + second.len());
    weave(alloc, &first, &second, is_turned, few)
}

/// The same into memory of its own, of which there is room first for all of them.
fn weave<'a>(
    alloc: Global,
    first: &[(i128, &'a [u8])],
    second: &[(i128, &'a [u8])],
    is_turned: bool,
    most: usize,
) -> Result<Vec<(i128, &'a [u8])>, AllocError>
    requires few { most ≤ length first.now + length second.now }
    ensures { IfOk result (λ pairs. map lent_pair pairs.items
        ≡ woven is_turned most (map lent_pair first.now) (map lent_pair second.now)) }
{
    let mut pairs = Vec::with_capacity(alloc, most)?;
    let mut left = 0;
    let mut right = 0;
    let mut rest = most;
    while rest > 0 {
        if is_left_next(first.get(left), second.get(right), is_turned) {
            pairs.push(first[left])?;
            left += 1;
        } else if right < second.len() {
            pairs.push(second[right])?;
            right += 1;
        } else {
            break;
        }
        rest -= 1;
    }
    Ok(pairs)
}

/// Whether the next pair is the left list's.
fn is_left_next(
    left: Option<&(i128, &[u8])>,
    right: Option<&(i128, &[u8])>,
    is_turned: bool,
) -> bool
    ensures next { result ≡ is_next is_turned (option_map (λ p. lent_pair p.now) left.entry)
        (option_map (λ p. lent_pair p.now) right.entry) }
    ensures inside { IsTrue result → IsTrue (is_some left.entry) }
{
    match (left, right) {
        (None, _) => false,
        (_, None) => true,
        (Some(one), Some(other)) => is_ahead(one, other, is_turned),
    }
}

/// Whether a pair goes before another.
fn is_ahead(pair: &(i128, &[u8]), other: &(i128, &[u8]), is_turned: bool) -> bool
    ensures { result ≡ goes_before is_turned (lent_pair pair.now) (lent_pair other.now) }
{
    if is_turned {
        order(other, pair).is_lt()
    } else {
        order(pair, other).is_lt()
    }
}
