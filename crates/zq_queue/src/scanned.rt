//! What is read in order of a list of few members: by a scan of all.

ghost use Rattle.std.specs.Prelude.{IfOk, count_by, if◌then◌else◌, length, map, option_map, take, ◌≡◌};
ghost use Rattle.std.specs.Ordering.{int_cmp, is_le, is_lt};
ghost use Rattle.zq_dots.specs.Rule.{rule_of};
ghost use Rattle.zq_model.specs.Meaning.{scored_cmp};
ghost use Rattle.zq_queue.specs.Few.{AreFew, entries_by, pairs_by, scored_by};
ghost use Rattle.zq_queue.specs.Lent.{lent_pair};
ghost use Rattle.zq_queue.specs.Listed.{listed, part};
ghost use Rattle.zq_queue.specs.Least.{IsLeastOf, is_first};

use crate::few::Member;
use std::alloc::{AllocError, Global};
use zq_dots::Rule;

/// A member's score, and the member. In a list none is without a score.
#[inline(always)]
fn scored(member: &Member, rule: Rule) -> (i128, &[u8])
    ensures { lent_pair result ≡ scored_by (rule_of rule) member.now }
{
    (
        member.entry.score(rule).unwrap_or(0),
        member.name.as_slice(),
    )
}

/// Whether a pair goes before another, where there is another.
fn goes_before(pair: (i128, &[u8]), other: Option<(i128, &[u8])>) -> bool
    ensures { result ≡ is_first (lent_pair pair.entry) (option_map lent_pair other.entry) }
{
    match other {
        Some(other) => pair.cmp(&other).is_lt(),
        None => true,
    }
}

/// The first score and its member.
pub(crate) fn top(list: &[Member], rule: Rule) -> Option<(i128, &[u8])>
    ensures { IsLeastOf (pairs_by (rule_of rule) list.now) (option_map lent_pair result) }
{
    let mut least = None;
    for member in list {
        let pair = scored(member, rule);
        if goes_before(pair, least) {
            least = Some(pair);
        }
    }
    least
}

/// All scores with their members, in the list's order.
fn pairs(alloc: Global, list: &[Member], rule: Rule) -> Result<Vec<(i128, &[u8])>, AllocError>
    ensures { IfOk result
        (λ pairs. map lent_pair pairs.items ≡ pairs_by (rule_of rule) list.now) }
{
    let mut pairs = Vec::with_capacity(alloc, list.len())?;
    for member in list {
        pairs.push(scored(member, rule))?;
    }
    Ok(pairs)
}

/// All scores with their members, by score and then by bytes.
pub(crate) fn in_order(
    alloc: Global,
    list: &[Member],
    rule: Rule,
) -> Result<Vec<(i128, &[u8])>, AllocError>
    requires few { AreFew list.now }
    ensures { IfOk result (λ pairs. map lent_pair pairs.items
        ≡ listed (rule_of rule) (entries_by list.now)) }
{
    let mut pairs = pairs(alloc, list, rule)?;
    pairs.sort_unstable();
    Ok(pairs)
}

/// The first so many of `in_order`, or all where there are fewer.
pub(crate) fn first(
    alloc: Global,
    list: &[Member],
    rule: Rule,
    count: usize,
) -> Result<Vec<(i128, &[u8])>, AllocError>
    requires few { AreFew list.now }
    ensures { IfOk result (λ pairs. map lent_pair pairs.items
        ≡ take count (listed (rule_of rule) (entries_by list.now))) }
{
    let mut pairs = in_order(alloc, list, rule)?;
    pairs.truncate(count);
    Ok(pairs)
}

/// What stands in `in_order` from the place `from` up to the place `to`, itself left out.
pub(crate) fn slice(
    alloc: Global,
    list: &[Member],
    rule: Rule,
    from: usize,
    to: usize,
) -> Result<Vec<(i128, &[u8])>, AllocError>
    requires few { AreFew list.now }
    ensures { IfOk result (λ pairs. map lent_pair pairs.items
        ≡ part from to (listed (rule_of rule) (entries_by list.now))) }
{
    let pairs = in_order(alloc, list, rule)?;
    let to = to.min(pairs.len());
    let slice = pairs[from.min(to)..to].to_vec(alloc)?;
    Ok(slice)
}

/// How many pairs go before this score with these bytes.
pub(crate) fn count_before(list: &[Member], rule: Rule, score: i128, member: &[u8]) -> usize
    ensures { result ≡ count_by (λ pair. is_lt (scored_cmp pair (score, member.now)))
        (pairs_by (rule_of rule) list.now) }
{
    let mut count = 0;
    for other in list {
        if scored(other, rule).cmp(&(score, member)).is_lt() {
            count += 1;
        }
    }
    count
}

/// How many scores are below this one, or at it where `or_equal`.
pub(crate) fn count_below(list: &[Member], rule: Rule, score: i128, or_equal: bool) -> usize
    ensures { result ≡ count_by
        (λ pair. if or_equal then is_le (int_cmp pair.0 score) else is_lt (int_cmp pair.0 score))
        (pairs_by (rule_of rule) list.now) }
{
    let mut count = 0;
    for other in list {
        let order = scored(other, rule).0.cmp(&score);
        if if or_equal {
            order.is_le()
        } else {
            order.is_lt()
        } {
            count += 1;
        }
    }
    count
}
