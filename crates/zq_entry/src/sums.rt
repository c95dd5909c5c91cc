//! Sums of increments by site.

ghost use Rattle.std.specs.Int.NonZero.{non_zero_i64_get};
ghost use Rattle.std.specs.Prelude.{◌≡◌, ◌++◌, ◌∷◌, [], ◌*◌, ◌-◌, ◌≤◌, ◌+ℤ◌, IfOk, IfSome, pos, slice_index_or, unwrap_or};
ghost use Rattle.zq_model.specs.Entry.{sums_joined};
ghost use Rattle.zq_model.specs.Operation.{IsWithin, MOST};
ghost use Rattle.zq_model.specs.Score.{total};
ghost use Rattle.zq_model.specs.Sets as sets;
ghost use Rattle.zq_entry.specs.Sparse.{first_at, head_of, place_in, rest_at};
ghost use Rattle.zq_entry.specs.Sums.{AreSums, MOST_SUM, dense_sums, nonzero_sums, sum_joined, sum_kept, sums_bumped};

use crate::lower::lower_site;
use std::alloc::{AllocError, Global};
use std::marker::Model;
use std::num::NonZeroI64;
use zq_dots::{Dot, Score, SiteNo, Vector};

/// Where sums lie: one alone, which is what nearly all have that have any, takes no memory of its
/// own.
#[derive(Debug, Drop)]
enum Kept {
    Nothing,
    One([(SiteNo, i128); 1]),
    Many(Vec<(SiteNo, i128)>),
}

/// For each site the sum of the increments of its Bumps. The sums that are not 0 are kept, by
/// rising site, and the amount of each is at most 9007199254740992 times 281474976710655.
#[derive(Debug, Drop)]
pub struct Sums {
    kept: Kept,
}

impl Model for Sums {
    ghost use Rattle.std.specs.Prelude.{List, ℤ};
    ghost use Rattle.zq_entry.specs.KeptSums.{kept_sums};
    ghost use Rattle.zq_entry.specs.Sums.{AreSums, dense_sums};

    ghost Value = { List ℤ };

    ghost view = { λ sums. dense_sums (kept_sums sums.kept) };

    ghost invariant = { λ sums. AreSums (kept_sums sums.kept) };
}

impl Sums {
    /// These sums. It takes no memory, and gives theirs back where there is one at most.
    pub fn of(items: Vec<(SiteNo, i128)>) -> Sums
        requires { AreSums items.items }
        ensures { result ≡ dense_sums items.items }
    {
        let kept = match items.as_slice() {
            [] => Kept::Nothing,
            [sum] => Kept::One([*sum]),
            _ => Kept::Many(items),
        };
        Sums { kept }
    }

    /// A copy of these sums. It takes memory for two or more.
    pub fn from_slice(alloc: Global, items: &[(SiteNo, i128)]) -> Result<Sums, AllocError>
        requires { AreSums items.now }
        ensures { IfOk result (λ copy. copy ≡ dense_sums items.now) }
    {
        let kept = match items {
            [] => Kept::Nothing,
            [sum] => Kept::One([*sum]),
            _ => Kept::Many(Vec::from_slice(alloc, items)?),
        };
        Ok(Sums { kept })
    }

    /// This sum of a site alone.
    pub fn one(site: SiteNo, sum: NonZeroI64) -> Sums
        ensures { result ≡ dense_sums ((site, non_zero_i64_get sum) ∷ []) }
    {
        Sums {
            kept: Kept::One([(site, i128::from(sum.get()))]),
        }
    }

    /// The only sum with its site, where there is one alone and an `i64` holds it.
    pub fn only(&self) -> Option<(SiteNo, NonZeroI64)>
        ensures { IfSome result
            (λ only. self.now ≡ dense_sums ((only.0, non_zero_i64_get only.1) ∷ [])) }
    {
        match self.as_slice() {
            [(site, sum)] => Some((*site, NonZeroI64::new(i64::try_from(*sum).ok()?)?)),
            _ => None,
        }
    }

    /// One site's sum alone, and none where it is 0.
    fn alone(site: SiteNo, sum: i128) -> Sums
        requires { AreSums (sum_kept site sum) }
        ensures { result ≡ dense_sums (sum_kept site sum) }
    {
        let kept = if sum == 0 {
            Kept::Nothing
        } else {
            Kept::One([(site, sum)])
        };
        Sums { kept }
    }

    /// The sums that are not 0, by rising site.
    pub fn as_slice(&self) -> &[(SiteNo, i128)]
        ensures kept { result.now ≡ nonzero_sums self.now }
        ensures same { dense_sums result.now ≡ self.now }
        ensures within { AreSums result.now }
    {
        match &self.kept {
            Kept::Nothing => &[],
            Kept::One(items) => items,
            Kept::Many(items) => items,
        }
    }
}

/// What all the sums come to.
pub fn total(sums: &[(SiteNo, i128)]) -> i128
    requires { AreSums sums.now }
    ensures value { result ≡ total (dense_sums sums.now) }
    ensures within { IsWithin (sets.SITES * MOST_SUM) result }
{
    let mut total = 0;
    for (_, sum) in sums {
        total += *sum;
    }
    total
}

/// Each site's sum from the side whose vector knows more of the site, and mine where they know the
/// same.
pub fn joined_sums(
    alloc: Global,
    mine: &Vector,
    my_sums: &[(SiteNo, i128)],
    theirs: &Vector,
    their_sums: &[(SiteNo, i128)],
) -> Result<Sums, AllocError>
    requires mine { AreSums my_sums.now }
    requires theirs { AreSums their_sums.now }
    ensures { IfOk result
        (λ new. new ≡ sums_joined mine.now theirs.now (dense_sums my_sums.now)
        (dense_sums their_sums.now)) }
{
    let mut items = Vec::new(alloc);
    let (mut my_rest, mut their_rest) = (my_sums, their_sums);
    while let Some(site) = lower_site(head_site(my_rest), head_site(their_rest)) {
        let (my_sum, my_others) = cut(my_rest, site);
        let (their_sum, their_others) = cut(their_rest, site);
        if let Some(sum) = joined_sum(site, mine, my_sum, theirs, their_sum) {
            items.push((site, sum))?;
        }
        my_rest = my_others;
        their_rest = their_others;
    }
    Ok(Sums::of(items))
}

/// The sum of this site from the side whose vector knows more of the site, and mine where they know
/// the same.
fn joined_sum(
    site: SiteNo,
    mine: &Vector,
    my_sum: Option<i128>,
    theirs: &Vector,
    their_sum: Option<i128>,
) -> Option<i128>
    ensures { result ≡ sum_joined mine.now theirs.now site my_sum their_sum }
{
    if mine.get(site) < theirs.get(site) {
        their_sum
    } else {
        my_sum
    }
}

/// The sums after the Bump with this dot.
pub fn bumped_sums(
    alloc: Global,
    sums: &[(SiteNo, i128)],
    dot: Dot,
    increment: Score,
) -> Result<Sums, AllocError>
    requires sums { AreSums sums.now }
    requires counter { (1 ≤ dot.n) × (dot.n ≤ sets.LAST) }
    requires room { IsWithin (MOST * (dot.n - 1))
        (slice_index_or (dense_sums sums.now) dot.site (pos 0)) }
    ensures { IfOk result (λ new. new ≡ sums_bumped dot.site increment (dense_sums sums.now)) }
{
    let (before, rest) = sums.split_at(place_of(sums, dot.site));
    let (old, after) = cut(rest, dot.site);
    let sum = added(old, increment);
    with_sum(alloc, before, dot.site, sum, after)
}

/// A site's sum between those of lower and of higher sites; 0 is not kept. It takes memory for two
/// or more.
fn with_sum(
    alloc: Global,
    before: &[(SiteNo, i128)],
    site: SiteNo,
    sum: i128,
    after: &[(SiteNo, i128)],
) -> Result<Sums, AllocError>
    requires { AreSums (before.now ++ sum_kept site sum ++ after.now) }
    ensures { IfOk result (λ new. new ≡ dense_sums (before.now ++ sum_kept site sum ++ after.now)) }
{
    if before.is_empty() && after.is_empty() {
        return Ok(Sums::alone(site, sum));
    }
    let mut items = Vec::with_capacity(alloc, before.len() + after.len() + 1)?;
    items.extend_from_slice(before)?;
    if sum != 0 {
        items.push((site, sum))?;
    }
    items.extend_from_slice(after)?;
    Ok(Sums::of(items))
}

/// A site's sum and one more increment.
fn added(sum: Option<i128>, increment: Score) -> i128
    requires { IsWithin MOST_SUM (unwrap_or sum (pos 0) +ℤ increment) }
    ensures { result ≡ unwrap_or sum (pos 0) +ℤ increment }
{
    sum.unwrap_or(0) + i128::from(increment.value())
}

/// The site of the first sum.
fn head_site(sums: &[(SiteNo, i128)]) -> Option<SiteNo>
    ensures { result ≡ head_of sums.now }
{
    sums.first().map(|(site, _)| *site)
}

/// The first sum, where it is this site's, and what is left after it.
fn cut(sums: &[(SiteNo, i128)], site: SiteNo) -> (Option<i128>, &[(SiteNo, i128)])
    ensures first { result.0 ≡ first_at site sums.now }
    ensures rest { result.1.now ≡ rest_at site sums.now }
{
    match sums {
        [(first, sum), others @ ..] if *first == site => (Some(*sum), others),
        _ => (None, sums),
    }
}

/// The place of the first sum of this site or a later one, or the length.
fn place_of(sums: &[(SiteNo, i128)], site: SiteNo) -> usize
    ensures { result ≡ place_in site sums.now }
{
    let number = site.value();
    sums.iter()
        .position(|(other, _)| number <= other.value())
        .unwrap_or(sums.len())
}
