//! The sums of an addition.

ghost use Rattle.std.specs.Prelude.{◌≡◌, ◌<◌, ◌++◌, ◌∷◌, IfErr, IfOk, OnOk, [], flat_map, length};
ghost use Rattle.zq_entry.specs.Sums.{AreSums, dense_sums, nonzero_sums};
ghost use Rattle.zq_merge.specs.Answer.{Answers};
ghost use Rattle.zq_merge.specs.Bounds.{AreSumsBounded};
ghost use Rattle.zq_merge.specs.Fields as fields;
ghost use Rattle.zq_merge.specs.Reading as read;
ghost use Rattle.zq_merge.specs.Refused as refused;
ghost use Rattle.zq_merge.specs.Spelling as spell;
ghost use Rattle.zq_merge.specs.Sums.{with_sum};
ghost use Rattle.zq_merge.specs.declared.fault.StateFault.TheVariants.{NoMemory};
ghost use Rattle.zq_model.specs.Sets as sets;

use crate::fault::StateFault;
use crate::part::of_part;
use crate::sum::{most, read_site_sum, read_sum};
use crate::version::Version;
use std::alloc::{AllocError, Global};
use zq_dots::{SITES, SiteNo, Vector};
use zq_fields::{DENSE_SITES, read_byte_in};

/// Takes the sums of an addition: those that are not 0, by rising site.
pub(crate) fn read_sums(
    alloc: Global,
    version: Version,
    whole: usize,
    vector: &Vector,
    bytes: &mut &[u8],
) -> Result<Vec<(SiteNo, i128)>, StateFault>
    ensures exact { Answers (λ x. (dense_sums x.items, bytes.new.now)) result
        (fields.sums_at version whole vector.now bytes.old.now) }
    ensures memory { IfErr result (λ fault. fault ≡ NoMemory →
        refused.IsInSums version whole vector.now bytes.old.now) }
    ensures found { IfOk result (λ x. bytes.old.now ≡ spell.sums_bytes version (dense_sums x.items)
        ++ bytes.new.now) }
    ensures sums { IfOk result (λ x. AreSums x.items) }
    ensures within { IfOk result (λ x. AreSumsBounded vector.now x.items) }
{
    match version {
        Version::One => read_each_sum(alloc, vector, bytes),
        Version::Two | Version::Three => read_listed_sums(alloc, whole, vector, bytes),
    }
}

/// Takes a sum for each of the first sites.
fn read_each_sum(
    alloc: Global,
    vector: &Vector,
    bytes: &mut &[u8],
) -> Result<Vec<(SiteNo, i128)>, StateFault>
    ensures exact { Answers (λ x. (dense_sums x.items, bytes.new.now)) result
        (fields.all_sums_at vector.now bytes.old.now) }
    ensures memory { IfErr result (λ fault. fault ≡ NoMemory →
        refused.IsInFirstSums vector.now bytes.old.now) }
    ensures found { IfOk result
        (λ x. bytes.old.now ≡ spell.each_sum (dense_sums x.items) ++ bytes.new.now) }
    ensures sums { IfOk result (λ x. AreSums x.items) }
    ensures within { IfOk result (λ x. AreSumsBounded vector.now x.items) }
{
    let mut sums = Vec::new(alloc);
    for number in 0..DENSE_SITES {
        let site = site_of(number);
        let sum = read_sum(bytes, most(vector, site))?;
        push_sum(&mut sums, site, &sum)?;
    }
    Ok(sums)
}

/// Adds a sum, if it is not 0.
fn push_sum(sums: &mut Vec<(SiteNo, i128)>, site: SiteNo, sum: &i128) -> Result<(), AllocError>
    ensures { OnOk result (sums.new.items ≡ with_sum site sum.now sums.old.items) }
{
    if *sum == 0 {
        return Ok(());
    }
    push(sums, site, sum)
}

fn push(sums: &mut Vec<(SiteNo, i128)>, site: SiteNo, sum: &i128) -> Result<(), AllocError>
    ensures { OnOk result (sums.new.items ≡ sums.old.items ++ (site, sum.now) ∷ []) }
{
    sums.push((site, *sum))?;
    Ok(())
}

/// The site of a number that is one.
fn site_of(number: u8) -> SiteNo
    requires { number < sets.SITES }
    ensures { result ≡ number }
{
    SiteNo::new(number).unwrap()
}

/// Takes a number of sums, and as many with their sites.
#[tactic(auto, unfolding(crate::specs::Fields::listed_sums_at, crate::specs::Spelling::listed_sums, zq_model::specs::Sets::SITES))]
fn read_listed_sums(
    alloc: Global,
    whole: usize,
    vector: &Vector,
    bytes: &mut &[u8],
) -> Result<Vec<(SiteNo, i128)>, StateFault>
    ensures exact { Answers (λ x. (dense_sums x.items, bytes.new.now)) result
        (fields.some_sums_at whole vector.now bytes.old.now) }
    ensures memory { IfErr result (λ fault. fault ≡ NoMemory →
        refused.IsInListedSums whole vector.now bytes.old.now) }
    ensures found { IfOk result
        (λ x. bytes.old.now ≡ spell.listed_sums (nonzero_sums (dense_sums x.items))
        ++ bytes.new.now) }
    ensures sums { IfOk result (λ x. AreSums x.items) }
    ensures within { IfOk result (λ x. AreSumsBounded vector.now x.items) }
{
    let count = of_part(read_byte_in(whole, bytes, 0, SITES as u8 + 1))?;
    let sums = read_some_sums(alloc, whole, vector, count, bytes)?;
    Ok(sums)
}

/// Takes so many sums with their sites.
#[tactic(auto, unfolding(zq_model::specs::Sets::SITES))]
fn read_some_sums(
    alloc: Global,
    whole: usize,
    vector: &Vector,
    count: u8,
    bytes: &mut &[u8],
) -> Result<Vec<(SiteNo, i128)>, StateFault>
    ensures exact { Answers (λ x. (x.items, bytes.new.now)) result
        (read.many_at (fields.later_sum_at whole vector.now) count [] bytes.old.now) }
    ensures memory { IfErr result (λ fault. fault ≡ NoMemory →
        refused.IsInSomeSums whole vector.now count bytes.old.now) }
    ensures found { IfOk result
        (λ x. bytes.old.now ≡ flat_map spell.sum_bytes x.items ++ bytes.new.now) }
    ensures count { IfOk result (λ x. length x.items ≡ count) }
    ensures sums { IfOk result (λ x. AreSums x.items) }
    ensures within { IfOk result (λ x. AreSumsBounded vector.now x.items) }
{
    let mut sums = Vec::new(alloc);
    let mut low = 0;
    for _number in 0..count {
        let (site, sum) = read_site_sum(whole, vector, low, bytes)?;
        push(&mut sums, site, &sum)?;
        low = site.value() + 1;
    }
    Ok(sums)
}
