//! One sum of increments.

ghost use Rattle.std.specs.Int.{w128};
ghost use Rattle.std.specs.Prelude.{◌≡◌, ◌<◌, ◌≤◌, ◌*◌, ◌++◌, IfErr, IfOk, slice_index};
ghost use Rattle.zq_entry.specs.Sums.{IsSum, MOST_SUM};
ghost use Rattle.zq_fields.specs.Fields.{signed};
ghost use Rattle.zq_merge.specs.Answer.{Gives};
ghost use Rattle.zq_merge.specs.Fields as fields;
ghost use Rattle.zq_merge.specs.Reading as read;
ghost use Rattle.zq_merge.specs.Refused.{IsOfBytes};
ghost use Rattle.zq_merge.specs.Spelling as spell;
ghost use Rattle.zq_model.specs.Operation.{IsWithin, MOST};
ghost use Rattle.zq_model.specs.Sets as sets;

use crate::fault::StateFault;
use crate::part::read_rising_site;
use zq_dots::{GREATEST, SITES, SiteNo, Vector};
use zq_fields::read_i128;

/// The greatest amount of a site's sum: the greatest increment for each operation of the site that
/// the vector knows.
#[tactic(auto, unfolding(zq_model::specs::Sets::LAST))]
pub(crate) fn most(vector: &Vector, site: SiteNo) -> u128
    ensures exact { result ≡ MOST * slice_index vector.now site }
    ensures bounded { result ≤ MOST_SUM }
{
    u128::from(GREATEST.unsigned_abs()) * u128::from(vector.get(site))
}

/// Takes a sum of sixteen bytes, of at most this amount.
#[tactic(auto, unfolding(crate::specs::Reading::sum_in))]
pub(crate) fn read_sum(bytes: &mut &[u8], most: u128) -> Result<i128, StateFault>
    ensures exact { Gives (λ x. (x, bytes.new.now)) result (read.sum_in most bytes.old.now) }
    ensures of_bytes { IfErr result IsOfBytes }
    ensures found { IfOk result (λ x. bytes.old.now ≡ signed w128 x ++ bytes.new.now) }
    ensures within { IfOk result (λ x. IsWithin most x) }
{
    let Some((sum, rest)) = read_i128(bytes) else {
        return Err(StateFault::Short);
    };
    if sum.unsigned_abs() > most {
        return Err(StateFault::Total);
    }
    *bytes = rest;
    Ok(sum)
}

/// Takes a site from `low` on and its sum, which is not 0.
#[tactic(auto, unfolding(crate::specs::Fields::site_sum_at, zq_model::specs::Sets::SITES))]
pub(crate) fn read_site_sum(
    whole: usize,
    vector: &Vector,
    low: u8,
    bytes: &mut &[u8],
) -> Result<(SiteNo, i128), StateFault>
    ensures exact { Gives (λ x. ((x.0, x.1), bytes.new.now)) result
        (fields.site_sum_at whole vector.now low bytes.old.now) }
    ensures of_bytes { IfErr result IsOfBytes }
    ensures found { IfOk result (λ x. bytes.old.now ≡ spell.sum_bytes (x.0, x.1) ++ bytes.new.now) }
    ensures site { IfOk result (λ x. (low ≤ x.0) × (x.0 < sets.SITES)) }
    ensures sum { IfOk result (λ x. IsSum (x.0, x.1)) }
    ensures within { IfOk result (λ x. IsWithin (MOST * slice_index vector.now x.0) x.1) }
{
    let site = read_rising_site(whole, bytes, low, SITES as u8)?;
    let sum = read_sum(bytes, most(vector, site))?;
    if sum == 0 {
        return Err(StateFault::Total);
    }
    Ok((site, sum))
}
