//! By how much an operation has seen more than the one before of its site.

ghost use Rattle.std.specs.Prelude.{◌≡◌, ◌<◌, ◌≤◌, ◌-◌, ◌++◌, ◌∷◌, IfOk, MatchOption, OnOk, length, nat_lt, slice_index, take};
ghost use Rattle.zq_batch.specs.Before.{IsRisen, most_of};
ghost use Rattle.zq_batch.specs.Fields as read_batch;
ghost use Rattle.zq_batch.specs.Spelling as spell;
ghost use Rattle.zq_batch.specs.Varint.{varint};
ghost use Rattle.zq_fields.specs.Reading as read;
ghost use Rattle.zq_model.specs.Sets as sets;

use crate::before::Base;
use crate::varint::{read_varint, write_varint};
use std::alloc::AllocError;
use zq_dots::{LAST_COUNTER, SITES, SiteNo, Vector};
use zq_fields::{PartFault, read_site, write_byte};

// The number of sites.
const PAST: u8 = SITES as u8;

/// Takes so many changes.
pub(crate) fn read_changes(
    whole: usize,
    own: SiteNo,
    base: &Base,
    count: u8,
    bytes: &mut &[u8],
) -> Result<Vector, PartFault>
    requires known { sets.IsCounters base.now.known }
    requires own { slice_index base.now.known own ≤ base.now.top }
    requires top { base.now.top ≤ sets.LAST }
    ensures exact { read.Gives (λ x. (x, bytes.new.now)) result
        (read_batch.changes_at whole own base.now.top count 0 base.now.known bytes.old.now) }
    ensures found { IfOk result
        (λ x. bytes.old.now ≡ spell.changes sets.SITES 0 base.now.known x ++ bytes.new.now) }
    ensures count { IfOk result (λ x. spell.moved sets.SITES 0 base.now.known x ≡ count) }
    ensures risen { IfOk result (λ x. IsRisen own base.now.known base.now.top x) }
    ensures counters { IfOk result (λ x. sets.IsCounters x) }
{
    let mut seen = base.known;
    let mut low = 0;
    for _number in 0..count {
        let (site, rise) = read_change(whole, own, base.top, low, &seen, bytes)?;
        seen.set(site, seen.get(site) + rise);
        low = site.value() + 1;
    }
    Ok(seen)
}

/// Takes a site from `low` on, and by how much its counter rises.
#[tactic(auto, unfolding(crate::specs::Fields::change_at, zq_model::specs::Sets::SITES))]
fn read_change(
    whole: usize,
    own: SiteNo,
    top: u64,
    low: u8,
    seen: &Vector,
    bytes: &mut &[u8],
) -> Result<(SiteNo, u64), PartFault>
    ensures exact { read.Gives (λ x. ((x.0, x.1), bytes.new.now)) result
        (read_batch.change_at whole own top low seen.now bytes.old.now) }
    ensures found { IfOk result (λ x. bytes.old.now ≡ x.0 ∷ (varint x.1 ++ bytes.new.now)) }
    ensures site { IfOk result (λ x. (low ≤ x.0) × (x.0 < sets.SITES)) }
    ensures rise { IfOk result
        (λ x. (1 ≤ x.1) × (x.1 ≤ most_of own top x.0 - slice_index seen.now x.0)) }
{
    let site = read_site(whole, bytes, low, PAST)?;
    let most = most(own, top, site);
    let rise = read_varint(whole, bytes, 1, most.saturating_sub(seen.get(site)))?;
    Ok((site, rise))
}

/// The most that an operation of the site `own` has seen of a site.
#[tactic(auto, unfolding(zq_model::specs::Sets::LAST))]
fn most(own: SiteNo, top: u64, site: SiteNo) -> u64
    ensures { result ≡ most_of own top site }
{
    if site == own { top } else { LAST_COUNTER }
}

/// The number of changes from what is known to what is seen, and `None` where that has fallen, or
/// risen above the top of the site `own`.
#[tactic(auto, unfolding(zq_model::specs::Sets::SITES))]
pub(crate) fn count_changes(own: SiteNo, base: &Base, seen: &Vector) -> Option<u8>
    requires known { sets.IsCounters base.now.known }
    requires seen { sets.IsCounters seen.now }
    ensures { MatchOption result
        (IsRisen own base.now.known base.now.top seen.now → ⊥)
        (λ n. (n ≡ spell.moved sets.SITES 0 base.now.known seen.now)
        × IsRisen own base.now.known base.now.top seen.now) }
{
    if base.top < seen.get(own) {
        return None;
    }
    // (mostly a site has seen no more than what it made)
    if base.known == *seen {
        return Some(0);
    }
    let mut count = 0;
    for number in 0..PAST {
        let site = site_of(number);
        let known = base.known.get(site);
        let n = seen.get(site);
        if n < known {
            return None;
        }
        count += one_if_less(known, n);
    }
    Some(count)
}

/// 1 where the counter has risen, and else 0.
fn one_if_less(known: u64, n: u64) -> u8
    ensures one { result ≡ spell.one_if (nat_lt known n) }
    ensures most { result ≤ 1 }
{
    if known < n { 1 } else { 0 }
}

/// The site of a number that is one.
fn site_of(number: u8) -> SiteNo
    requires { number < sets.SITES }
    ensures { result ≡ number }
{
    SiteNo::new(number).unwrap()
}

/// Appends the changes from what is known to what is seen, of which there are so many. Where memory
/// is refused a part of them may stand behind what stood there.
pub(crate) fn write_counted(
    out: &mut Vec<u8>,
    count: u8,
    known: &Vector,
    seen: &Vector,
) -> Result<(), AllocError>
    requires count { count ≡ spell.moved sets.SITES 0 known.now seen.now }
    ensures written { OnOk result
        (out.new.items ≡ out.old.items ++ spell.changes sets.SITES 0 known.now seen.now) }
    ensures kept { take (length out.old.items) out.new.items ≡ out.old.items }
{
    if count == 0 {
        return Ok(());
    }
    write_changes(out, known, seen)
}

/// Appends the changes from what is known to what is seen. Where memory is refused a part of them
/// may stand behind what stood there.
#[tactic(auto, unfolding(zq_model::specs::Sets::SITES))]
fn write_changes(out: &mut Vec<u8>, known: &Vector, seen: &Vector) -> Result<(), AllocError>
    ensures written { OnOk result
        (out.new.items ≡ out.old.items ++ spell.changes sets.SITES 0 known.now seen.now) }
    ensures kept { take (length out.old.items) out.new.items ≡ out.old.items }
{
    for number in 0..PAST {
        let site = site_of(number);
        write_change(out, number, known.get(site), seen.get(site))?;
    }
    Ok(())
}

/// Appends by how much the counter of a site has risen, if it has.
#[tactic(auto, unfolding(crate::specs::Spelling::change))]
fn write_change(out: &mut Vec<u8>, site: u8, known: u64, n: u64) -> Result<(), AllocError>
    ensures written { OnOk result (out.new.items ≡ out.old.items ++ spell.change site known n) }
    ensures kept { take (length out.old.items) out.new.items ≡ out.old.items }
{
    if n <= known {
        return Ok(());
    }
    write_byte(out, site)?;
    write_varint(out, n - known)
}
