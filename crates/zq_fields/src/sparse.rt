//! Version vectors with an entry for each site of which anything is known.

ghost use Rattle.std.specs.Int.{to_be_bytes, w64};
ghost use Rattle.std.specs.Prelude.{◌≡◌, ◌≤◌, ◌<◌, ◌++◌, ◌∷◌, IfOk, OnOk, count_by, length, take};
ghost use Rattle.zq_model.specs.Sets as sets;
ghost use Rattle.zq_fields.specs.Reading as read;
ghost use Rattle.zq_fields.specs.Spelling as spell;
ghost use Rattle.zq_fields.specs.Vectors as vectors;

use crate::fault::PartFault;
use crate::limit::limit;
use crate::range::{read_byte_in, read_number_in, read_site, site_of};
use crate::{write_byte, write_u64};
use std::alloc::AllocError;
use zq_dots::{SITES, SiteNo, Vector};

// The number of sites, and of entries at most.
const PAST: u8 = SITES as u8;

// The bytes of an entry.
const ENTRY: usize = 9;

/// Takes the number of entries, at most 64, and as many: a site of one byte, below 64 and greater
/// than the one before, and its counter of eight bytes, 1 to 281474976710655. Where the vector is
/// what an operation of the site `own` has seen, that site's counter is less, since the operation's
/// own is the next.
#[tactic(auto, unfolding(crate::specs::Reading::sparse_at, zq_model::specs::Sets::SITES))]
pub fn read_sparse(
    whole: usize,
    own: Option<SiteNo>,
    bytes: &mut &[u8],
) -> Result<Vector, PartFault>
    ensures exact { read.Gives (λ x. (x, bytes.new.now)) result
        (read.sparse_at whole own bytes.old.now) }
    ensures found { IfOk result (λ x. bytes.old.now ≡ spell.sparse x ++ bytes.new.now) }
    ensures counters { IfOk result (λ x. sets.IsCounters x) }
    ensures within { IfOk result (λ x. vectors.IsWithinLimits own x) }
{
    let count = read_byte_in(whole, bytes, 0, PAST + 1)?;
    read_entries(whole, &own, count, bytes)
}

fn read_entries(
    whole: usize,
    own: &Option<SiteNo>,
    count: u8,
    bytes: &mut &[u8],
) -> Result<Vector, PartFault>
    ensures exact { read.Gives (λ x. (x, bytes.new.now)) result
        (read.entries_at whole own.now count 0 vectors.no_counters bytes.old.now) }
    ensures found { IfOk result (λ x. count ∷ bytes.old.now ≡ spell.sparse x ++ bytes.new.now) }
    ensures counters { IfOk result (λ x. sets.IsCounters x) }
    ensures within { IfOk result (λ x. vectors.IsWithinLimits own.now x) }
{
    let mut vector = Vector::new();
    let mut low = 0;
    for _number in 0..count {
        let (site, counter) = read_entry(whole, own, low, bytes)?;
        vector.set(site, counter);
        low = site.value() + 1;
    }
    Ok(vector)
}

/// Takes an entry of a site from low on.
#[tactic(auto, unfolding(crate::specs::Reading::entry_at, zq_model::specs::Sets::SITES))]
fn read_entry(
    whole: usize,
    own: &Option<SiteNo>,
    low: u8,
    bytes: &mut &[u8],
) -> Result<(SiteNo, u64), PartFault>
    ensures exact { read.Gives (λ x. ((x.0, x.1), bytes.new.now)) result
        (read.entry_at whole own.now low bytes.old.now) }
    ensures found { IfOk result (λ x. bytes.old.now ≡ spell.entry x.0 x.1 ++ bytes.new.now) }
    ensures site { IfOk result (λ x. (low ≤ x.0) × (x.0 < sets.SITES)) }
    ensures counter { IfOk result (λ x. (1 ≤ x.1) × (x.1 ≤ vectors.limit_of own.now x.0)) }
{
    let site = read_site(whole, bytes, low, PAST)?;
    let counter = read_number_in(whole, bytes, 1, limit(own, site))?;
    Ok((site, counter))
}

/// The number of bytes that a vector is written as, at most 577.
#[tactic(auto, unfolding(zq_model::specs::Sets::SITES))]
pub fn sparse_len(vector: &Vector) -> usize
    requires { sets.IsCounters vector.now }
    ensures exact { result ≡ length (spell.sparse vector.now) }
    ensures most { result ≤ 577 }
{
    1 + ENTRY * known(vector) as usize
}

/// The number of sites of which anything is known.
#[tactic(auto, unfolding(zq_model::specs::Sets::SITES))]
fn known(vector: &Vector) -> u8
    requires { sets.IsCounters vector.now }
    ensures exact { result ≡ count_by spell.is_known vector.now }
    ensures most { result ≤ sets.SITES }
{
    let mut count = 0;
    for number in 0..PAST {
        if vector.get(site_of(number)) > 0 {
            count += 1;
        }
    }
    count
}

/// Appends the number of sites of which anything is known, and for each its number and its counter.
/// Where memory is refused a part of that may stand behind what stood there.
#[tactic(auto, unfolding(crate::specs::Spelling::sparse))]
pub fn write_sparse(out: &mut Vec<u8>, vector: &Vector) -> Result<(), AllocError>
    requires { sets.IsCounters vector.now }
    ensures written { OnOk result (out.new.items ≡ out.old.items ++ spell.sparse vector.now) }
    ensures kept { take (length out.old.items) out.new.items ≡ out.old.items }
{
    write_byte(out, known(vector))?;
    write_entries(out, vector)
}

#[tactic(auto, unfolding(zq_model::specs::Sets::SITES))]
fn write_entries(out: &mut Vec<u8>, vector: &Vector) -> Result<(), AllocError>
    requires { sets.IsCounters vector.now }
    ensures written { OnOk result (out.new.items ≡ out.old.items ++ spell.entries 0 vector.now) }
    ensures kept { take (length out.old.items) out.new.items ≡ out.old.items }
{
    for number in 0..PAST {
        write_entry(out, number, vector.get(site_of(number)))?;
    }
    Ok(())
}

/// Appends the entry of a site, if it has one.
fn write_entry(out: &mut Vec<u8>, site: u8, counter: u64) -> Result<(), AllocError>
    ensures written { OnOk result (out.new.items ≡ out.old.items ++ spell.entry site counter) }
    ensures kept { take (length out.old.items) out.new.items ≡ out.old.items }
{
    if counter == 0 {
        return Ok(());
    }
    write_byte(out, site)?;
    write_u64(out, counter)
}
