//! The additions of a member.

ghost use Rattle.std.specs.Prelude.{◌≡◌, ◌≤◌, ◌<◌, ◌++◌, ◌∷◌, IfErr, IfOk, OnOk, [], false, flat_map, length};
ghost use Rattle.zq_merge.specs.Answer.{Answers};
ghost use Rattle.zq_merge.specs.Bounds.{AreAdditionsBounded, IsAdditionBounded};
ghost use Rattle.zq_merge.specs.Fields as fields;
ghost use Rattle.zq_merge.specs.Reading as read;
ghost use Rattle.zq_merge.specs.Refused as refused;
ghost use Rattle.zq_merge.specs.Spelling as spell;
ghost use Rattle.zq_merge.specs.declared.fault.StateFault.TheVariants.{NoMemory};
ghost use Rattle.zq_model.specs.Image.{is_bare};
ghost use Rattle.zq_model.specs.Rows.{additions_from};
ghost use Rattle.zq_model.specs.Sets as sets;
ghost use Rattle.zq_model.specs.Sparse.{AreBySite};

use crate::fault::StateFault;
use crate::part::{of_part, read_counter, read_rising_site};
use crate::sums::read_sums;
use crate::version::Version;
use std::alloc::{AllocError, Global};
use zq_dots::{Dot, Vector};
use zq_entry::{Addition, Entry};
use zq_fields::{read_byte_in, read_score};

/// Takes an addition of a site from `low` on: its site, its counter, which the vector knows, its
/// score and its sums.
#[tactic(auto, unfolding(crate::specs::Fields::addition_at, crate::specs::Spelling::addition_bytes))]
pub(crate) fn read_addition(
    alloc: Global,
    version: Version,
    whole: usize,
    vector: &Vector,
    low: u8,
    bytes: &mut &[u8],
) -> Result<Addition, StateFault>
    ensures exact { Answers (λ x. (x, bytes.new.now)) result
        (fields.addition_at version whole vector.now low bytes.old.now) }
    ensures memory { IfErr result (λ fault. fault ≡ NoMemory →
        refused.IsInAddition version whole vector.now low bytes.old.now) }
    ensures found { IfOk result
        (λ x. bytes.old.now ≡ spell.addition_bytes version x ++ bytes.new.now) }
    ensures site { IfOk result (λ x. (low ≤ x.0) × (x.0 < sets.SITES)) }
    ensures bounded { IfOk result (λ x. IsAdditionBounded vector.now x) }
{
    let site = read_rising_site(whole, bytes, low, version.sites())?;
    let n = read_counter(bytes, vector.get(site))?;
    let score = of_part(read_score(bytes))?;
    let sums = read_sums(alloc, version, whole, vector, bytes)?;
    Ok(Addition::of(Dot { site, n }, score, sums))
}

/// Takes a member's entry: the number of its additions, at least 1, and as many.
pub(crate) fn read_entry(
    alloc: Global,
    version: Version,
    whole: usize,
    vector: &Vector,
    bytes: &mut &[u8],
) -> Result<Entry, StateFault>
    ensures exact { Answers (λ e. (additions_from 0 e, bytes.new.now)) result
        (fields.additions_at version whole vector.now bytes.old.now) }
    ensures memory { IfErr result (λ fault. fault ≡ NoMemory →
        refused.IsInEntry version whole vector.now bytes.old.now) }
    ensures found { IfOk result
        (λ e. bytes.old.now ≡ spell.additions_bytes version (additions_from 0 e) ++ bytes.new.now) }
    ensures wide { IfOk result (λ e. length e ≡ sets.SITES) }
    ensures full { IfOk result (λ e. is_bare e ≡ false) }
    ensures bounded { IfOk result (λ e. AreAdditionsBounded vector.now (additions_from 0 e)) }
{
    let additions = read_counted(alloc, version, whole, vector, bytes)?;
    let entry = entry_of(alloc, &additions)?;
    Ok(entry)
}

/// The entry of these additions.
fn entry_of(alloc: Global, additions: &[Addition]) -> Result<Entry, AllocError>
    requires some { 1 ≤ length additions.now }
    requires rising { AreBySite 0 sets.SITES additions.now }
    ensures listed { IfOk result (λ e. additions_from 0 e ≡ additions.now) }
    ensures wide { IfOk result (λ e. length e ≡ sets.SITES) }
    ensures full { IfOk result (λ e. is_bare e ≡ false) }
{
    let entry = Entry::of_additions(alloc, additions)?;
    Ok(entry)
}

/// Takes the number of additions, at least 1, and as many.
#[tactic(auto, unfolding(crate::specs::Fields::additions_at, crate::specs::Spelling::additions_bytes, zq_model::specs::Sets::SITES))]
fn read_counted(
    alloc: Global,
    version: Version,
    whole: usize,
    vector: &Vector,
    bytes: &mut &[u8],
) -> Result<Vec<Addition>, StateFault>
    ensures exact { Answers (λ x. (x.items, bytes.new.now)) result
        (fields.additions_at version whole vector.now bytes.old.now) }
    ensures memory { IfErr result (λ fault. fault ≡ NoMemory →
        refused.IsInAdditions version whole vector.now bytes.old.now) }
    ensures found { IfOk result
        (λ x. bytes.old.now ≡ spell.additions_bytes version x.items ++ bytes.new.now) }
    ensures some { IfOk result (λ x. 1 ≤ length x.items) }
    ensures rising { IfOk result (λ x. AreBySite 0 sets.SITES x.items) }
    ensures bounded { IfOk result (λ x. AreAdditionsBounded vector.now x.items) }
{
    let count = of_part(read_byte_in(whole, bytes, 1, version.sites() + 1))?;
    read_additions(alloc, version, whole, vector, count, bytes)
}

/// Takes so many additions.
#[tactic(auto, unfolding(zq_model::specs::Sets::SITES))]
fn read_additions(
    alloc: Global,
    version: Version,
    whole: usize,
    vector: &Vector,
    count: u8,
    bytes: &mut &[u8],
) -> Result<Vec<Addition>, StateFault>
    ensures exact { Answers (λ x. (x.items, bytes.new.now)) result
        (read.many_at (fields.later_addition_at version whole vector.now) count [] bytes.old.now) }
    ensures memory { IfErr result (λ fault. fault ≡ NoMemory →
        refused.IsInSomeAdditions version whole vector.now count bytes.old.now) }
    ensures found { IfOk result
        (λ x. bytes.old.now ≡ flat_map (spell.addition_bytes version) x.items ++ bytes.new.now) }
    ensures count { IfOk result (λ x. length x.items ≡ count) }
    ensures rising { IfOk result (λ x. AreBySite 0 sets.SITES x.items) }
    ensures bounded { IfOk result (λ x. AreAdditionsBounded vector.now x.items) }
{
    let mut additions = Vec::new(alloc);
    let mut low = 0;
    for _number in 0..count {
        let addition = read_addition(alloc, version, whole, vector, low, bytes)?;
        low = addition.dot().site.value() + 1;
        push(&mut additions, addition)?;
    }
    Ok(additions)
}

fn push(additions: &mut Vec<Addition>, addition: Addition) -> Result<(), AllocError>
    ensures { OnOk result (additions.new.items ≡ additions.old.items ++ addition ∷ []) }
{
    additions.push(addition)?;
    Ok(())
}
