//! Writing a member with its additions.

ghost use Rattle.std.specs.Int.{to_be_bytes, w64};
ghost use Rattle.std.specs.Prelude.{◌≡◌, ◌≤◌, ◌<◌, ◌++◌, OnOk, flat_map, length, take};
ghost use Rattle.zq_dots.specs.Placed as placed;
ghost use Rattle.zq_entry.specs.Lent.{lent};
ghost use Rattle.zq_entry.specs.Sums.{AreSums, MOST_SUM};
ghost use Rattle.zq_merge.specs.Framed.{member_of_entry};
ghost use Rattle.zq_merge.specs.Spelling as spell;
ghost use Rattle.zq_merge.specs.declared.version.Version.TheVariants as version;
ghost use Rattle.zq_model.specs.Operation.{IsWithin};
ghost use Rattle.zq_model.specs.Rows.{additions_from};
ghost use Rattle.zq_model.specs.Sets as sets;

use std::alloc::AllocError;
use zq_dots::SiteNo;
use zq_entry::{AdditionRef, Entry};
use zq_fields::{write_byte, write_i128, write_score, write_text, write_u64};

/// Appends a member with its entry.
#[tactic(auto, unfolding(crate::specs::Spelling::member_bytes))]
pub(crate) fn write_member(
    out: &mut Vec<u8>,
    member: &[u8],
    entry: &Entry,
) -> Result<(), AllocError>
    requires member { length member.now ≤ placed.LONGEST }
    requires additions { length (additions_from 0 entry.now) ≤ sets.SITES }
    ensures { OnOk result
        (out.new.items ≡ out.old.items ++ spell.member_bytes version.Three
        (member_of_entry member.now entry.now)) }
{
    write_text(out, member)?;
    write_entry(out, entry)
}

/// Appends the number of additions, and each.
#[tactic(auto, unfolding(crate::specs::Spelling::additions_bytes))]
fn write_entry(out: &mut Vec<u8>, entry: &Entry) -> Result<(), AllocError>
    requires { length (additions_from 0 entry.now) ≤ sets.SITES }
    ensures { OnOk result
        (out.new.items ≡ out.old.items ++ spell.additions_bytes version.Three
        (additions_from 0 entry.now)) }
{
    write_byte(out, entry.len() as u8)?;
    write_additions(out, entry)?;
    Ok(())
}

fn write_additions(out: &mut Vec<u8>, entry: &Entry) -> Result<(), AllocError>
    ensures { OnOk result
        (out.new.items ≡ out.old.items ++ flat_map (spell.addition_bytes version.Three)
        (additions_from 0 entry.now)) }
{
    for place in 0..entry.len() {
        write_addition(out, &entry.at(place))?;
    }
    Ok(())
}

/// Appends the site, the counter, the score and the sums that are not 0.
#[tactic(auto, unfolding(crate::specs::Spelling::addition_bytes))]
fn write_addition(out: &mut Vec<u8>, addition: &AdditionRef<'_>) -> Result<(), AllocError>
    requires { AreSums addition.now.sums }
    ensures { OnOk result
        (out.new.items ≡ out.old.items ++ spell.addition_bytes version.Three (lent addition.now)) }
{
    write_byte(out, addition.dot.site.value())?;
    write_u64(out, addition.dot.n)?;
    write_score(out, addition.score)?;
    write_sums(out, addition.sums.as_slice())?;
    Ok(())
}

/// Appends the number of sums, and each with its site.
#[tactic(auto, unfolding(crate::specs::Spelling::listed_sums))]
fn write_sums(out: &mut Vec<u8>, sums: &[(SiteNo, i128)]) -> Result<(), AllocError>
    requires { AreSums sums.now }
    ensures { OnOk result (out.new.items ≡ out.old.items ++ spell.listed_sums sums.now) }
{
    write_byte(out, sums.len() as u8)?;
    write_each_sum(out, sums)?;
    Ok(())
}

fn write_each_sum(out: &mut Vec<u8>, sums: &[(SiteNo, i128)]) -> Result<(), AllocError>
    requires { AreSums sums.now }
    ensures { OnOk result (out.new.items ≡ out.old.items ++ flat_map spell.sum_bytes sums.now) }
{
    for item in sums {
        write_sum(out, item.0, &item.1)?;
    }
    Ok(())
}

fn write_sum(out: &mut Vec<u8>, site: SiteNo, sum: &i128) -> Result<(), AllocError>
    requires { IsWithin MOST_SUM sum.now }
    ensures { OnOk result (out.new.items ≡ out.old.items ++ spell.sum_bytes (site, sum.now)) }
{
    write_byte(out, site.value())?;
    write_i128(out, *sum)?;
    Ok(())
}
