//! What a site has: its heap, its number, its rule and its vector.

ghost use Rattle.std.specs.Prelude.{◌≡◌, ◌≤◌, ◌++◌, IfOk, OnOk};
ghost use Rattle.zq_dots.specs.Rule.{rule_of};
ghost use Rattle.zq_links.specs.Frame.{IsHave, have_of};
ghost use Rattle.zq_links.specs.Have as read;
ghost use Rattle.zq_links.specs.Spelling.{HasHave, have_bytes};
ghost use Rattle.zq_merge.specs.Spelling as spell;
ghost use Rattle.zq_merge.specs.Version as versions;
ghost use Rattle.zq_merge.specs.declared.version.Version.TheVariants.{Three};
ghost use Rattle.zq_model.specs.Sets as sets;
ghost use Rattle.zq_fields.specs.Reading.{Gives};

use crate::frame::Have;
use std::alloc::AllocError;
use zq_dots::{Rule, SITES, Vector};
use zq_fields::{
    DENSE_SITES, PartFault, read_dense, read_heap, read_rule, read_site, read_sparse, rule_byte,
    write_bytes, write_sparse,
};
use zq_merge::Version;

/// Takes what follows the kind.
#[tactic(auto, unfolding(crate::specs::Have::have_at, crate::specs::Spelling::have_bytes))]
pub(crate) fn read_have(
    version: Version,
    whole: usize,
    bytes: &mut &[u8],
) -> Result<Have, PartFault>
    ensures exact { Gives (λ x. (have_of x, bytes.new.now)) result
        (read.have_at version whole bytes.old.now) }
    ensures found { IfOk result
        (λ x. bytes.old.now ≡ have_bytes version (have_of x) ++ bytes.new.now) }
    ensures version { IfOk result (λ x. HasHave version (have_of x)) }
    ensures sound { IfOk result (λ x. IsHave (have_of x)) }
{
    let heap = read_heap(whole, bytes)?;
    let from = read_site(whole, bytes, 0, sites(version))?;
    let rule = read_have_rule(version, whole, bytes)?;
    let vector = read_vector(version, whole, bytes)?;
    Ok(Have {
        from,
        heap: heap.heap,
        heaps: heap.heaps,
        rule,
        vector,
    })
}

/// The number of sites that a version knows.
#[tactic(auto, unfolding(zq_model::specs::Sets::SITES, zq_fields::specs::Vectors::DENSE_SITES))]
fn sites(version: Version) -> u8
    ensures exact { result ≡ versions.sites version }
    ensures most { result ≤ sets.SITES }
{
    match version {
        Version::One => DENSE_SITES,
        Version::Two | Version::Three => SITES as u8,
    }
}

/// Takes the rule where the version has it. The versions before the third mean High.
fn read_have_rule(version: Version, whole: usize, bytes: &mut &[u8]) -> Result<Rule, PartFault>
    ensures exact { Gives (λ x. (rule_of x, bytes.new.now)) result
        (read.rule_at version whole bytes.old.now) }
    ensures found { IfOk result
        (λ x. bytes.old.now ≡ spell.rule_bytes version (rule_of x) ++ bytes.new.now) }
    ensures version { IfOk result (λ x. versions.HasRule version (rule_of x)) }
{
    match version {
        Version::One | Version::Two => Ok(Rule::High),
        Version::Three => read_rule(whole, bytes),
    }
}

fn read_vector(version: Version, whole: usize, bytes: &mut &[u8]) -> Result<Vector, PartFault>
    ensures exact { Gives (λ x. (x, bytes.new.now)) result
        (read.vector_at version whole bytes.old.now) }
    ensures found { IfOk result
        (λ x. bytes.old.now ≡ spell.vector_bytes version x ++ bytes.new.now) }
    ensures version { IfOk result (λ x. versions.HasVector version x) }
    ensures counters { IfOk result (λ x. sets.IsCounters x) }
{
    match version {
        Version::One => read_dense(whole, None, bytes),
        Version::Two | Version::Three => read_sparse(whole, None, bytes),
    }
}

/// Appends what a site has, in version 3.
#[tactic(auto, unfolding(crate::specs::Spelling::have_bytes))]
pub(crate) fn write_have(out: &mut Vec<u8>, have: &Have) -> Result<(), AllocError>
    requires { IsHave (have_of have.now) }
    ensures { OnOk result (out.new.items ≡ out.old.items ++ have_bytes Three (have_of have.now)) }
{
    let rule = rule_byte(have.rule);
    write_bytes(out, &[have.heaps, have.heap, have.from.value(), rule])?;
    write_sparse(out, &have.vector)
}
