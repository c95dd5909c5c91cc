//! Writing a state in its newest version.

ghost use Rattle.std.specs.Prelude.{◌≡◌, ◌++◌, ◌∷◌, IfOk, Ok, OnOk};
ghost use Rattle.zq_merge.specs.Spelling as spell;
ghost use Rattle.zq_merge.specs.State.{frame_in, state_at, state_spelling};
ghost use Rattle.zq_merge.specs.declared.version.Version.TheVariants as version;

use crate::keys::write_keys;
use crate::version::Version;
use std::alloc::{AllocError, Global};
use zq_fields::{rule_byte, write_bytes, write_sparse};
use zq_shard::Shard;

/// The bytes of a state, in version 3. It fails only where memory is refused.
///
/// Keys and members are sorted once. What is written is read again as the same state.
pub fn write_state(alloc: Global, shard: &Shard) -> Result<Vec<u8>, AllocError>
    ensures written { IfOk result (λ v. v.items ≡ state_spelling version.Three shard.now) }
    ensures again { IfOk result (λ v. state_at v.items ≡ Ok shard.now) }
{
    let rows = shard.rows(alloc)?;
    let mut out = Vec::new(alloc);
    write_fields(&mut out, shard)?;
    write_keys(&mut out, &rows)?;
    Ok(out)
}

/// Appends the version, the heap, the rule and the vector.
#[tactic(auto, unfolding(crate::specs::Spelling::frame_bytes))]
fn write_fields(out: &mut Vec<u8>, shard: &Shard) -> Result<(), AllocError>
    ensures { OnOk result (out.new.items ≡ out.old.items ++ 3
        ∷ spell.frame_bytes version.Three (frame_in shard.now)) }
{
    let rule = rule_byte(shard.rule());
    write_bytes(
        out,
        &[Version::Three.byte(), shard.heaps(), shard.heap(), rule],
    )?;
    write_sparse(out, shard.vector())
}
