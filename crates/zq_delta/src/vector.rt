//! What the operation's site had seen.

ghost use Rattle.std.specs.Prelude.{◌≡◌, ◌<◌, ◌++◌, IfOk, Some, slice_index};
ghost use Rattle.zq_delta.specs.Fields.{vector_at};
ghost use Rattle.zq_delta.specs.Spelling as spell;
ghost use Rattle.zq_delta.specs.Version.{HasVector};
ghost use Rattle.zq_model.specs.Sets as sets;
ghost use Rattle.zq_fields.specs.Reading.{Gives};
ghost use Rattle.zq_fields.specs.Vectors as vectors;

use crate::version::Version;
use zq_dots::{SiteNo, Vector};
use zq_fields::{PartFault, read_dense, read_sparse};

pub(crate) fn read_vector(
    version: Version,
    whole: usize,
    own: SiteNo,
    bytes: &mut &[u8],
) -> Result<Vector, PartFault>
    ensures exact { Gives (λ x. (x, bytes.new.now)) result
        (vector_at version whole (Some own) bytes.old.now) }
    ensures found { IfOk result (λ x. bytes.old.now ≡ spell.vector version x ++ bytes.new.now) }
    ensures version { IfOk result (λ x. HasVector version x) }
    ensures counters { IfOk result (λ x. sets.IsCounters x) }
    ensures within { IfOk result (λ x. vectors.IsWithinLimits (Some own) x) }
{
    match version {
        Version::One => read_dense(whole, Some(own), bytes),
        Version::Two => read_sparse(whole, Some(own), bytes),
    }
}
