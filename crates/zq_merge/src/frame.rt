//! What stands before the keys: the heap, the rule and the vector.

ghost use Rattle.std.specs.Prelude.{◌≡◌, ◌<◌, ◌++◌, IfErr, IfOk};
ghost use Rattle.zq_dots.specs.Rule.{rule_of};
ghost use Rattle.zq_merge.specs.Answer.{Gives};
ghost use Rattle.zq_merge.specs.Fields as fields;
ghost use Rattle.zq_merge.specs.Framed.{frame_of};
ghost use Rattle.zq_merge.specs.Refused.{IsOfBytes};
ghost use Rattle.zq_merge.specs.Spelling as spell;
ghost use Rattle.zq_merge.specs.Version.{HasRule, HasVector};
ghost use Rattle.zq_model.specs.Sets as sets;

use crate::fault::StateFault;
use crate::part::of_part;
use crate::version::Version;
use zq_dots::{Rule, Vector};
use zq_fields::{HeapNo, read_dense, read_heap, read_rule, read_sparse};

/// Which heap a state is of, by which rule its scores are, and which operations it has taken.
#[derive(Clone, Copy, Debug)]
pub(crate) struct Frame {
    pub(crate) rule: Rule,
    pub(crate) heap: HeapNo,
    pub(crate) vector: Vector,
}

/// Takes the heap, the rule and the vector.
#[tactic(auto, unfolding(crate::specs::Fields::frame_at, crate::specs::Spelling::frame_bytes))]
pub(crate) fn read_frame(
    version: Version,
    whole: usize,
    bytes: &mut &[u8],
) -> Result<Frame, StateFault>
    ensures exact { Gives (λ x. (frame_of x, bytes.new.now)) result
        (fields.frame_at version whole bytes.old.now) }
    ensures of_bytes { IfErr result IsOfBytes }
    ensures found { IfOk result
        (λ x. bytes.old.now ≡ spell.frame_bytes version (frame_of x) ++ bytes.new.now) }
    ensures rule { IfOk result (λ x. HasRule version (rule_of x.rule)) }
    ensures vector { IfOk result (λ x. HasVector version x.vector) }
    ensures heaps { IfOk result (λ x. sets.IsHeaps x.heap.heaps) }
    ensures heap { IfOk result (λ x. x.heap.heap < x.heap.heaps) }
    ensures counters { IfOk result (λ x. sets.IsCounters x.vector) }
{
    let heap = of_part(read_heap(whole, bytes))?;
    let rule = read_frame_rule(version, whole, bytes)?;
    let vector = read_vector(version, whole, bytes)?;
    Ok(Frame { rule, heap, vector })
}

/// Takes the rule where the version has it. The versions before the third mean High.
fn read_frame_rule(version: Version, whole: usize, bytes: &mut &[u8]) -> Result<Rule, StateFault>
    ensures exact { Gives (λ x. (rule_of x, bytes.new.now)) result
        (fields.rule_at version whole bytes.old.now) }
    ensures of_bytes { IfErr result IsOfBytes }
    ensures found { IfOk result
        (λ x. bytes.old.now ≡ spell.rule_bytes version (rule_of x) ++ bytes.new.now) }
    ensures version { IfOk result (λ x. HasRule version (rule_of x)) }
{
    match version {
        Version::One | Version::Two => Ok(Rule::High),
        Version::Three => of_part(read_rule(whole, bytes)),
    }
}

fn read_vector(version: Version, whole: usize, bytes: &mut &[u8]) -> Result<Vector, StateFault>
    ensures exact { Gives (λ x. (x, bytes.new.now)) result
        (fields.vector_at version whole bytes.old.now) }
    ensures of_bytes { IfErr result IsOfBytes }
    ensures found { IfOk result
        (λ x. bytes.old.now ≡ spell.vector_bytes version x ++ bytes.new.now) }
    ensures version { IfOk result (λ x. HasVector version x) }
    ensures counters { IfOk result (λ x. sets.IsCounters x) }
{
    match version {
        Version::One => of_part(read_dense(whole, None, bytes)),
        Version::Two | Version::Three => of_part(read_sparse(whole, None, bytes)),
    }
}
