//! Scores and increments.

ghost use Rattle.std.specs.Int.{w64};
ghost use Rattle.std.specs.Prelude.{◌≡◌, ◌++◌, IfOk, OnErr, OnOk};
ghost use Rattle.zq_fields.specs.Fields.{signed};
ghost use Rattle.zq_model.specs.Operation.{IsWithin, MOST};
ghost use Rattle.zq_fields.specs.Reading as read;

use crate::fault::PartFault;
use crate::{read_i64, write_i64};
use std::alloc::AllocError;
use zq_dots::Score;

/// Takes a score, in eight bytes.
#[tactic(auto, unfolding(crate::specs::Reading::score_at))]
pub fn read_score(bytes: &mut &[u8]) -> Result<Score, PartFault>
    ensures exact { read.Gives (λ x. (x, bytes.new.now)) result (read.score_at bytes.old.now) }
    ensures found { IfOk result (λ x. bytes.old.now ≡ signed w64 x ++ bytes.new.now) }
    ensures within { IfOk result (λ x. IsWithin MOST x) }
{
    let Some((number, rest)) = read_i64(bytes) else {
        return Err(PartFault::Short);
    };
    let Some(score) = Score::new(number) else {
        return Err(PartFault::Score);
    };
    *bytes = rest;
    Ok(score)
}

/// Appends a score's eight bytes. Where memory is refused nothing is written.
pub fn write_score(out: &mut Vec<u8>, score: Score) -> Result<(), AllocError>
    ensures written { OnOk result (out.new.items ≡ out.old.items ++ signed w64 score) }
    ensures refused { OnErr result (out.new.items ≡ out.old.items) }
{
    write_i64(out, score.value())
}
