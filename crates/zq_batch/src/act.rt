//! The act: its kind stands in the head, and the score or the increment of those that have one
//! behind the changes.

ghost use Rattle.std.specs.Prelude.{◌≡◌, ◌<◌, ◌++◌, IfOk, OnOk, length, take};
ghost use Rattle.zq_batch.specs.Fields as read_batch;
ghost use Rattle.zq_batch.specs.Spelling.{act_no, score_bytes};
ghost use Rattle.zq_dots.specs.Act.{act_of};
ghost use Rattle.zq_fields.specs.Reading as read;
ghost use Rattle.zq_model.specs.Operation.{IsAct};

use crate::score::{read_score, write_score};
use std::alloc::AllocError;
use zq_dots::Act;
use zq_fields::PartFault;

const PUT: u8 = 0;

const BUMP: u8 = 1;

const DROP: u8 = 2;

/// The number of its kind.
pub(crate) fn kind_of(act: Act) -> u8
    ensures kind { result ≡ act_no (act_of act) }
    ensures below { result < 3 }
{
    match act {
        Act::Put(_) => PUT,
        Act::Bump(_) => BUMP,
        Act::Drop => DROP,
    }
}

/// Takes what an act of this kind has behind the changes.
#[tactic(auto, unfolding(crate::specs::Fields::act_at))]
pub(crate) fn read_act(whole: usize, kind: u8, bytes: &mut &[u8]) -> Result<Act, PartFault>
    requires { kind < 3 }
    ensures exact { read.Gives (λ x. (act_of x, bytes.new.now)) result
        (read_batch.act_at whole kind bytes.old.now) }
    ensures found { IfOk result
        (λ x. bytes.old.now ≡ score_bytes (act_of x) ++ bytes.new.now) }
    ensures kind { IfOk result (λ x. act_no (act_of x) ≡ kind) }
    ensures within { IfOk result (λ x. IsAct (act_of x)) }
{
    if kind == DROP {
        return Ok(Act::Drop);
    }
    let score = read_score(whole, bytes)?;
    if kind == PUT {
        Ok(Act::Put(score))
    } else {
        Ok(Act::Bump(score))
    }
}

/// Appends what an act has behind the changes.
pub(crate) fn write_act(out: &mut Vec<u8>, act: Act) -> Result<(), AllocError>
    ensures written { OnOk result
        (out.new.items ≡ out.old.items ++ score_bytes (act_of act)) }
    ensures kept { take (length out.old.items) out.new.items ≡ out.old.items }
{
    match act {
        Act::Put(score) => write_score(out, score),
        Act::Bump(increment) => write_score(out, increment),
        Act::Drop => Ok(()),
    }
}
