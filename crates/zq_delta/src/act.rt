//! The act: its kind, and the score or the increment of those that have one.

ghost use Rattle.std.specs.Int.{w64};
ghost use Rattle.std.specs.Prelude.{◌≡◌, ◌++◌, ◌∷◌, IfOk, OnOk, length, take};
ghost use Rattle.zq_delta.specs.Fields as read;
ghost use Rattle.zq_delta.specs.Spelling as spell;
ghost use Rattle.zq_dots.specs.Act.{act_of};
ghost use Rattle.zq_fields.specs.Fields.{signed};
ghost use Rattle.zq_model.specs.Operation.{IsAct};
ghost use Rattle.zq_fields.specs.Reading.{Gives};

use std::alloc::AllocError;
use zq_dots::{Act, Score};
use zq_fields::{PartFault, read_byte_in, read_score, write_byte, write_score};

const PUT: u8 = 0;

const BUMP: u8 = 1;

const DROP: u8 = 2;

#[tactic(auto, unfolding(crate::specs::Fields::act_at))]
pub(crate) fn read_act(whole: usize, bytes: &mut &[u8]) -> Result<Act, PartFault>
    ensures exact { Gives (λ x. (act_of x, bytes.new.now)) result
        (read.act_at whole bytes.old.now) }
    ensures found { IfOk result (λ x. bytes.old.now ≡ spell.act_bytes (act_of x) ++ bytes.new.now) }
    ensures within { IfOk result (λ x. IsAct (act_of x)) }
{
    let kind = read_byte_in(whole, bytes, PUT, DROP + 1)?;
    if kind == DROP {
        return Ok(Act::Drop);
    }
    let score = read_score(bytes)?;
    if kind == PUT {
        Ok(Act::Put(score))
    } else {
        Ok(Act::Bump(score))
    }
}

pub(crate) fn write_act(out: &mut Vec<u8>, act: Act) -> Result<(), AllocError>
    ensures written { OnOk result (out.new.items ≡ out.old.items ++ spell.act_bytes (act_of act)) }
    ensures kept { take (length out.old.items) out.new.items ≡ out.old.items }
{
    match act {
        Act::Put(score) => write_amount(out, PUT, score),
        Act::Bump(increment) => write_amount(out, BUMP, increment),
        Act::Drop => write_byte(out, DROP),
    }
}

fn write_amount(out: &mut Vec<u8>, kind: u8, amount: Score) -> Result<(), AllocError>
    ensures written { OnOk result (out.new.items ≡ out.old.items ++ kind ∷ signed w64 amount) }
    ensures kept { take (length out.old.items) out.new.items ≡ out.old.items }
{
    write_byte(out, kind)?;
    write_score(out, amount)
}
