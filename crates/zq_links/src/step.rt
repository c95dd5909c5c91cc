//! Where a stream of pieces stands: the life of the sender's heap, the number of a piece, and the
//! spot that follows it.

ghost use Rattle.std.specs.Prelude.{IfOk, OnOk, ◌++◌, ◌≡◌};
ghost use Rattle.zq_fields.specs.Reading.{Gives};
ghost use Rattle.zq_links.specs.Steps.{IsStep, step_at, step_bytes};

use crate::numbers::{take_u32, take_u64};
use crate::spot::{Spot, read_spot, write_spot};
use std::alloc::AllocError;
use zq_fields::{PartFault, write_u32, write_u64};

/// Takes a life, a number and a spot.
#[tactic(auto, unfolding(crate::specs::Steps::step_at, crate::specs::Steps::step_bytes))]
pub(crate) fn read_step(bytes: &mut &[u8]) -> Result<(u64, u32, Spot), PartFault>
    ensures exact { Gives (λ x. ((x.0, x.1, x.2), bytes.new.now)) result
        (step_at bytes.old.now) }
    ensures found { IfOk result (λ x. bytes.old.now ≡ step_bytes x.0 x.1 x.2 ++ bytes.new.now) }
{
    let life = take_u64(bytes)?;
    let number = take_u32(bytes)?;
    let next = read_spot(bytes)?;
    Ok((life, number, next))
}

/// Appends a life, a number and a spot.
pub(crate) fn write_step(
    out: &mut Vec<u8>,
    life: u64,
    number: u32,
    next: &Spot,
) -> Result<(), AllocError>
    ensures written { OnOk result
        (out.new.items ≡ out.old.items ++ step_bytes life number next.now) }
    ensures sound { OnOk result (IsStep life number next.now) }
{
    write_u64(out, life)?;
    write_u32(out, number)?;
    write_spot(out, next)?;
    Ok(())
}
