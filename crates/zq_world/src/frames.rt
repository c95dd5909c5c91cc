//! How operations and images pass from one site to another: as the bytes of their frames.

ghost use Rattle.std.specs.Prelude.{IfOk, IfErr, List, Ok, length, ℕ, ◌<◌, ◌≡◌};
ghost use Rattle.zq_delta.specs.Reading.{found_at};
ghost use Rattle.zq_delta.specs.Spelling.{op_spelling};
ghost use Rattle.zq_delta.specs.declared.version.Version.TheVariants as delta;
ghost use Rattle.zq_merge.specs.State.{state_at, state_spelling};
ghost use Rattle.zq_merge.specs.declared.version.Version.TheVariants as merge;
ghost use Rattle.zq_model.specs.Operation.{Operation};
ghost use Rattle.zq_model.specs.Rule.{Rule};
ghost use Rattle.zq_model.specs.Sets.{IsIn};
ghost use Rattle.zq_semantics.specs.Events.{Event, set_at};
ghost use Rattle.zq_semantics.specs.Runs.{IsPlayable, run};
ghost use Rattle.zq_shard.specs.Shard.{HeapImage};
ghost use Rattle.zq_world.specs.Frames.{heap_at, placed};
ghost use Rattle.zq_world.specs.declared.faults.PlayFault.TheVariants as fault;

use crate::faults::PlayFault;
use std::alloc::Global;
use zq_delta::{read_op, write_op};
use zq_dots::Op;
use zq_merge::read_state;
use zq_posheap::Seeded;
use zq_shard::Shard;

/// The operations of a world, and the images that its sites had, are unchanged where they are
/// written and read in between.
pub fn carrying()
    ensures operations { (rule : Rule) (K sites : ℕ) (events : List Event) →
        IsPlayable rule K sites events → (o : Operation) → IsIn o (run rule K events).now.made →
        found_at (op_spelling delta.Two (placed K o))
        ≡ Ok (placed K o, length (op_spelling delta.Two (placed K o))) }
    ensures images { (rule : Rule) (K sites : ℕ) (events : List Event) →
        IsPlayable rule K sites events → (moment site heap : ℕ) → heap < K →
        state_at (state_spelling merge.Three
        (heap_at rule K (set_at (run rule K events) moment site) heap))
        ≡ Ok (heap_at rule K (set_at (run rule K events) moment site) heap) }
{}

/// An operation as another site reads it, by way of its bytes: an equal one, as those of a world
/// are. It fails only where memory is refused.
pub(crate) fn carry(alloc: Global, op: &Op) -> Result<Op, PlayFault>
    ensures same { found_at (op_spelling delta.Two op.now)
        ≡ Ok (op.now, length (op_spelling delta.Two op.now)) → IfOk result (λ x. x ≡ op.now) }
    ensures refused { IfErr result (λ why. why ≡ fault.NoMemory) }
{
    let bytes = write_op(alloc, op)?;
    match read_op(alloc, bytes.as_slice()) {
        Ok((op, _)) => Ok(op),
        Err(_) => Err(PlayFault::NoMemory),
    }
}

/// A state as another site reads it, where the bytes are those of one. It fails only where memory
/// is refused.
pub(crate) fn receive(alloc: Global, bytes: &[u8], hasher: Seeded) -> Result<Shard, PlayFault>
    ensures same { (s : HeapImage) → state_at bytes.now ≡ Ok s → IfOk result (λ x. x ≡ s) }
    ensures refused { IfErr result (λ why. why ≡ fault.NoMemory) }
{
    match read_state(alloc, bytes, hasher) {
        Ok(shard) => Ok(shard),
        Err(_) => Err(PlayFault::NoMemory),
    }
}
