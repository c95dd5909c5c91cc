//! Reading a state.

ghost use Rattle.std.specs.Prelude.{◌≡◌, Err, IfErr, IfOk, MatchResult, OnOk, []};
ghost use Rattle.zq_merge.specs.Answer.{Answers};
ghost use Rattle.zq_merge.specs.Refused.{IsOfBytes, IsRefusedIn};
ghost use Rattle.zq_merge.specs.State.{HasSpelling, IsState, end_at, state_at, state_spelling};
ghost use Rattle.zq_merge.specs.declared.fault.StateFault.TheVariants.{NoMemory};
ghost use Rattle.zq_merge.specs.declared.version.Version.{Version};
ghost use Rattle.zq_shard.specs.Shard.{HeapImage};

use crate::fault::StateFault;
use crate::frame::read_frame;
use crate::key::read_keys;
use crate::version::read_version;
use std::alloc::Global;
use zq_posheap::Seeded;
use zq_shard::Shard;

/// The state that the bytes are, in version 1, 2 or 3, as a shard whose members use this hasher.
///
/// A fault is that of the first field, from the left, that is missing or wrong. Members go into the
/// shard as they are read, and no memory is asked for what a number only declares: `NoMemory` comes
/// where there was none for what stands at the field that was read.
pub fn read_state(alloc: Global, bytes: &[u8], hasher: Seeded) -> Result<Shard, StateFault>
    ensures exact { Answers (λ x. x) result (state_at bytes.now) }
    ensures memory { IfErr result (λ fault. fault ≡ NoMemory → IsRefusedIn bytes.now) }
    ensures found { IfOk result (λ s. (v : Version) × HasSpelling v s
        × (bytes.now ≡ state_spelling v s)) }
    ensures only { (v : Version) (s : HeapImage) → IsState s → HasSpelling v s →
        bytes.now ≡ state_spelling v s →
        MatchResult result (λ x. x ≡ s) (λ fault. fault ≡ NoMemory) }
{
    read_whole(alloc, bytes, hasher)
}

#[tactic(auto, unfolding(crate::specs::State::front_at))]
fn read_whole(alloc: Global, bytes: &[u8], hasher: Seeded) -> Result<Shard, StateFault>
    ensures exact { Answers (λ x. x) result (state_at bytes.now) }
    ensures memory { IfErr result (λ fault. fault ≡ NoMemory → IsRefusedIn bytes.now) }
    ensures found { IfOk result (λ s. (v : Version) × HasSpelling v s
        × (bytes.now ≡ state_spelling v s)) }
{
    let whole = bytes.len();
    let mut rest = bytes;
    let version = read_version(&mut rest)?;
    let frame = read_frame(version, whole, &mut rest)?;
    let heap = frame.heap;
    let mut shard = Shard::of_vector(
        alloc,
        heap.heap,
        heap.heaps,
        frame.rule,
        &frame.vector,
        hasher,
    );
    read_keys(alloc, version, whole, &frame, &mut rest, &mut shard)?;
    read_end(rest)?;
    Ok(shard)
}

/// Nothing follows.
fn read_end(rest: &[u8]) -> Result<(), StateFault>
    ensures end { OnOk result (rest.now ≡ []) }
    ensures more { IfErr result (λ fault. (s : HeapImage) → end_at s rest.now ≡ Err fault) }
    ensures of_bytes { IfErr result IsOfBytes }
{
    match rest.split_first() {
        None => Ok(()),
        Some(_) => Err(StateFault::Rest),
    }
}
