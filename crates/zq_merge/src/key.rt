//! Keys with their members, which go into the shard as they are read.

ghost use Rattle.std.specs.Int.{to_be_bytes, w64};
ghost use Rattle.std.specs.Prelude.{◌≡◌, ◌≤◌, ◌++◌, ◌∷◌, IfErr, IfOk, OnOk, [], flat_map, length, option_map, true};
ghost use Rattle.zq_dots.specs.Placed as placed;
ghost use Rattle.zq_merge.specs.Answer.{Answers};
ghost use Rattle.zq_merge.specs.Built.{IsBuilt, keys_of, members_since};
ghost use Rattle.zq_merge.specs.Fields as fields;
ghost use Rattle.zq_merge.specs.Framed.{frame_of};
ghost use Rattle.zq_merge.specs.Reading as read;
ghost use Rattle.zq_merge.specs.Refused as refused;
ghost use Rattle.zq_merge.specs.Spelling as spell;
ghost use Rattle.zq_merge.specs.State.{heap_image};
ghost use Rattle.zq_merge.specs.declared.fault.StateFault.TheVariants.{NoMemory};
ghost use Rattle.zq_model.specs.Sets as sets;

use crate::fault::StateFault;
use crate::frame::Frame;
use crate::member::read_member;
use crate::part::of_part;
use crate::text::read_rising_text;
use crate::version::Version;
use std::alloc::Global;
use zq_fields::read_number_in;
use zq_shard::Shard;

/// Takes the number of keys, and as many.
#[tactic(auto, unfolding(crate::specs::Fields::keys_at, crate::specs::Spelling::keys_bytes))]
pub(crate) fn read_keys(
    alloc: Global,
    version: Version,
    whole: usize,
    frame: &Frame,
    bytes: &mut &[u8],
    shard: &mut Shard,
) -> Result<(), StateFault>
    requires heaps { sets.IsHeaps frame.now.heap.heaps }
    requires empty { shard.old ≡ heap_image (frame_of frame.now) [] }
    ensures exact { Answers (λ _. (keys_of shard.new, bytes.new.now)) result
        (fields.keys_at version whole (frame_of frame.now) bytes.old.now) }
    ensures memory { IfErr result (λ fault. fault ≡ NoMemory →
        refused.IsInKeys version whole (frame_of frame.now) bytes.old.now) }
    ensures found { OnOk result
        (bytes.old.now ≡ spell.keys_bytes version (keys_of shard.new) ++ bytes.new.now) }
    ensures built { OnOk result (IsBuilt (frame_of frame.now) (keys_of shard.new) shard.new) }
{
    let count = of_part(read_number_in(whole, bytes, 0, u64::MAX))?;
    read_some_keys(alloc, version, whole, frame, count, bytes, shard)?;
    Ok(())
}

/// Takes so many keys.
fn read_some_keys(
    alloc: Global,
    version: Version,
    whole: usize,
    frame: &Frame,
    count: u64,
    bytes: &mut &[u8],
    shard: &mut Shard,
) -> Result<(), StateFault>
    requires heaps { sets.IsHeaps frame.now.heap.heaps }
    requires empty { shard.old ≡ heap_image (frame_of frame.now) [] }
    ensures exact { Answers (λ _. (keys_of shard.new, bytes.new.now)) result
        (read.many_at (fields.later_key_at version whole (frame_of frame.now)) count []
        bytes.old.now) }
    ensures memory { IfErr result (λ fault. fault ≡ NoMemory →
        refused.IsInSomeKeys version whole (frame_of frame.now) count bytes.old.now) }
    ensures found { OnOk result
        (bytes.old.now ≡ flat_map (spell.key_bytes version) (keys_of shard.new) ++ bytes.new.now) }
    ensures count { OnOk result (length (keys_of shard.new) ≡ count) }
    ensures built { OnOk result (IsBuilt (frame_of frame.now) (keys_of shard.new) shard.new) }
{
    let mut before = None;
    for _number in 0..count {
        let key = read_key(alloc, version, whole, frame, before, bytes, shard)?;
        before = Some(key);
    }
    Ok(())
}

/// Takes a key that is above the one before it, and its members.
#[tactic(auto, unfolding(crate::specs::Fields::key_at, crate::specs::Spelling::key_bytes))]
fn read_key<'a>(
    alloc: Global,
    version: Version,
    whole: usize,
    frame: &Frame,
    before: Option<&[u8]>,
    bytes: &mut &'a [u8],
    shard: &mut Shard,
) -> Result<&'a [u8], StateFault>
    requires heaps { sets.IsHeaps frame.now.heap.heaps }
    requires built { IsBuilt (frame_of frame.now) (keys_of shard.old) shard.old }
    requires before { option_map (λ b. b.now) before ≡ fields.last_key (keys_of shard.old) }
    ensures exact { Answers
        (λ key. (
          record { key = key.now; members = members_since shard.old shard.new },
          bytes.new.now,
        )) result
        (fields.key_at version whole (frame_of frame.now)
        (option_map (λ b. b.now) before.entry) bytes.old.now) }
    ensures memory { IfErr result (λ fault. fault ≡ NoMemory →
        refused.IsInKey version whole (frame_of frame.now)
        (option_map (λ b. b.now) before.entry) bytes.old.now) }
    ensures found { IfOk result
        (λ key. bytes.old.now ≡ spell.key_bytes version
        (record { key = key.now; members = members_since shard.old shard.new }) ++ bytes.new.now) }
    ensures built { IfOk result
        (λ key. IsBuilt (frame_of frame.now)
        (keys_of shard.old ++ (record { key = key.now; members = members_since shard.old shard.new }) ∷ []) shard.new) }
{
    let key = read_rising_text(before, bytes)?;
    read_counted_members(alloc, version, whole, frame, key, bytes, shard)?;
    Ok(key)
}

/// Takes the number of the key's members, at least 1, and as many.
#[tactic(auto, unfolding(crate::specs::Fields::members_at))]
fn read_counted_members(
    alloc: Global,
    version: Version,
    whole: usize,
    frame: &Frame,
    key: &[u8],
    bytes: &mut &[u8],
    shard: &mut Shard,
) -> Result<(), StateFault>
    requires heaps { sets.IsHeaps frame.now.heap.heaps }
    requires key { length key.now ≤ placed.LONGEST }
    requires built { IsBuilt (frame_of frame.now) (keys_of shard.old) shard.old }
    requires after { read.is_after (fields.last_key (keys_of shard.old)) key.now ≡ true }
    ensures exact { Answers (λ _. (members_since shard.old shard.new, bytes.new.now)) result
        (fields.members_at version whole (frame_of frame.now) key.now bytes.old.now) }
    ensures memory { IfErr result (λ fault. fault ≡ NoMemory →
        refused.IsInMembers version whole (frame_of frame.now) key.now bytes.old.now) }
    ensures found { OnOk result
        (bytes.old.now ≡ to_be_bytes w64 (length (members_since shard.old shard.new))
        ++ (flat_map (spell.member_bytes version) (members_since shard.old shard.new)
        ++ bytes.new.now)) }
    ensures built { OnOk result
        (IsBuilt (frame_of frame.now)
        (keys_of shard.old ++ (record { key = key.now; members = members_since shard.old shard.new }) ∷ []) shard.new) }
{
    let count = of_part(read_number_in(whole, bytes, 1, u64::MAX))?;
    read_members(alloc, version, whole, frame, key, count, bytes, shard)?;
    Ok(())
}

/// Takes so many members of the key, at least one.
fn read_members(
    alloc: Global,
    version: Version,
    whole: usize,
    frame: &Frame,
    key: &[u8],
    count: u64,
    bytes: &mut &[u8],
    shard: &mut Shard,
) -> Result<(), StateFault>
    requires heaps { sets.IsHeaps frame.now.heap.heaps }
    requires key { length key.now ≤ placed.LONGEST }
    requires some { 1 ≤ count }
    requires built { IsBuilt (frame_of frame.now) (keys_of shard.old) shard.old }
    requires after { read.is_after (fields.last_key (keys_of shard.old)) key.now ≡ true }
    ensures exact { Answers (λ _. (members_since shard.old shard.new, bytes.new.now)) result
        (read.many_at (fields.later_member_at version whole (frame_of frame.now) key.now) count []
        bytes.old.now) }
    ensures memory { IfErr result (λ fault. fault ≡ NoMemory →
        refused.IsInSomeMembers version whole (frame_of frame.now) key.now count bytes.old.now) }
    ensures found { OnOk result
        (bytes.old.now ≡ flat_map (spell.member_bytes version) (members_since shard.old shard.new)
        ++ bytes.new.now) }
    ensures count { OnOk result (length (members_since shard.old shard.new) ≡ count) }
    ensures built { OnOk result
        (IsBuilt (frame_of frame.now)
        (keys_of shard.old ++ (record { key = key.now; members = members_since shard.old shard.new }) ∷ []) shard.new) }
{
    let mut before = None;
    for _number in 0..count {
        let (member, entry) = read_member(alloc, version, whole, frame, key, before, bytes)?;
        shard.push_row(alloc, key, member, entry)?;
        before = Some(member);
    }
    Ok(())
}
