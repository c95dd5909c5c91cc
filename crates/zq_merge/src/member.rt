//! Members with their entries.

ghost use Rattle.std.specs.Prelude.{◌≡◌, ◌≤◌, ◌++◌, IfErr, IfOk, false, length, option_map, true};
ghost use Rattle.zq_dots.specs.Placed as placed;
ghost use Rattle.zq_merge.specs.Answer.{Answers};
ghost use Rattle.zq_merge.specs.Bounds.{AreAdditionsBounded};
ghost use Rattle.zq_merge.specs.Fields as fields;
ghost use Rattle.zq_merge.specs.Framed.{frame_of, member_read};
ghost use Rattle.zq_merge.specs.Reading as read;
ghost use Rattle.zq_merge.specs.Refused as refused;
ghost use Rattle.zq_merge.specs.Spelling as spell;
ghost use Rattle.zq_merge.specs.declared.fault.StateFault.TheVariants.{NoMemory};
ghost use Rattle.zq_model.specs.Heaps as model;
ghost use Rattle.zq_model.specs.Image.{is_bare};
ghost use Rattle.zq_model.specs.Rows.{additions_from};
ghost use Rattle.zq_model.specs.Sets as sets;

use crate::addition::read_entry;
use crate::fault::StateFault;
use crate::frame::Frame;
use crate::text::read_placed_member;
use crate::version::Version;
use std::alloc::Global;
use zq_entry::Entry;

/// Takes a member of the key that is above the one before it, and its additions.
#[tactic(auto, unfolding(crate::specs::Fields::member_at, crate::specs::Spelling::member_bytes))]
pub(crate) fn read_member<'a>(
    alloc: Global,
    version: Version,
    whole: usize,
    frame: &Frame,
    key: &[u8],
    before: Option<&[u8]>,
    bytes: &mut &'a [u8],
) -> Result<(&'a [u8], Entry), StateFault>
    requires heaps { sets.IsHeaps frame.now.heap.heaps }
    requires key { length key.now ≤ placed.LONGEST }
    ensures exact { Answers (λ x. (member_read x, bytes.new.now)) result
        (fields.member_at version whole (frame_of frame.now) key.now
        (option_map (λ b. b.now) before.entry) bytes.old.now) }
    ensures memory { IfErr result (λ fault. fault ≡ NoMemory →
        refused.IsInMember version whole (frame_of frame.now) key.now
        (option_map (λ b. b.now) before.entry) bytes.old.now) }
    ensures found { IfOk result (λ x. bytes.old.now ≡ spell.member_bytes version (member_read x)
        ++ bytes.new.now) }
    ensures short { IfOk result (λ x. length x.0.now ≤ placed.LONGEST) }
    ensures after { IfOk result (λ x. read.is_after (option_map (λ b. b.now) before.entry) x.0.now
        ≡ true) }
    ensures placed { IfOk result (λ x. model.heap_of key.now x.0.now frame.now.heap.heaps
        ≡ frame.now.heap.heap) }
    ensures wide { IfOk result (λ x. length x.1 ≡ sets.SITES) }
    ensures full { IfOk result (λ x. is_bare x.1 ≡ false) }
    ensures bounded { IfOk result
        (λ x. AreAdditionsBounded frame.now.vector (additions_from 0 x.1)) }
{
    let member = read_placed_member(frame.heap, key, before, bytes)?;
    let entry = read_entry(alloc, version, whole, &frame.vector, bytes)?;
    Ok((member, entry))
}
