//! Keys and members in rising order.

ghost use Rattle.std.specs.Prelude.{◌≡◌, ◌≤◌, ◌<◌, ◌++◌, IfErr, IfOk, length, option_map, true};
ghost use Rattle.zq_dots.specs.Placed as placed;
ghost use Rattle.zq_fields.specs.Fields.{text};
ghost use Rattle.zq_merge.specs.Answer.{Gives};
ghost use Rattle.zq_merge.specs.Fields as fields;
ghost use Rattle.zq_merge.specs.Reading as read;
ghost use Rattle.zq_merge.specs.Refused.{IsOfBytes};
ghost use Rattle.zq_model.specs.Heaps as model;
ghost use Rattle.zq_model.specs.Sets as sets;

use crate::fault::StateFault;
use zq_dots::heap_of;
use zq_fields::{HeapNo, read_text};

/// Takes a key or a member that is above the one before it.
#[tactic(auto, unfolding(crate::specs::Reading::rising_text_at))]
pub(crate) fn read_rising_text<'a>(
    before: Option<&[u8]>,
    bytes: &mut &'a [u8],
) -> Result<&'a [u8], StateFault>
    ensures exact { Gives (λ x. (x.now, bytes.new.now)) result
        (read.rising_text_at (option_map (λ b. b.now) before.entry) bytes.old.now) }
    ensures of_bytes { IfErr result IsOfBytes }
    ensures found { IfOk result (λ x. bytes.old.now ≡ text x.now ++ bytes.new.now) }
    ensures short { IfOk result (λ x. length x.now ≤ placed.LONGEST) }
    ensures after { IfOk result (λ x. read.is_after (option_map (λ b. b.now) before.entry) x.now
        ≡ true) }
{
    let text = match read_text(bytes) {
        Ok(text) => text,
        Err(fault) => return Err(StateFault::from(fault)),
    };
    if !is_after(before, text) {
        return Err(StateFault::Order);
    }
    Ok(text)
}

/// Whether the text is above the one before it, if there is one.
fn is_after(before: Option<&[u8]>, text: &[u8]) -> bool
    ensures { result ≡ read.is_after (option_map (λ b. b.now) before.entry) text.now }
{
    match before {
        None => true,
        Some(before) => before.cmp(text).is_lt(),
    }
}

/// Takes a member of the key that is above the one before it and lies in this heap.
#[tactic(auto, unfolding(crate::specs::Fields::placed_member_at))]
pub(crate) fn read_placed_member<'a>(
    heap: HeapNo,
    key: &[u8],
    before: Option<&[u8]>,
    bytes: &mut &'a [u8],
) -> Result<&'a [u8], StateFault>
    requires heaps { sets.IsHeaps heap.heaps }
    requires key { length key.now ≤ placed.LONGEST }
    ensures exact { Gives (λ x. (x.now, bytes.new.now)) result
        (fields.placed_member_at heap key.now
        (option_map (λ b. b.now) before.entry) bytes.old.now) }
    ensures of_bytes { IfErr result IsOfBytes }
    ensures found { IfOk result (λ x. bytes.old.now ≡ text x.now ++ bytes.new.now) }
    ensures short { IfOk result (λ x. length x.now ≤ placed.LONGEST) }
    ensures after { IfOk result (λ x. read.is_after (option_map (λ b. b.now) before.entry) x.now
        ≡ true) }
    ensures placed { IfOk result (λ x. model.heap_of key.now x.now heap.heaps ≡ heap.heap) }
{
    let member = read_rising_text(before, bytes)?;
    if heap_of(key, member, heap.heaps) != heap.heap {
        return Err(StateFault::WrongHeap);
    }
    Ok(member)
}
