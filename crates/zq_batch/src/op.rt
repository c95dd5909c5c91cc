//! An operation behind others.

ghost use Rattle.std.specs.Prelude.{◌≡◌, ◌<◌, ◌≤◌, ◌++◌, IfOk, OnOk, length, slice_index, take, true};
ghost use Rattle.zq_batch.specs.Batch.{IsOfHeap};
ghost use Rattle.zq_batch.specs.Before as before_of;
ghost use Rattle.zq_batch.specs.Fields as read_batch;
ghost use Rattle.zq_batch.specs.Spelling as spell;
ghost use Rattle.zq_dots.specs.Placed.{IsRanged};
ghost use Rattle.zq_fields.specs.Reading as read;
ghost use Rattle.zq_model.specs.Sets as sets;

use crate::act::{kind_of, read_act, write_act};
use crate::before::{Base, base_of, repeats_key, repeats_site};
use crate::changes::{count_changes, read_changes, write_counted};
use crate::head::{read_count, read_head, read_own, write_front};
use crate::names::{read_key, read_name, write_key, write_name};
use crate::varint::place;
use crate::view::View;
use std::alloc::AllocError;
use zq_dots::{SiteNo, Vector};
use zq_fields::{HeapNo, PartFault};

/// Takes an operation of the heap behind these.
#[tactic(auto, unfolding(crate::specs::Fields::op_at))]
pub(crate) fn read_op<'a>(
    whole: usize,
    heap: HeapNo,
    before: &[View<'a>],
    bytes: &mut &'a [u8],
) -> Result<View<'a>, PartFault>
    requires heaps { sets.IsHeaps heap.heaps }
    requires heap { heap.heap < heap.heaps }
    ensures exact { read.Gives (λ v. (v, bytes.new.now)) result
        (read_batch.op_at whole heap before.now bytes.old.now) }
    ensures found { IfOk result
        (λ v. bytes.old.now ≡ spell.op_bytes before.now v ++ bytes.new.now) }
    ensures next { IfOk result (λ v. before_of.IsNext before.now v) }
    ensures of_heap { IfOk result (λ v. IsOfHeap heap.heaps heap.heap v) }
    ensures sound { IfOk result (λ v. IsRanged v) }
{
    let at = place(whole, bytes);
    let head = read_head(whole, before, bytes)?;
    let (site, base) = read_own(whole, at, before, head.site, bytes)?;
    let count = read_count(whole, head.few, bytes)?;
    let seen = read_seen(whole, site, before, &base, count, bytes)?;
    let act = read_act(whole, head.kind, bytes)?;
    let key = read_key(whole, before, head.key, bytes)?;
    let member = read_name(whole, bytes)?;
    Ok(View::new(heap, site, seen, act, key, member))
}

/// Takes so many changes of what the counters of the site's next operation are counted from.
fn read_seen(
    whole: usize,
    site: SiteNo,
    before: &[View<'_>],
    base: &Base,
    count: u8,
    bytes: &mut &[u8],
) -> Result<Vector, PartFault>
    requires known { base.now.known ≡ before_of.base_of site before.now }
    requires top { base.now.top ≡ before_of.top_of site before.now }
    requires counters { sets.IsCounters base.now.known }
    requires own { slice_index base.now.known site ≤ base.now.top }
    requires unworn { base.now.top < sets.LAST }
    ensures exact { read.Gives (λ x. (x, bytes.new.now)) result
        (read_batch.changes_at whole site (before_of.top_of site before.now) count 0
        (before_of.base_of site before.now) bytes.old.now) }
    ensures found { IfOk result (λ x. bytes.old.now
        ≡ spell.changes sets.SITES 0 (before_of.base_of site before.now) x ++ bytes.new.now) }
    ensures count { IfOk result
        (λ x. spell.moved sets.SITES 0 (before_of.base_of site before.now) x ≡ count) }
    ensures risen { IfOk result (λ x. before_of.IsRisen site
        (before_of.base_of site before.now) (before_of.top_of site before.now) x) }
    ensures counters { IfOk result (λ x. sets.IsCounters x) }
    ensures unworn { IfOk result (λ x. slice_index x site < sets.LAST) }
{
    read_changes(whole, site, base, count, bytes)
}

/// Appends an operation behind these, and says whether it has a spelling there. Where memory is
/// refused, or it has none, a part of it may stand behind what stood there.
pub(crate) fn write_op(
    out: &mut Vec<u8>,
    before: &[View<'_>],
    view: &View<'_>,
) -> Result<bool, AllocError>
    ensures written { IfOk result (λ is. is ≡ true →
        out.new.items ≡ out.old.items ++ spell.op_bytes before.now view.now) }
    ensures next { IfOk result (λ is. is ≡ true → before_of.IsNext before.now view.now) }
    ensures other { IfOk result (λ is. before_of.IsNext before.now view.now → is ≡ true) }
    ensures kept { take (length out.old.items) out.new.items ≡ out.old.items }
{
    let base = base_of(before, view.site());
    match count_changes(view.site(), &base, view.seen()) {
        None => Ok(false),
        Some(count) => {
            write_next(out, before, &base, count, view)?;
            Ok(true)
        }
    }
}

/// Appends an operation that is the next of its site behind these.
#[tactic(auto, unfolding(crate::specs::Spelling::op_bytes, crate::specs::Spelling::body_bytes, crate::specs::Spelling::head_byte))]
fn write_next(
    out: &mut Vec<u8>,
    before: &[View<'_>],
    base: &Base,
    count: u8,
    view: &View<'_>,
) -> Result<(), AllocError>
    requires known { base.now.known ≡ before_of.base_of view.now.operation.site before.now }
    requires count { count ≡ spell.moved_by before.now view.now }
    ensures written { OnOk result
        (out.new.items ≡ out.old.items ++ spell.op_bytes before.now view.now) }
    ensures kept { take (length out.old.items) out.new.items ≡ out.old.items }
{
    let site = view.site();
    let again = repeats_site(before, site);
    let same_key = repeats_key(before, view.key());
    write_front(out, kind_of(view.act()), same_key, again, site, count)?;
    write_counted(out, count, &base.known, view.seen())?;
    write_act(out, view.act())?;
    write_key(out, same_key, view.key())?;
    write_name(out, view.member())
}
