//! From operations that are spelled one by one to a batch.

ghost use Rattle.std.specs.Prelude.{◌≡◌, ◌<◌, ◌++◌, ◌∷◌, All, IfOk, IfSome, IsNone, List, OnOk, flat_map, length, take, true, false, ℕ, []};
ghost use Rattle.zq_batch.specs.Batch.{AreBatch};
ghost use Rattle.zq_batch.specs.Spelling.{batch_bytes};
ghost use Rattle.zq_delta.specs.Fields as delta;
ghost use Rattle.zq_delta.specs.Spelling.{act_bytes, fields, op_spelling};
ghost use Rattle.zq_delta.specs.declared.version.Version.TheVariants as version;
ghost use Rattle.zq_dots.specs.Act.{act_of};
ghost use Rattle.zq_dots.specs.Placed.{IsRanged, Placed};
ghost use Rattle.zq_fields.specs.Reading as read;
ghost use Rattle.zq_model.specs.Operation.{IsAct};

use crate::view::View;
use crate::write::append_views;
use std::alloc::{AllocError, Global};
use zq_dots::{Act, SITES};
use zq_fields::{
    PartFault, read_byte, read_byte_in, read_heap, read_score, read_site, read_sparse, read_text,
};

// The version of an operation's frame that is looked at.
const VERSION: u8 = 2;

// The number of sites.
const PAST: u8 = SITES as u8;

// The fewest bytes of an operation's frame.
const SHORTEST: usize = 14;

/// Appends the bytes of so many operations, whose frames of version 2 stand one behind the other in
/// `spelled`, and says whether they have a spelling together. Nothing is copied but their bytes.
/// Where they have none, or memory is refused, a part of it may stand behind what stood there.
pub fn append_recoded(
    alloc: Global,
    out: &mut Vec<u8>,
    count: u32,
    spelled: &[u8],
) -> Result<bool, AllocError>
    ensures written { IfOk result (λ is. is ≡ true → (ops : List Placed) → All IsRanged ops →
        length ops ≡ count → spelled.now ≡ flat_map (op_spelling version.Two) ops →
        (heaps heap : ℕ) × AreBatch heaps heap ops
        × (out.new.items ≡ out.old.items ++ batch_bytes heaps heap ops)) }
    ensures other { IfOk result (λ is. is ≡ false → (ops : List Placed) → All IsRanged ops →
        length ops ≡ count → spelled.now ≡ flat_map (op_spelling version.Two) ops →
        (heaps heap : ℕ) → AreBatch heaps heap ops → ⊥) }
    ensures kept { take (length out.old.items) out.new.items ≡ out.old.items }
{
    match look_each(alloc, count, spelled)? {
        None => Ok(false),
        Some(views) => append_views(out, &views),
    }
}

/// So many operations, and `None` where the bytes are not theirs.
fn look_each<'a>(
    alloc: Global,
    count: u32,
    spelled: &'a [u8],
) -> Result<Option<Vec<View<'a>>>, AllocError>
    ensures found { IfOk result (λ r. IfSome r (λ v. (ops : List Placed) → All IsRanged ops →
        length ops ≡ count → spelled.now ≡ flat_map (op_spelling version.Two) ops →
        v.items ≡ ops)) }
    ensures none { IfOk result (λ r. IsNone r → (ops : List Placed) → All IsRanged ops →
        length ops ≡ count → spelled.now ≡ flat_map (op_spelling version.Two) ops → ⊥) }
{
    let mut rest = spelled;
    let room = (count as usize).min(spelled.len() / SHORTEST);
    let mut views = Vec::with_capacity(alloc, room)?;
    for _number in 0..count {
        let Some(view) = look(&mut rest) else {
            return Ok(None);
        };
        append(&mut views, view)?;
    }
    Ok(Some(views))
}

/// Puts an operation at the end.
fn append<'a>(views: &mut Vec<View<'a>>, view: View<'a>) -> Result<(), AllocError>
    ensures { OnOk result (views.new.items ≡ views.old.items ++ view.entry ∷ []) }
{
    views.push(view)?;
    Ok(())
}

/// Takes an operation, and `None` where the bytes do not begin with one.
fn look<'a>(bytes: &mut &'a [u8]) -> Option<View<'a>>
    ensures found { IfSome result
        (λ v. bytes.old.now ≡ op_spelling version.Two v ++ bytes.new.now) }
    ensures none { IsNone result → (o : Placed) (rest : List ℕ) → IsRanged o →
        bytes.old.now ≡ op_spelling version.Two o ++ rest → ⊥ }
    ensures sound { IfSome result IsRanged }
{
    let whole = bytes.len();
    let (version, rest) = read_byte(bytes)?;
    if version != VERSION {
        return None;
    }
    let mut fields = rest;
    match look_fields(whole, &mut fields) {
        Ok(view) => {
            *bytes = fields;
            Some(view)
        }
        Err(_) => None,
    }
}

/// Takes what follows the version.
#[tactic(auto, unfolding(zq_delta::specs::Fields::fields_at, zq_delta::specs::Fields::head_at, zq_delta::specs::Spelling::fields, zq_model::specs::Sets::SITES))]
fn look_fields<'a>(whole: usize, bytes: &mut &'a [u8]) -> Result<View<'a>, PartFault>
    ensures exact { read.Gives (λ v. (v, bytes.new.now)) result
        (delta.fields_at version.Two whole bytes.old.now) }
    ensures found { IfOk result (λ v. bytes.old.now ≡ fields version.Two v ++ bytes.new.now) }
    ensures sound { IfOk result IsRanged }
{
    let heap = read_heap(whole, bytes)?;
    let site = read_site(whole, bytes, 0, PAST)?;
    let seen = read_sparse(whole, Some(site), bytes)?;
    let act = look_act(whole, bytes)?;
    let key = read_text(bytes)?;
    let member = read_text(bytes)?;
    Ok(View::new(heap, site, seen, act, key, member))
}

/// Takes the act.
#[tactic(auto, unfolding(zq_delta::specs::Fields::act_at))]
fn look_act(whole: usize, bytes: &mut &[u8]) -> Result<Act, PartFault>
    ensures exact { read.Gives (λ x. (act_of x, bytes.new.now)) result
        (delta.act_at whole bytes.old.now) }
    ensures found { IfOk result (λ x. bytes.old.now
        ≡ act_bytes (act_of x) ++ bytes.new.now) }
    ensures within { IfOk result (λ x. IsAct (act_of x)) }
{
    let kind = read_byte_in(whole, bytes, 0, 3)?;
    if kind == 2 {
        return Ok(Act::Drop);
    }
    let score = read_score(bytes)?;
    if kind == 0 {
        Ok(Act::Put(score))
    } else {
        Ok(Act::Bump(score))
    }
}
