//! What stands before the changes: the head, the site, and the number of changes.

ghost use Rattle.std.specs.Prelude.{◌≡◌, ◌*◌, ◌+◌, ◌<◌, ◌≤◌, ◌++◌, ◌∷◌, IfOk, OnOk, false, length, slice_index, take, true};
ghost use Rattle.zq_batch.specs.Before as before_of;
ghost use Rattle.zq_batch.specs.Fields as read_batch;
ghost use Rattle.zq_batch.specs.Spelling as spell;
ghost use Rattle.zq_fields.specs.Reading as read;
ghost use Rattle.zq_model.specs.Sets as sets;

use crate::before::{Base, base_of, has_short_key, last_op, repeats_site};
use crate::varint::place;
use crate::view::View;
use std::alloc::AllocError;
use zq_dots::{LAST_COUNTER, SITES, SiteNo};
use zq_fields::{PartFault, read_byte, read_byte_in, read_site, write_byte};

// The number of sites.
const PAST: u8 = SITES as u8;

// How many changes stand in the head at most, and 1 more.
const FEW: u8 = 15;

/// What the first byte of an operation says.
#[derive(Clone, Copy, Debug)]
pub(crate) struct Head {
    /// Its act.
    pub(crate) kind: u8,
    /// Its key is that of the operation before.
    pub(crate) key: bool,
    /// Its site is that of the operation before.
    pub(crate) site: bool,
    /// How many changes it has, where those are fewer than 15.
    pub(crate) few: u8,
}

/// Takes the head of an operation behind these.
#[tactic(auto, unfolding(crate::specs::Fields::head_at))]
pub(crate) fn read_head(
    whole: usize,
    before: &[View<'_>],
    bytes: &mut &[u8],
) -> Result<Head, PartFault>
    ensures exact { read.Gives (λ h. (h, bytes.new.now)) result
        (read_batch.head_at whole before.now bytes.old.now) }
    ensures found { IfOk result (λ h. bytes.old.now
        ≡ (h.kind + 4 * spell.one_if h.key + 8 * spell.one_if h.site + 16 * h.few)
        ∷ bytes.new.now) }
    ensures kind { IfOk result (λ h. h.kind < 3) }
    ensures few { IfOk result (λ h. h.few ≤ spell.FEW) }
    ensures key { IfOk result (λ h. h.key ≡ true →
        before_of.holds before_of.has_short_key (before_of.last_op before.now) ≡ true) }
    ensures site { IfOk result (λ h. h.site ≡ true →
        before_of.holds read_batch.is_there (before_of.last_op before.now) ≡ true) }
{
    let Some((byte, rest)) = read_byte(bytes) else {
        return Err(PartFault::Short);
    };
    let head = head_of(byte);
    if !is_head(before, &head) {
        return Err(PartFault::Field(place(whole, bytes)));
    }
    *bytes = rest;
    Ok(head)
}

/// What a byte says.
fn head_of(byte: u8) -> Head
    ensures head { result ≡ read_batch.head_of byte }
    ensures byte { byte
        ≡ result.kind + 4 * spell.one_if result.key + 8 * spell.one_if result.site
        + 16 * result.few }
    ensures few { result.few ≤ spell.FEW }
{
    Head {
        kind: byte % 4,
        key: byte / 4 % 2 == 1,
        site: byte / 8 % 2 == 1,
        few: byte / 16,
    }
}

/// Whether it is of an act, and what it says of the operation before can be so.
fn is_head(before: &[View<'_>], head: &Head) -> bool
    ensures { result ≡ read_batch.is_head before.now head.now }
{
    match last_op(before) {
        None => head.kind < 3 && !head.key && !head.site,
        Some(view) => head.kind < 3 && (!head.key || has_short_key(view)),
    }
}

/// Takes the site, unless it is that of the operation before, and gives what the counters of the
/// operation are counted from. A fault of a site without a further counter is at the place of the
/// operation's head.
#[tactic(auto, unfolding(crate::specs::Fields::site_at, zq_model::specs::Sets::LAST))]
pub(crate) fn read_own(
    whole: usize,
    at: usize,
    before: &[View<'_>],
    again: bool,
    bytes: &mut &[u8],
) -> Result<(SiteNo, Base), PartFault>
    requires { again ≡ true →
        before_of.holds read_batch.is_there (before_of.last_op before.now) ≡ true }
    ensures exact { read.Gives (λ x. (x.0, bytes.new.now)) result
        (read_batch.site_at whole at before.now again bytes.old.now) }
    ensures found { IfOk result (λ x. bytes.old.now
        ≡ spell.site_bytes again x.0 ++ bytes.new.now) }
    ensures again { IfOk result (λ x. before_of.repeats_site before.now x.0 ≡ again) }
    ensures known { IfOk result (λ x. x.1.known ≡ before_of.base_of x.0 before.now) }
    ensures top { IfOk result (λ x. x.1.top ≡ before_of.top_of x.0 before.now) }
    ensures counters { IfOk result (λ x. sets.IsCounters x.1.known) }
    ensures own { IfOk result (λ x. slice_index x.1.known x.0 ≤ x.1.top) }
    ensures unworn { IfOk result (λ x. x.1.top < sets.LAST) }
{
    let site = read_written_site(whole, before, again, bytes)?;
    let base = base_of(before, site);
    if base.top >= LAST_COUNTER {
        return Err(PartFault::Field(at));
    }
    Ok((site, base))
}

/// Takes the site, unless it is that of the operation before.
fn read_written_site(
    whole: usize,
    before: &[View<'_>],
    again: bool,
    bytes: &mut &[u8],
) -> Result<SiteNo, PartFault>
    requires { again ≡ true →
        before_of.holds read_batch.is_there (before_of.last_op before.now) ≡ true }
    ensures exact { read.Gives (λ s. (s, bytes.new.now)) result
        (read_batch.written_site_at whole before.now again bytes.old.now) }
    ensures found { IfOk result (λ s. bytes.old.now
        ≡ spell.site_bytes again s ++ bytes.new.now) }
    ensures again { IfOk result (λ s. before_of.repeats_site before.now s ≡ again) }
{
    if again {
        Ok(site_before(before))
    } else {
        read_other_site(whole, before, bytes)
    }
}

/// The site of the operation before.
fn site_before(before: &[View<'_>]) -> SiteNo
    requires { before_of.holds read_batch.is_there (before_of.last_op before.now) ≡ true }
    ensures site { result ≡ read_batch.site_from (before_of.last_op before.now) }
    ensures again { before_of.repeats_site before.now result ≡ true }
{
    last_op(before).unwrap().site()
}

/// Takes a site that is not that of the operation before.
#[tactic(auto, unfolding(crate::specs::Fields::other_site_at, zq_model::specs::Sets::SITES))]
fn read_other_site(
    whole: usize,
    before: &[View<'_>],
    bytes: &mut &[u8],
) -> Result<SiteNo, PartFault>
    ensures exact { read.Gives (λ s. (s, bytes.new.now)) result
        (read_batch.other_site_at whole before.now bytes.old.now) }
    ensures found { IfOk result (λ s. bytes.old.now ≡ s ∷ bytes.new.now) }
    ensures other { IfOk result (λ s. before_of.repeats_site before.now s ≡ false) }
{
    let at = place(whole, bytes);
    let site = read_site(whole, bytes, 0, PAST)?;
    if repeats_site(before, site) {
        return Err(PartFault::Field(at));
    }
    Ok(site)
}

/// Takes the number of changes, where it does not stand in the head.
#[tactic(auto, unfolding(zq_model::specs::Sets::SITES))]
pub(crate) fn read_count(whole: usize, few: u8, bytes: &mut &[u8]) -> Result<u8, PartFault>
    requires { few ≤ spell.FEW }
    ensures exact { read.Gives (λ x. (x, bytes.new.now)) result
        (read_batch.count_at whole few bytes.old.now) }
    ensures found { IfOk result (λ x. bytes.old.now ≡ spell.count_bytes x ++ bytes.new.now) }
    ensures few { IfOk result (λ x. spell.few_of x ≡ few) }
{
    if few == FEW {
        read_byte_in(whole, bytes, FEW, PAST + 1)
    } else {
        Ok(few)
    }
}

/// Appends the head, the site and the number of changes. Where memory is refused a part of it may
/// stand behind what stood there.
#[tactic(auto, unfolding(crate::specs::Spelling::head_byte))]
pub(crate) fn write_front(
    out: &mut Vec<u8>,
    kind: u8,
    key: bool,
    again: bool,
    site: SiteNo,
    count: u8,
) -> Result<(), AllocError>
    requires { kind < 3 }
    ensures written { OnOk result (out.new.items ≡ out.old.items
        ++ (kind + 4 * spell.one_if key + 8 * spell.one_if again + 16 * spell.few_of count)
        ∷ (spell.site_bytes again site ++ spell.count_bytes count)) }
    ensures kept { take (length out.old.items) out.new.items ≡ out.old.items }
{
    let few = if count < FEW { count } else { FEW };
    write_byte(out, kind + 4 * key as u8 + 8 * again as u8 + 16 * few)?;
    if !again {
        write_byte(out, site.value())?;
    }
    if count >= FEW {
        write_byte(out, count)?;
    }
    Ok(())
}
