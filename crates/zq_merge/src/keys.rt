//! The keys with their members.

ghost use Rattle.std.specs.Prelude.{◌≡◌, ◌≤◌, ◌<◌, ◌-◌, ◌++◌, ◌∷◌, OnOk, drop, flat_map, length, map, take};
ghost use Rattle.zq_merge.specs.Groups.{AreWritable, group_key, group_len};
ghost use Rattle.zq_merge.specs.Keys as keys;
ghost use Rattle.zq_merge.specs.Spelling as spell;
ghost use Rattle.zq_merge.specs.declared.version.Version.TheVariants as version;
ghost use Rattle.zq_shard.specs.Listed.{lent_row};

use crate::write::write_member;
use std::alloc::AllocError;
use zq_fields::{write_text, write_u64};
use zq_shard::RowRef;

/// Appends the number of keys, and each with its members. The rows are by key and then by member.
#[tactic(auto, unfolding(crate::specs::Spelling::keys_bytes))]
pub(crate) fn write_keys(out: &mut Vec<u8>, rows: &[RowRef<'_>]) -> Result<(), AllocError>
    requires { AreWritable (map lent_row rows.now) }
    ensures { OnOk result
        (out.new.items ≡ out.old.items ++ spell.keys_bytes version.Three
        (keys.by_key (map lent_row rows.now))) }
{
    write_u64(out, count_keys(rows) as u64)?;
    write_each_key(out, rows)?;
    Ok(())
}

/// The number of keys that rows by key are of.
fn count_keys(rows: &[RowRef<'_>]) -> usize
    ensures { result ≡ length (keys.by_key (map lent_row rows.now)) }
{
    let mut count = 0;
    let mut place = 0;
    while place < rows.len() {
        place = key_end(rows, place);
        count += 1;
    }
    count
}

fn write_each_key(out: &mut Vec<u8>, rows: &[RowRef<'_>]) -> Result<(), AllocError>
    requires { AreWritable (map lent_row rows.now) }
    ensures { OnOk result
        (out.new.items ≡ out.old.items ++ flat_map (spell.key_bytes version.Three)
        (keys.by_key (map lent_row rows.now))) }
{
    let mut place = 0;
    while place < rows.len() {
        let end = key_end(rows, place);
        write_key(out, &rows[place..end])?;
        place = end;
    }
    Ok(())
}

/// Where the rows end that are of the key of the row at this place.
fn key_end(rows: &[RowRef<'_>], place: usize) -> usize
    requires { place < length rows.now }
    ensures after { place < result }
    ensures most { result ≤ length rows.now }
    ensures key { keys.by_key (drop place (map lent_row rows.now))
        ≡ group_key (take (result - place) (drop place (map lent_row rows.now)))
        ∷ keys.by_key (drop result (map lent_row rows.now)) }
{
    place + 1 + group_len(&rows[place + 1..], rows[place].key)
}

/// The number of rows at the front that are of this key.
fn group_len(rows: &[RowRef<'_>], key: &[u8]) -> usize
    ensures exact { result ≡ group_len key.now (map lent_row rows.now) }
    ensures most { result ≤ length rows.now }
{
    for (place, row) in rows.iter().enumerate() {
        if row.key != key {
            return place;
        }
    }
    rows.len()
}

/// Appends a key, the number of its members, and each: the rows are those of the key.
#[tactic(auto, unfolding(crate::specs::Spelling::key_bytes))]
fn write_key(out: &mut Vec<u8>, rows: &[RowRef<'_>]) -> Result<(), AllocError>
    requires some { 0 < length rows.now }
    requires writable { AreWritable (map lent_row rows.now) }
    ensures { OnOk result
        (out.new.items ≡ out.old.items ++ spell.key_bytes version.Three
        (group_key (map lent_row rows.now))) }
{
    write_text(out, rows[0].key)?;
    write_u64(out, rows.len() as u64)?;
    write_members(out, rows)?;
    Ok(())
}

fn write_members(out: &mut Vec<u8>, rows: &[RowRef<'_>]) -> Result<(), AllocError>
    requires { AreWritable (map lent_row rows.now) }
    ensures { OnOk result
        (out.new.items ≡ out.old.items ++ flat_map (spell.member_bytes version.Three)
        (map keys.member_of (map lent_row rows.now))) }
{
    for row in rows {
        write_member(out, row.member, row.entry)?;
    }
    Ok(())
}
