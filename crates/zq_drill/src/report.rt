//! What is written of the sites.

ghost use Rattle.std.specs.Io.KnownBytes.{Appends};
ghost use Rattle.std.specs.Prelude.{◌≡◌, ◌++◌, ◌↔◌, ◌<◌, ◌+◌, ◌^◌, IfOk, IsTrue, OnOk, flat_map, length, map};
ghost use Rattle.zq_drill.specs.Lists.{listed, lists_of};
ghost use Rattle.zq_drill.specs.Report.{AreAlike, line_of, report, sites_text, size_line};

use crate::fault::DrillFault;
use crate::listing::Scored;
use itoa::Buffer;
use std::alloc::{AllocError, Global};
use std::io::Write;

/// Appends the line of a member: its score, a space, its bytes.
fn add_line(text: &mut Vec<u8>, scored: &Scored) -> Result<(), AllocError>
    ensures { OnOk result (text.new.items ≡ text.old.items ++ line_of (listed scored.now)) }
{
    text.extend_from_slice(Buffer::new().format(scored.0).as_bytes())?;
    text.push(b' ')?;
    text.extend_from_slice(&scored.1)?;
    text.push(b'\n')?;
    Ok(())
}

/// Appends the line of each member.
fn add_lines(text: &mut Vec<u8>, list: &[Scored]) -> Result<(), AllocError>
    ensures { OnOk result
        (text.new.items ≡ text.old.items ++ flat_map line_of (map listed list.now)) }
{
    for scored in list {
        add_line(text, scored)?;
    }
    Ok(())
}

/// Appends the line of a site: its number and how many members it has.
fn add_size(text: &mut Vec<u8>, number: usize, size: usize) -> Result<(), AllocError>
    ensures { OnOk result (text.new.items ≡ text.old.items ++ size_line number size) }
{
    text.extend_from_slice(b"site ")?;
    text.extend_from_slice(Buffer::new().format(number).as_bytes())?;
    text.extend_from_slice(b" size ")?;
    text.extend_from_slice(Buffer::new().format(size).as_bytes())?;
    text.push(b'\n')?;
    Ok(())
}

/// Appends the lines of each site, of which the first has this number.
fn add_sites(text: &mut Vec<u8>, first: usize, lists: &[Vec<Scored>]) -> Result<(), AllocError>
    requires { first + length lists.now < 2 ^ 64 }
    ensures { OnOk result
        (text.new.items ≡ text.old.items ++ sites_text first (lists_of lists.now)) }
{
    let Some((list, others)) = lists.split_first() else {
        return Ok(());
    };
    add_size(text, first, list.len())?;
    add_lines(text, list)?;
    add_sites(text, first + 1, others)
}

/// Whether the lists are the same.
fn is_same(one: &[Scored], other: &[Scored]) -> bool
    ensures { IsTrue result ↔ (map listed one.now ≡ map listed other.now) }
{
    one == other
}

/// Whether all lists are the same.
fn are_alike(lists: &[Vec<Scored>]) -> bool
    ensures { IsTrue result ↔ AreAlike (lists_of lists.now) }
{
    let Some((first, others)) = lists.split_first() else {
        return true;
    };
    let Some((second, _)) = others.split_first() else {
        return true;
    };
    is_same(first, second) && are_alike(others)
}

/// Writes the size and the members of each site, and whether all are the same, which it answers
/// too.
pub fn write_report<W: Write>(
    alloc: Global,
    lists: &[Vec<Scored>],
    out: &mut W,
) -> Result<bool, DrillFault>
    requires { length lists.now < 2 ^ 32 }
    ensures written { IfOk result
        (λ equal. Appends (W.contents out.old) (W.contents out.new)
        (report (lists_of lists.now) equal)) }
    ensures equal { IfOk result (λ equal. IsTrue equal ↔ AreAlike (lists_of lists.now)) }
{
    let equal = are_alike(lists);
    let mut text = Vec::new(alloc);
    add_sites(&mut text, 0, lists)?;
    let verdict: &[u8] = if equal { b"equal\n" } else { b"differ\n" };
    text.extend_from_slice(verdict)?;
    match out.write_all(&text) {
        Ok(()) => Ok(equal),
        Err(_) => Err(DrillFault::Device),
    }
}
