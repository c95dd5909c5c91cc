//! Merges of which a growth is refused.
ghost use Rattle.std.specs.Prelude.{◌≡◌};
ghost use Rattle.zq_spread.specs.Calls.{heaps_of};
ghost use Rattle.zq_spread.specs.Passes.{IsPassOf};

use crate::books::{is_book, recorded};
use crate::ended::{Ended, Tried, judge};
use crate::shards::{OURS, THEIRS, is_written, put_by, together, written};
use crate::sites::is_answered;
use std::alloc::Global;
use std::sync::Wait;
use zq_journal::Book;
use zq_merge::{StateFault, read_state};
use zq_posheap::Seeded;
use zq_shard::Shard;
use zq_spread::{Pass, Site};

fn merged_in_shard(alloc: Global, ours: &mut Shard, theirs: &Shard) -> Tried {
    match ours.merge(alloc, theirs) {
        Ok(()) => Tried::Done,
        Err(zq_shard::MergeFault::NoMemory) => Tried::Refused,
        Err(_) => Tried::Other,
    }
}

/// How a merge ends of a heap with these bytes, which has those that are owed in the end.
fn shard_merges(
    alloc: Global,
    ours: &mut Shard,
    theirs: &Shard,
    before: &[u8],
    owed: &[u8],
) -> Option<Ended> {
    let tried = merged_in_shard(alloc, ours, theirs);
    let kept = is_written(alloc, ours, before)?;
    if tried == Tried::Refused {
        merged_in_shard(alloc, ours, theirs);
    }
    Some(judge(tried, kept, is_written(alloc, ours, owed)?))
}

/// A heap merges another one.
pub fn shard(alloc: Global) -> Option<Ended> {
    let mut ours = put_by(alloc, 0, &OURS)?;
    let theirs = put_by(alloc, 1, &THEIRS)?;
    let before = written(alloc, &ours)?;
    let owed = together(alloc)?;
    shard_merges(alloc, &mut ours, &theirs, &before, &owed)
}

fn merged_in_book(alloc: Global, ours: &mut Book, theirs: &Shard) -> Tried {
    let stamp = ours.stamp();
    match ours.merge(alloc, stamp, theirs) {
        Ok(()) => Tried::Done,
        Err(zq_journal::MergeFault::NoMemory) => Tried::Refused,
        Err(_) => Tried::Other,
    }
}

/// How a merge ends of a book whose state has these bytes, which has those that are owed, and no
/// records, in the end.
fn book_merges(
    alloc: Global,
    ours: &mut Book,
    theirs: &Shard,
    before: &[u8],
    owed: &[u8],
) -> Option<Ended> {
    let tried = merged_in_book(alloc, ours, theirs);
    let kept = is_book(alloc, ours, before, OURS.len())?;
    if tried == Tried::Refused {
        merged_in_book(alloc, ours, theirs);
    }
    Some(judge(tried, kept, is_book(alloc, ours, owed, 0)?))
}

/// A book merges a heap.
pub fn book(alloc: Global) -> Option<Ended> {
    let mut ours = recorded(alloc)?;
    let theirs = put_by(alloc, 1, &THEIRS)?;
    let before = written(alloc, ours.shard())?;
    let owed = together(alloc)?;
    book_merges(alloc, &mut ours, &theirs, &before, &owed)
}

fn merged_in_site<R: Wait>(
    rt: &R,
    alloc: Global,
    site: &Site,
    pass: &mut Pass,
    theirs: &Shard,
) -> Tried
    requires { IsPassOf site.now pass.old }
    ensures { IsPassOf site.now pass.new }
{
    match site.merge(rt, alloc, pass, theirs) {
        Ok(()) => Tried::Done,
        Err(zq_journal::MergeFault::NoMemory) => Tried::Refused,
        Err(_) => Tried::Other,
    }
}

/// Whether heap 0 of a site has these bytes.
pub fn is_at_site<R: Wait>(
    rt: &R,
    alloc: Global,
    site: &Site,
    pass: &mut Pass,
    bytes: &[u8],
) -> Option<bool>
    requires pass { IsPassOf site.now pass.old }
    requires heaps { heaps_of site.now ≡ 2 }
    ensures { IsPassOf site.now pass.new }
{
    let shard = site.state(rt, alloc, pass, 0).ok()?;
    is_written(alloc, &shard, bytes)
}

/// How a merge ends at a site whose heap 0 has these bytes, which has those that are owed in the
/// end.
fn site_merges<R: Wait>(
    rt: &R,
    alloc: Global,
    site: &Site,
    pass: &mut Pass,
    theirs: &Shard,
    before: &[u8],
    owed: &[u8],
) -> Option<Ended>
    requires pass { IsPassOf site.now pass.old }
    requires heaps { heaps_of site.now ≡ 2 }
    ensures { IsPassOf site.now pass.new }
{
    let tried = merged_in_site(rt, alloc, site, pass, theirs);
    let kept = is_at_site(rt, alloc, site, pass, before)?;
    if tried == Tried::Refused {
        merged_in_site(rt, alloc, site, pass, theirs);
    }
    let is_owed = is_at_site(rt, alloc, site, pass, owed)?;
    Some(judge(tried, kept, is_owed))
}

/// The bytes of the heap of site 0.
fn ours(alloc: Global) -> Option<Vec<u8>> {
    let ours = put_by(alloc, 0, &OURS)?;
    written(alloc, &ours)
}

/// A site that has done nothing puts its members there, and merges a heap of another site.
pub fn met<R: Wait>(rt: &R, alloc: Global, site: &Site, pass: &mut Pass) -> Option<Ended>
    requires pass { IsPassOf site.now pass.old }
    requires heaps { heaps_of site.now ≡ 2 }
    ensures { IsPassOf site.now pass.new }
{
    if !is_answered(rt, alloc, site, pass, "ZADD q 1 a 2 c", ":2\r\n")? {
        return None;
    }
    let theirs = put_by(alloc, 1, &THEIRS)?;
    let before = ours(alloc)?;
    let owed = together(alloc)?;
    site_merges(rt, alloc, site, pass, &theirs, &before, &owed)
}

/// What the reading of a state said, which has to have these bytes again.
fn read(alloc: Global, bytes: &[u8]) -> Option<Tried> {
    match read_state(alloc, bytes, Seeded::new(1)) {
        Ok(shard) => Some(if is_written(alloc, &shard, bytes)? {
            Tried::Done
        } else {
            Tried::Other
        }),
        Err(StateFault::NoMemory) => Some(Tried::Refused),
        Err(_) => Some(Tried::Other),
    }
}

/// A state is read from its bytes, and once more where there was no memory.
pub fn state(alloc: Global) -> Option<Ended> {
    let bytes = together(alloc)?;
    let tried = read(alloc, &bytes)?;
    let again = match tried {
        Tried::Refused => read(alloc, &bytes)?,
        other => other,
    };
    Some(judge(tried, true, again == Tried::Done))
}
