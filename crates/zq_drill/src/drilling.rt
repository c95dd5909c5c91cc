//! A drill.

ghost use Rattle.std.specs.Io.KnownBytes.{Appends};
ghost use Rattle.std.specs.Prelude.{[], ◌≡◌, ◌++◌, ◌↔◌, ◌∷◌, IfOk, IsTrue, List, OnOk, length, map};
ghost use Rattle.zq_drill.specs.Limits.{site_count};
ghost use Rattle.zq_drill.specs.Listed.{AreListed};
ghost use Rattle.zq_drill.specs.Lists.{listed, lists_of};
ghost use Rattle.zq_drill.specs.SiteHandles.{places_of};
ghost use Rattle.zq_drill.specs.Report.{AreAlike, IsOutcome, report};
ghost use Rattle.zq_model.specs.Meaning.{Scored as Scoreds};

use crate::exchange::exchange_twice;
use crate::fault::DrillFault;
use crate::listing::{Scored, list_all};
use crate::opening::{SiteHandles, open_all};
use crate::report::write_report;
use crate::running::{DrillOptions, run_all};
use crate::site_handle::SiteHandle;
use std::alloc::{AllocError, Global};
use std::io::Write;
use std::sync::Wait;
use std::thread::Threads;

/// Appends a list.
fn append(lists: &mut Vec<Vec<Scored>>, list: Vec<Scored>) -> Result<(), AllocError>
    ensures { OnOk result (lists_of lists.new.items ≡ lists_of lists.old.items
        ++ map listed list.items ∷ []) }
{
    lists.push(list)?;
    Ok(())
}

/// Appends a list for each site: its members, with their scores.
fn list_each<R: Wait>(
    rt: &R,
    alloc: Global,
    handles: &mut [SiteHandle],
    lists: &mut Vec<Vec<Scored>>,
) -> Result<(), DrillFault>
    ensures { OnOk result ((added : List (List Scoreds))
        × (lists_of lists.new.items ≡ lists_of lists.old.items ++ added)
        × AreListed (places_of handles.old) added) }
{
    let Some((handle, others)) = handles.split_first_mut() else {
        return Ok(());
    };
    let list = list_all(rt, alloc, handle)?;
    append(lists, list)?;
    list_each(rt, alloc, others, lists)?;
    Ok(())
}

/// The members of each site, with their scores.
fn list_sites<R: Wait>(
    rt: &R,
    alloc: Global,
    handles: &mut [SiteHandle],
) -> Result<Vec<Vec<Scored>>, DrillFault>
    ensures { IfOk result (λ lists. AreListed (places_of handles.old) (lists_of lists.items)) }
{
    let mut lists = Vec::new(alloc);
    list_each(rt, alloc, handles, &mut lists)?;
    Ok(lists)
}

/// Writes what the three sites have, and answers whether they have the same.
fn finish<R: Wait, W: Write>(
    rt: &R,
    alloc: Global,
    handles: &mut [SiteHandle],
    out: &mut W,
) -> Result<bool, DrillFault>
    requires { length handles.old ≡ site_count }
    ensures { IfOk result (λ equal. (lists : List (List Scoreds))
        × AreListed (places_of handles.old) lists
        × (IsTrue equal ↔ AreAlike lists)
        × Appends (W.contents out.old) (W.contents out.new) (report lists equal)) }
{
    let lists = list_sites(rt, alloc, handles)?;
    write_report(alloc, &lists, out)
}

/// Drills three sites of 4 heaps, in memory alone: each is called so many times in a thread of its
/// own, by words drawn from a `Pcg32` of the seed plus its number, with ZADD, ZINCRBY, ZREM and
/// ZPOPNEAR on members `m0` to `m15` of the key `q`. Meanwhile the sites send one another frames
/// over links that lose some, double some and change their order, by words drawn from a `Pcg32` of
/// the seed plus 8 plus the sender's number. When all calls are done, each site's heaps are merged
/// into every other site, twice over.
///
/// Then it writes for each site the line `site N size S` and a line for each member, the score
/// first, in order; and in the end `equal` where all sites have the same members with the same
/// scores, else `differ`. It answers whether they have. What members they have depends on the
/// threads' turns.
///
/// # Errors
///
/// `Device` where the write failed, a thread could not be started, or a number is at its last
/// value; `NoMemory` where memory was refused. Where the write failed a part of the text may be
/// written, and else nothing is.
pub fn drill<R: Threads + Wait + Sync, W: Write>(
    rt: &R,
    alloc: Global,
    seed: u64,
    rounds: u32,
    out: &mut W,
) -> Result<bool, DrillFault>
    ensures { IfOk result (λ equal. (lists : List (List Scoreds))
        × IsOutcome lists equal
        × Appends (W.contents out.old) (W.contents out.new) (report lists equal)) }
{
    let SiteHandles {
        callers,
        links,
        mut last,
    } = open_all(alloc)?;
    run_all(rt, alloc, callers, links, DrillOptions { seed, rounds })?;
    exchange_twice(rt, alloc, &mut last)?;
    finish(rt, alloc, &mut last, out)
}
