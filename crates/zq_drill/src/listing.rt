//! The members of a site.

ghost use Rattle.std.specs.List.Sorted.{IsPermutation, IsSorted};
ghost use Rattle.std.specs.Prelude.{◌≡◌, ◌++◌, IfOk, List, OnOk, codes, length, map};
ghost use Rattle.zq_drill.specs.Listed.{AreCopied, IsListed, members_of};
ghost use Rattle.zq_drill.specs.Limits.{heap_count};
ghost use Rattle.zq_drill.specs.Lists.{listed};
ghost use Rattle.zq_drill.specs.SiteHandles.{site_of};
ghost use Rattle.zq_model.specs.Meaning.{scored_cmp};
ghost use Rattle.zq_shard.specs.Shard.{HeapImage, queue_at};

use crate::drill_site::HEAPS;
use crate::fault::DrillFault;
use crate::site_handle::SiteHandle;
use std::alloc::{AllocError, Global};
use std::sync::Wait;
use zq_shard::Shard;

/// A score and its member.
pub type Scored = (i128, Vec<u8>);

/// Appends the members of the key `q` in the heap, with their scores.
fn add_heap(alloc: Global, list: &mut Vec<Scored>, shard: &Shard) -> Result<(), AllocError>
    ensures { OnOk result (map listed list.new.items ≡ map listed list.old.items
        ++ queue_at shard.now (codes "q")) }
{
    let pairs = shard.in_order(alloc, b"q")?;
    for pair in &pairs {
        let member = Vec::from_slice(alloc, pair.1)?;
        list.push((pair.0, member)).map_err(AllocError::from)?;
    }
    Ok(())
}

/// Orders the members by score, and those of one score by their bytes.
fn order(list: &mut Vec<Scored>) -> Result<(), AllocError>
    ensures same { IsPermutation (map listed list.old.items) (map listed list.new.items) }
    ensures sorted { OnOk result (IsSorted scored_cmp (map listed list.new.items)) }
{
    list.sort()?;
    Ok(())
}

/// The members of the key `q` at a site, with their scores, a heap after the other. They are read
/// off copies of its heaps.
fn collect<R: Wait>(
    rt: &R,
    alloc: Global,
    handle: &mut SiteHandle,
) -> Result<Vec<Scored>, DrillFault>
    ensures drill_site { handle.new.drill_site ≡ handle.old.drill_site }
    ensures collected { IfOk result (λ list. (images : List HeapImage)
        × AreCopied (site_of handle.old) handle.old.pass handle.new.pass heap_count images
        × (map listed list.items ≡ members_of images)) }
{
    let mut list = Vec::new(alloc);
    for heap in 0..HEAPS {
        let shard = handle.state(rt, alloc, heap)?;
        add_heap(alloc, &mut list, &shard)?;
    }
    Ok(list)
}

/// The members of the key `q` at a site, with their scores, by score and then by bytes.
pub fn list_all<R: Wait>(
    rt: &R,
    alloc: Global,
    handle: &mut SiteHandle,
) -> Result<Vec<Scored>, DrillFault>
    ensures drill_site { handle.new.drill_site ≡ handle.old.drill_site }
    ensures listed { IfOk result
        (λ list. IsListed (site_of handle.old) handle.old.pass handle.new.pass
        (map listed list.items)) }
{
    let mut list = collect(rt, alloc, handle)?;
    order(&mut list)?;
    Ok(list)
}
