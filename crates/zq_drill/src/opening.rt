//! The sites of a drill.

ghost use Rattle.std.specs.Arc.{arc_value};
ghost use Rattle.std.specs.Prelude.{◌≡◌, ◌<◌, ◌++◌, ◌∷◌, [], All, IfOk, OnOk, Some, length, slice_get};
ghost use Rattle.zq_drill.specs.Limits.{site_count};
ghost use Rattle.zq_drill.specs.SiteHandles.{numbers_of, places_of, site_of};
ghost use Rattle.zq_drill.specs.declared.site_handle.SiteHandle.{SiteHandle as Posted};
ghost use Rattle.zq_spread.specs.Passes.{IsPassOf};

use crate::drill_site::{DrillSite, HEAPS, SITES};
use crate::fault::DrillFault;
use crate::site_handle::SiteHandle;
use std::alloc::{AllocError, Global};
use std::sync::Arc;
use zq_dots::SiteNo;
use zq_spread::{Pass, Site, SiteFault};

/// How many passes a site has: one to call, one to hear frames, and one by which the sites meet at
/// the end.
const PASSES: usize = 3;

/// The handles of the sites: in each list one of each site, in the order of their numbers.
#[derive(Drop)]
pub struct SiteHandles {
    pub callers: Vec<SiteHandle>,
    pub links: Vec<SiteHandle>,
    pub last: Vec<SiteHandle>,
}

/// Three sites that have done nothing, with the numbers 0, 1 and 2.
pub fn open_all(alloc: Global) -> Result<SiteHandles, DrillFault>
    ensures { IfOk result (λ handles. numbers_of (places_of handles.last.items) ≡ 0 ∷ 1 ∷ 2 ∷ []) }
{
    let mut handles = SiteHandles {
        callers: Vec::new(alloc),
        links: Vec::new(alloc),
        last: Vec::new(alloc),
    };
    for number in 0..SITES {
        let (drill_site, passes) = open(alloc, site_at(number))?;
        let three = share_site(alloc, &drill_site, passes)?;
        append_handles(&mut handles, three)?;
    }
    Ok(handles)
}

/// The site of this number.
fn site_at(number: u8) -> SiteNo
    requires { number < site_count }
    ensures { result ≡ number }
{
    match SiteNo::new(number) {
        Some(site) => site,
        None => unreachable!(),
    }
}

/// A site of this number that has done nothing, and its passes.
fn open(alloc: Global, number: SiteNo) -> Result<(Arc<DrillSite>, Vec<Pass>), DrillFault>
    ensures passes { IfOk result (λ made. length made.1.items ≡ PASSES) }
    ensures own { IfOk result (λ made. All (IsPassOf (arc_value made.0).site) made.1.items) }
    ensures number { IfOk result (λ made. (arc_value made.0).site.number ≡ number) }
{
    let (site, passes) = match Site::new(alloc, number, HEAPS, PASSES) {
        Ok(made) => made,
        Err(SiteFault::NoMemory) => return Err(DrillFault::NoMemory),
        Err(SiteFault::Bounds) => unreachable!(),
    };
    let drill_site = Arc::new(alloc, DrillSite { number, site }).map_err(AllocError::from)?;
    Ok((drill_site, passes))
}

/// A handle for each of the passes.
fn share_site(
    alloc: Global,
    drill_site: &Arc<DrillSite>,
    passes: Vec<Pass>,
) -> Result<Vec<SiteHandle>, AllocError>
    requires { All (IsPassOf (arc_value drill_site.now).site) passes.items }
    ensures number { IfOk result (λ handles. length handles.items ≡ length passes.items) }
    ensures site { IfOk result
        (λ handles. All (λ handle. site_of handle ≡ (arc_value drill_site.now).site)
        handles.items) }
{
    let mut handles = Vec::new(alloc);
    for pass in passes {
        let handle = SiteHandle {
            drill_site: Arc::try_clone(drill_site)?,
            pass,
        };
        handles.push(handle)?;
    }
    Ok(handles)
}

/// Appends a site's three handles, one to each list.
fn append_handles(handles: &mut SiteHandles, mut three: Vec<SiteHandle>) -> Result<(), AllocError>
    requires { length three.items ≡ PASSES }
    ensures { OnOk result ((last : Posted) × (slice_get three.items 0 ≡ Some last)
        × (handles.new.last.items ≡ handles.old.last.items ++ last ∷ [])) }
{
    let (Some(caller), Some(link), Some(last)) = (three.pop(), three.pop(), three.pop()) else {
        unreachable!()
    };
    handles.callers.push(caller)?;
    handles.links.push(link)?;
    handles.last.push(last)?;
    Ok(())
}
