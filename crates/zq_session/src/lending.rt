//! Sites that are made, lent to what works with them, and dropped. So who works with sites moves
//! them on alone, and drops none.

ghost use Rattle.std.specs.List.{AllZip};
ghost use Rattle.std.specs.Prelude.{All, IfOk, List, length, replicate, ◌-◌, ◌<◌, ◌≡◌};
ghost use Rattle.zq_session.specs.LentSites.{AreOwn, IsLentBy, IsMadeBy, IsSpareOf, sites_of};
ghost use Rattle.zq_session.specs.declared.site_plan.SitePlan.{SitePlan as Plans};
ghost use Rattle.zq_spread.specs.Passes.{IsPassOf};

use crate::lent_site::LentSite;
use crate::made_site::MadeSite;
use crate::site_pass::SitePass;
use crate::site_plan::SitePlan;
use std::alloc::{AllocError, Global};
use std::mem;
use zq_posheap::Seeded;
use zq_spread::{Pass, Site, SiteFault};

/// Makes the sites of these plans, one for each, whose keys and members use the hasher. They are
/// closed by [`close_sites`], so that who works with them has no drop of a site.
pub fn open_sites(
    alloc: Global,
    plans: &[SitePlan],
    hasher: Seeded,
) -> Result<Vec<MadeSite>, AllocError>
    ensures { IfOk result (λ made. AllZip IsMadeBy plans.now made.items) }
{
    make_sites(alloc, plans, hasher)
}

/// Lends the sites of these plans, which have done nothing. The loan is ended by [`end_loan`].
///
/// `Err` where there was no memory. Then nobody works with the sites any more.
pub fn lend_sites<'a>(
    alloc: Global,
    plans: &[SitePlan],
    made: &'a mut [MadeSite],
) -> Result<Vec<LentSite<'a>>, AllocError>
    requires { AllZip IsMadeBy plans.now made.old }
    ensures { IfOk result (λ lent. AllZip IsLentBy plans.now lent.items) }
{
    lend_all(alloc, made)
}

/// Ends a loan.
pub fn end_loan(lent: Vec<LentSite<'_>>) {
    drop(lent);
}

/// Drops the sites.
pub fn close_sites(made: Vec<MadeSite>) {
    drop(made);
}

/// Makes the sites of these plans.
fn make_sites(
    alloc: Global,
    plans: &[SitePlan],
    hasher: Seeded,
) -> Result<Vec<MadeSite>, AllocError>
    ensures { IfOk result (λ made. AllZip IsMadeBy plans.now made.items) }
{
    let mut made = Vec::new(alloc);
    for plan in plans {
        let one = make_site(alloc, *plan, hasher)?;
        made.push(one)?;
    }
    Ok(made)
}

/// Makes the site of a plan.
fn make_site(alloc: Global, plan: SitePlan, hasher: Seeded) -> Result<MadeSite, AllocError>
    ensures { IfOk result (IsMadeBy plan) }
{
    let passes = plan.servers + 2;
    match Site::new_within(
        alloc,
        plan.number,
        plan.heaps,
        passes,
        plan.rule,
        hasher,
        plan.tails,
    ) {
        Ok((site, passes)) => Ok(MadeSite { site, passes }),
        Err(SiteFault::NoMemory) => Err(AllocError),
        Err(SiteFault::Bounds) => unreachable!(),
    }
}

/// Lends the sites.
fn lend_all<'a>(alloc: Global, made: &'a mut [MadeSite]) -> Result<Vec<LentSite<'a>>, AllocError>
    requires { All AreOwn made.old }
    ensures { IfOk result (λ lent. (plans : List Plans) → AllZip IsMadeBy plans made.old →
        AllZip IsLentBy plans lent.items) }
{
    let mut lent = Vec::new(alloc);
    let rest = made.iter_mut();
    for one in rest {
        let site = lend(alloc, one)?;
        lent.push(site)?;
    }
    Ok(lent)
}

/// Lends a site, whose last two passes are those to spare.
fn lend<'a>(alloc: Global, made: &'a mut MadeSite) -> Result<LentSite<'a>, AllocError>
    requires { AreOwn made.old }
    ensures { IfOk result (λ lent. (plan : Plans) → IsMadeBy plan made.old → IsLentBy plan lent) }
{
    let MadeSite { site, passes } = made;
    let site: &'a Site = site;
    let mut passes = mem::replace(passes, Vec::new(alloc));
    let spare = last_of(site, &mut passes);
    let other = last_of(site, &mut passes);
    let passes = with_site(alloc, site, passes)?;
    Ok(LentSite {
        site,
        passes,
        spare,
        other,
    })
}

/// Takes the last of the passes, with its site.
fn last_of<'a>(site: &'a Site, passes: &mut Vec<Pass>) -> Option<SitePass<'a>>
    requires { All (IsPassOf site.now) passes.old.items }
    ensures own { All (IsPassOf site.now) passes.new.items }
    ensures fewer { length passes.new.items ≡ length passes.old.items - 1 }
    ensures spare { 0 < length passes.old.items → IsSpareOf site.now result }
{
    match passes.pop() {
        Some(pass) => Some(SitePass::new(site, pass)),
        None => None,
    }
}

/// Each of the passes with its site.
fn with_site<'a>(
    alloc: Global,
    site: &'a Site,
    passes: Vec<Pass>,
) -> Result<Vec<SitePass<'a>>, AllocError>
    requires { All (IsPassOf site.now) passes.items }
    ensures { IfOk result
        (λ own. sites_of own.items ≡ replicate (length passes.items) site.now) }
{
    let mut own = Vec::new(alloc);
    for pass in passes {
        own.push(SitePass::new(site, pass))?;
    }
    Ok(own)
}
