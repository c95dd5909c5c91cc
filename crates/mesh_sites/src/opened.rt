//! Sites that have done nothing.
ghost use Rattle.std.specs.Prelude.{All, IfOk};
ghost use Rattle.mesh_sites.specs.NodeFacts.{passes_fact};
ghost use Rattle.zq_spread.specs.Passes.{IsPassOf};

use crate::fault::StationFault;
use crate::plan::{HEAPS, SitePlan};
use std::alloc::Global;
use std::mem;
use zq_dots::SiteNo;
use zq_replica::Logs;
use zq_spread::{Pass, Site};

/// A site has a pass for its clients and one for its node.
const PASSES: usize = 2;

/// A site, and where what it makes goes for its peers.
#[derive(Drop)]
pub(crate) struct Ground {
    pub(crate) site: Site,
    pub(crate) logs: Logs,
}

/// A site that has done nothing, as it is planned, with its passes.
#[derive(Drop)]
pub struct Opened {
    plan: SitePlan,
    ground: Ground,
    passes: Vec<Pass>,
    ghost passes_are: { All (IsPassOf ground.site) passes.items } by { passes_fact ground.site passes.items },
}

/// The sites of these plans.
pub fn open_all(alloc: Global, sites: &[SitePlan]) -> Result<Vec<Opened>, StationFault> {
    let mut opened = Vec::new(alloc);
    for site in sites {
        let made = Opened::new(alloc, site)?;
        opened.reserve(1)?;
        opened.push_reserved(made);
    }
    Ok(opened)
}

/// The site of this number, with its passes.
fn made(alloc: Global, number: SiteNo) -> Result<(Site, Vec<Pass>), StationFault>
    ensures passes { IfOk result (λ made. All (IsPassOf made.0) made.1.items) }
{
    match Site::new(alloc, number, HEAPS, PASSES) {
        Ok(made) => Ok(made),
        Err(_) => Err(StationFault::NoMemory),
    }
}

impl Opened {
    /// The site of a plan.
    fn new(alloc: Global, plan: &SitePlan) -> Result<Opened, StationFault> {
        let logs = Logs::new(alloc, HEAPS, plan.log)?;
        let (site, passes) = made(alloc, plan.number)?;
        Ok(Opened {
            plan: *plan,
            ground: Ground { site, logs },
            passes,
        })
    }

    /// What it is to be.
    pub(crate) fn plan(&self) -> SitePlan {
        self.plan
    }

    /// The site with its logs, and its passes, which it gives away.
    pub(crate) fn take(&mut self, alloc: Global) -> (&Ground, Vec<Pass>)
        ensures { All (IsPassOf result.0.now.site) result.1.items }
    {
        let passes = mem::replace(&mut self.passes, Vec::new(alloc));
        (&self.ground, passes)
    }
}
