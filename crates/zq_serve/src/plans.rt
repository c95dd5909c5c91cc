//! How sites are made.

ghost use Rattle.std.specs.Prelude.{IfOk, ◌<◌, ◌≡◌};
ghost use Rattle.zq_serve.specs.Plans.{ArePlansOf};

use std::alloc::{AllocError, Global};
use zq_dots::{Rule, SiteNo};
use zq_journal::TailLimits;
use zq_session::SitePlan;
use zq_settings::{HeapCount, Settings, WorkerCount};

/// How a site of this number is made: with a pass for each of its workers, and with these limits
/// for its heaps' tails.
pub fn plan_of(
    number: SiteNo,
    heaps: HeapCount,
    rule: Rule,
    workers: WorkerCount,
    tails: TailLimits,
) -> SitePlan
    ensures number { result.number ≡ number }
    ensures heaps { result.heaps ≡ heaps }
    ensures rule { result.rule ≡ rule }
    ensures servers { result.servers ≡ workers }
    ensures tails { result.tails ≡ tails }
{
    let heaps = heaps.value() as u8;
    let servers = workers.value() as usize;
    SitePlan {
        number,
        heaps,
        rule,
        servers,
        tails,
    }
}

/// How the sites of the settings are made. The tails of their heaps have the standard limits.
pub fn plans_of(alloc: Global, settings: &Settings) -> Result<Vec<SitePlan>, AllocError>
    ensures { IfOk result (λ plans. ArePlansOf settings.now plans.items) }
{
    let mut plans = Vec::new(alloc);
    let sites = settings.ports.as_slice().len() as u8;
    for place in 0..sites {
        let plan = plan_of(
            site_at(place),
            settings.heaps,
            settings.rule,
            settings.workers,
            TailLimits::standard(),
        );
        plans.push(plan)?;
    }
    Ok(plans)
}

/// The site of a place among the ports.
fn site_at(place: u8) -> SiteNo
    requires { place < 64 }
    ensures { result ≡ place }
{
    match SiteNo::new(place) {
        Some(site) => site,
        None => unreachable!(),
    }
}
