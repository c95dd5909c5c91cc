//! The sites among which a site is one.
ghost use Rattle.std.specs.Prelude.{◌≡◌, ◌≤◌, IfOk};
ghost use Rattle.zq_model.specs.Sets as sets;
ghost use Rattle.zq_peers.specs.Sites.{others_below};

use std::alloc::{AllocError, Global};
use zq_dots::SiteNo;

/// The sites below this number, at most 64, but for this one, in rising order. Where there are none
/// it takes no memory.
#[tactic(auto, unfolding(zq_model::specs::Sets::SITES))]
pub fn others(alloc: Global, number: SiteNo, sites: u8) -> Result<Vec<SiteNo>, AllocError>
    requires { sites ≤ sets.SITES }
    ensures { IfOk result (λ v. v.items ≡ others_below number sites) }
{
    let mut others = Vec::new(alloc);
    for place in 0..sites {
        if let Some(site) = SiteNo::new(place)
            && site != number
        {
            others.push(site)?;
        }
    }
    Ok(others)
}
