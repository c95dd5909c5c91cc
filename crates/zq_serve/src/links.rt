//! The ends of the links of sites.

ghost use Rattle.std.specs.Prelude.{IfOk, length, ◌≤◌};
ghost use Rattle.zq_serve.specs.SiteThreads.{AreLinksOf};

use std::alloc::{AllocError, Global};
use zq_peers::{Link, others};
use zq_posheap::Seeded;
use zq_session::LentSite;

/// Each site's end of its links to all others. A state that is heard there uses this hasher.
#[tactic(auto, unfolding(zq_model::specs::Sets::SITES))]
pub fn open_links(
    alloc: Global,
    sites: &[LentSite<'_>],
    hasher: Seeded,
) -> Result<Vec<Link>, AllocError>
    requires { length sites.now ≤ 64 }
    ensures { IfOk result (λ links. AreLinksOf sites.now links.items) }
{
    let count = sites.len() as u8;
    let mut links = Vec::new(alloc);
    for site in sites {
        let others = others(alloc, site.site.number(), count)?;
        links.push(Link { others, hasher })?;
    }
    Ok(links)
}
