//! The two sites.
ghost use Rattle.std.specs.Prelude.{◌≡◌, IfSome};
ghost use Rattle.zq_dots.specs.declared.rule.Rule.{Rule as Rules};
ghost use Rattle.zq_spread.specs.Calls.{heaps_of};
ghost use Rattle.zq_spread.specs.Passes.{IsPassOf};

use std::alloc::Global;
use zq_dots::SiteNo;
use zq_spread::{Pass, Site};

/// How many heaps a site has.
pub const HEAPS: u8 = 4;

/// The site of this number, which has done nothing, a pass for its node, and one for its client.
pub fn opened(alloc: Global, number: SiteNo) -> Option<(Site, Pass, Pass)>
    ensures number { IfSome result (λ made. made.0.number ≡ number) }
    ensures heaps { IfSome result (λ made. heaps_of made.0 ≡ 4) }
    ensures rule { IfSome result (λ made. made.0.rule ≡ Rules.High) }
    ensures node { IfSome result (λ made. IsPassOf made.0 made.1) }
    ensures client { IfSome result (λ made. IsPassOf made.0 made.2) }
{
    let Ok((site, mut passes)) = Site::new(alloc, number, HEAPS, 2) else {
        return None;
    };
    let client = passes.pop()?;
    let node = passes.pop()?;
    Some((site, node, client))
}
