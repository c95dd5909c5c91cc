//! What two vectors say of some sites.

ghost use Rattle.std.specs.Prelude.{◌≡◌, ◌≤◌};
ghost use Rattle.zq_follow.specs.Counts.{beyond, beyond_at, is_short, raised};
ghost use Rattle.zq_model.specs.Sets.{LAST};

use crate::site_set::SiteSet;
use crate::sites::{PAST, site_of};
use zq_dots::{Dot, SiteNo, Vector};

/// How many operations of these sites the one knows beyond the other: fewer than 2^54.
#[tactic(auto, unfolding(zq_model::specs::Sets::SITES))]
pub fn beyond(sites: &SiteSet, one: &Vector, other: &Vector) -> u64
    ensures { result ≡ beyond sites.now one.now other.now }
{
    let mut count = 0;
    for number in 0..PAST {
        count += beyond_at(sites, one, other, site_of(number));
    }
    count
}

/// How many operations of the site the one knows beyond the other, if the site is one of these.
#[tactic(auto, unfolding(zq_model::specs::Sets::LAST))]
fn beyond_at(sites: &SiteSet, one: &Vector, other: &Vector, site: SiteNo) -> u64
    ensures same { result ≡ beyond_at sites.now one.now other.now site }
    ensures most { result ≤ LAST }
{
    if sites.has(site) {
        one.get(site).saturating_sub(other.get(site))
    } else {
        0
    }
}

/// Whether the one knows fewer operations than the other of some of these sites.
#[tactic(auto, unfolding(zq_model::specs::Sets::SITES))]
pub(crate) fn is_short(sites: &SiteSet, one: &Vector, other: &Vector) -> bool
    ensures { result ≡ is_short sites.now one.now other.now }
{
    for number in 0..PAST {
        let site = site_of(number);
        if sites.has(site) && one.get(site) < other.get(site) {
            return true;
        }
    }
    false
}

/// Comes to know the operation of this dot, and those before it.
pub(crate) fn raise(vector: &mut Vector, dot: &Dot)
    requires { dot.now.n ≤ LAST }
    ensures { vector.new ≡ raised vector.old dot.now.site dot.now.n }
{
    vector.set(dot.site, vector.get(dot.site).max(dot.n));
}
