//! Laws of what peers are asked to relay. The functions do nothing: each stands for its contract.

ghost use Rattle.zq_follow.specs.RouteLaws as laws;

/// Of a site that has no link here the next of the peers that have a link to it is asked, and no
/// other; where there is none, it is far. Nothing is asked of this site itself, or of one that has
/// a link here.
pub fn each_site_is_asked_of_one()
    ensures one { laws.OneIsAsked }
    ensures nearest { laws.NearestIsAsked }
    ensures remote { laws.NoneIsAskedInVain }
    ensures far { laws.FarIsBeyondAll }
    ensures all { laws.NoneIsForgotten }
{}
