//! What counts as sent once a probe was answered.

ghost use Rattle.std.specs.Prelude.{◌≡◌};
ghost use Rattle.zq_follow.specs.Sent.{is_lost, settled, settled_at};

use crate::sites::{PAST, site_of};
use zq_dots::Vector;

/// What counts as sent, where this was sent and that before the probe, and the peer has what was
/// heard: where it has less of a site than was sent before the probe, no more than it has.
#[tactic(auto, unfolding(zq_model::specs::Sets::SITES))]
pub(crate) fn settled(sent: &Vector, probed: &Vector, heard: &Vector) -> Vector
    ensures { result ≡ settled sent.now probed.now heard.now }
{
    let mut settled = Vector::new();
    for number in 0..PAST {
        let site = site_of(number);
        settled.set(
            site,
            settled_at(sent.get(site), probed.get(site), heard.get(site)),
        );
    }
    settled
}

/// What counts as sent of one site.
fn settled_at(sent: u64, probed: u64, heard: u64) -> u64
    ensures { result ≡ settled_at sent probed heard }
{
    if heard < probed {
        sent.min(heard)
    } else {
        sent.max(heard)
    }
}

/// Whether some of what was sent before the probe was lost, and counts as sent still.
#[tactic(auto, unfolding(zq_model::specs::Sets::SITES))]
pub(crate) fn is_lost(sent: &Vector, probed: &Vector, heard: &Vector) -> bool
    ensures { result ≡ is_lost sent.now probed.now heard.now }
{
    for number in 0..PAST {
        let site = site_of(number);
        let has = heard.get(site);
        if has < probed.get(site) && has < sent.get(site) {
            return true;
        }
    }
    false
}
