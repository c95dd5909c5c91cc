//! Parts that states have in common with other frames, with the state's faults.

ghost use Rattle.std.specs.Int.{to_be_bytes, w64};
ghost use Rattle.std.specs.Prelude.{◌≡◌, ◌<◌, ◌≤◌, ◌++◌, ◌∷◌, IfErr, IfOk};
ghost use Rattle.zq_merge.specs.Answer.{Gives};
ghost use Rattle.zq_merge.specs.Reading as read;
ghost use Rattle.zq_merge.specs.Refused.{IsOfBytes};
ghost use Rattle.zq_model.specs.Sets as sets;

use crate::fault::StateFault;
use zq_dots::SiteNo;
use zq_fields::{PartFault, read_site, read_u64};

/// What was read, with the state's fault for the part's.
pub(crate) fn of_part<X>(part: Result<X, PartFault>) -> Result<X, StateFault>
    ensures exact { result ≡ read.of_part part }
    ensures of_bytes { IfErr result IsOfBytes }
{
    match part {
        Ok(x) => Ok(x),
        Err(fault) => Err(StateFault::from(fault)),
    }
}

/// Takes a site from `low` on and below `past`. One below `low` is out of order.
#[tactic(auto, unfolding(crate::specs::Reading::site_at))]
pub(crate) fn read_rising_site(
    whole: usize,
    bytes: &mut &[u8],
    low: u8,
    past: u8,
) -> Result<SiteNo, StateFault>
    requires { past ≤ sets.SITES }
    ensures exact { Gives (λ x. (x, bytes.new.now)) result
        (read.site_at whole past low bytes.old.now) }
    ensures of_bytes { IfErr result IsOfBytes }
    ensures found { IfOk result (λ x. bytes.old.now ≡ x ∷ bytes.new.now) }
    ensures low { IfOk result (λ x. low ≤ x) }
    ensures past { IfOk result (λ x. x < past) }
{
    let site = of_part(read_site(whole, bytes, 0, past))?;
    if site.value() < low {
        return Err(StateFault::Order);
    }
    Ok(site)
}

/// Takes a counter of eight bytes, 1 to `last`.
#[tactic(auto, unfolding(crate::specs::Reading::counter_at))]
pub(crate) fn read_counter(bytes: &mut &[u8], last: u64) -> Result<u64, StateFault>
    ensures exact { Gives (λ x. (x, bytes.new.now)) result (read.counter_at last bytes.old.now) }
    ensures of_bytes { IfErr result IsOfBytes }
    ensures found { IfOk result (λ x. bytes.old.now ≡ to_be_bytes w64 x ++ bytes.new.now) }
    ensures low { IfOk result (λ x. 1 ≤ x) }
    ensures last { IfOk result (λ x. x ≤ last) }
{
    let Some((counter, rest)) = read_u64(bytes) else {
        return Err(StateFault::Short);
    };
    if counter < 1 || last < counter {
        return Err(StateFault::Dot);
    }
    *bytes = rest;
    Ok(counter)
}
