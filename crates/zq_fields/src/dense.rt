//! Version vectors with a counter for each of the first eight sites.

ghost use Rattle.std.specs.Prelude.{◌≡◌, ◌++◌, IfOk};
ghost use Rattle.zq_model.specs.Sets as sets;
ghost use Rattle.zq_fields.specs.Reading as read;
ghost use Rattle.zq_fields.specs.Spelling as spell;
ghost use Rattle.zq_fields.specs.Vectors as vectors;

use crate::fault::PartFault;
use crate::limit::limit;
use crate::range::{read_number_in, site_of};
use zq_dots::{SiteNo, Vector};

/// The number of sites that a dense vector has a counter for.
pub const DENSE_SITES: u8 = 8;

/// Takes a counter of eight bytes for each of the sites 0 to 7, at most 281474976710655. Where the
/// vector is what an operation of the site `own` has seen, that site's counter is less, since the
/// operation's own is the next.
#[tactic(auto, unfolding(crate::specs::Reading::dense_at, crate::specs::Spelling::dense))]
pub fn read_dense(whole: usize, own: Option<SiteNo>, bytes: &mut &[u8]) -> Result<Vector, PartFault>
    ensures exact { read.Gives (λ x. (x, bytes.new.now)) result
        (read.dense_at whole own bytes.old.now) }
    ensures found { IfOk result (λ x. bytes.old.now ≡ spell.dense x ++ bytes.new.now) }
    ensures dense { IfOk result (λ x. vectors.IsDense x) }
    ensures counters { IfOk result (λ x. sets.IsCounters x) }
    ensures within { IfOk result (λ x. vectors.IsWithinLimits own x) }
{
    let mut vector = Vector::new();
    for number in 0..DENSE_SITES {
        let site = site_of(number);
        let counter = read_number_in(whole, bytes, 0, limit(&own, site))?;
        vector.set(site, counter);
    }
    Ok(vector)
}
