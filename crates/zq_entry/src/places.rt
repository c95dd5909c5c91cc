//! Lists of additions by rising site.

ghost use Rattle.std.specs.Prelude.{◌≡◌, ◌≢◌, ◌<◌, IsTrue, OnErr, OnOk, false, length, slice_index_or};
ghost use Rattle.zq_model.specs.Sets as sets;
ghost use Rattle.zq_model.specs.Rows.{OfSite};
ghost use Rattle.zq_entry.specs.Sparse.{place_in, placed};

use crate::addition::Addition;
use std::alloc::AllocError;
use zq_dots::SiteNo;

/// The place of the first addition of this site or a later one, or the length.
fn place_of(additions: &[Addition], site: SiteNo) -> usize
    ensures place { result ≡ place_in site additions.now }
    ensures site { site < sets.SITES }
{
    let number = site.value();
    additions
        .iter()
        .position(|addition| number <= addition.dot().site.value())
        .unwrap_or(additions.len())
}

/// Whether the addition of this site is at this place.
fn is_at(additions: &[Addition], at: usize, site: SiteNo) -> bool
    ensures there { IsTrue result → (at < length additions.now)
        × ((d : OfSite) → (slice_index_or additions.now at d).0 ≡ site) }
    ensures not_there { result ≡ false → at < length additions.now → (d : OfSite) →
        (slice_index_or additions.now at d).0 ≢ site }
{
    additions
        .get(at)
        .is_some_and(|addition| addition.dot().site == site)
}

/// Makes this the addition of its site.
pub fn place(additions: &mut Vec<Addition>, addition: Addition) -> Result<(), AllocError>
    ensures placed { OnOk result
        (additions.new.items ≡ placed addition.0 addition.1 additions.old.items) }
    ensures site { addition.0 < sets.SITES }
    ensures refused { OnErr result (additions.new.items ≡ additions.old.items) }
{
    let site = addition.dot().site;
    let at = place_of(additions, site);
    if is_at(additions, at, site) {
        additions[at] = addition;
    } else {
        additions.insert(at, addition)?;
    }
    Ok(())
}
