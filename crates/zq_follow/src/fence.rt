//! How a site finds out that another run used its number.

ghost use Rattle.std.specs.Prelude.{IsTrue, slice_index, ◌<◌, ◌↔◌};

use zq_dots::{SiteNo, Vector};

/// Whether this site, `own`, did not make all operations of its number of which a peer knows so
/// many, where this is what it has itself: then another run made the others. The site's vector has
/// to be read after the peer's frame came.
pub fn is_used_by_others(own: SiteNo, known: u64, vector: &Vector) -> bool
    ensures { IsTrue result ↔ (slice_index vector.now own < known) }
{
    vector.get(own) < known
}

/// Whether a site that knows so many operations of another, which said that it began with so many,
/// knows that the other's number was used by another run: it has to be the first time that this run
/// comes, while the operations came from an earlier one.
pub fn began_with_fewer(site: SiteNo, begun: u64, vector: &Vector) -> bool
    ensures { IsTrue result ↔ (begun < slice_index vector.now site) }
{
    begun < vector.get(site)
}
