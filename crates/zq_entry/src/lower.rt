//! Which of two sites comes first.

ghost use Rattle.std.specs.Prelude.{◌≡◌};
ghost use Rattle.zq_entry.specs.Sparse.{lower};

use zq_dots::SiteNo;

/// The lower of two sites, where there are two.
pub fn lower_site(mine: Option<SiteNo>, theirs: Option<SiteNo>) -> Option<SiteNo>
    ensures { result ≡ lower mine theirs }
{
    match (mine, theirs) {
        (Some(my_site), Some(their_site)) if their_site.value() < my_site.value() => theirs,
        (Some(_), _) => mine,
        (None, _) => theirs,
    }
}
