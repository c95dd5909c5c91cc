//! The join of two lists of additions by rising site.

ghost use Rattle.std.specs.Prelude.{◌≡◌, IfOk, IfSome, option_map};
ghost use Rattle.zq_model.specs.Entry.{join_site};
ghost use Rattle.zq_model.specs.Sets as sets;
ghost use Rattle.zq_entry.specs.Changes.{joined_additions};
ghost use Rattle.zq_entry.specs.Lent.{lent};
ghost use Rattle.zq_model.specs.Sparse.{AreBySite};
ghost use Rattle.zq_entry.specs.Sums.{AreSums};

use crate::addition::Addition;
use crate::addition_ref::AdditionRef;
use crate::additions::Additions;
use crate::lower::lower_site;
use std::alloc::{AllocError, Global};
use zq_dots::{SiteNo, Vector};

/// The join of what two sides have, by rising site.
pub fn merged(
    alloc: Global,
    mine: &Vector,
    my_additions: &Additions,
    theirs: &Vector,
    their_additions: &Additions,
) -> Result<Additions, AllocError>
    requires mine { AreBySite 0 sets.SITES my_additions.now }
    requires theirs { AreBySite 0 sets.SITES their_additions.now }
    ensures { IfOk result
        (λ new. new ≡ joined_additions mine.now theirs.now my_additions.now their_additions.now) }
{
    let mut merged = Additions::new();
    let (mut my_place, mut their_place) = (0, 0);
    while let Some(site) = lower_site(
        my_additions.site_at(my_place),
        their_additions.site_at(their_place),
    ) {
        let my_addition = my_additions.get(my_place, site);
        let their_addition = their_additions.get(their_place, site);
        my_place += usize::from(my_addition.is_some());
        their_place += usize::from(their_addition.is_some());
        if let Some(addition) = join(
            alloc,
            site,
            mine,
            my_addition.as_ref(),
            theirs,
            their_addition.as_ref(),
        )? {
            merged.push(alloc, addition)?;
        }
    }
    Ok(merged)
}

/// The join of what two sides have of this site.
fn join(
    alloc: Global,
    site: SiteNo,
    mine: &Vector,
    my_addition: Option<&AdditionRef<'_>>,
    theirs: &Vector,
    their_addition: Option<&AdditionRef<'_>>,
) -> Result<Option<Addition>, AllocError>
    requires mine { IfSome my_addition (λ a. (a.now.dot.site ≡ site) × AreSums a.now.sums) }
    requires theirs { IfSome their_addition (λ a. (a.now.dot.site ≡ site) × AreSums a.now.sums) }
    ensures { IfOk result
        (λ new. new ≡ option_map (λ a. (site, a))
        (join_site mine.now theirs.now site (option_map (λ a. (lent a.now).1) my_addition.entry)
        (option_map (λ a. (lent a.now).1) their_addition.entry))) }
{
    if let (Some(first), Some(second)) = (my_addition, their_addition) {
        if first.dot.n == second.dot.n {
            return Ok(Some(first.joined(alloc, mine, second, theirs)?));
        }
    }
    if let Some(first) = my_addition {
        if !theirs.has(first.dot) {
            return Ok(Some(first.copy(alloc)?));
        }
    }
    if let Some(second) = their_addition {
        if !mine.has(second.dot) {
            return Ok(Some(second.copy(alloc)?));
        }
    }
    Ok(None)
}
