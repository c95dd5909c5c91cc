//! What the operations before one say of it.

ghost use Rattle.std.specs.Prelude.{◌≡◌, ◌≤◌, MatchOption, None, Some, slice_index};
ghost use Rattle.zq_batch.specs.Before as before_of;
ghost use Rattle.zq_model.specs.Sets.{IsCounters, LAST};

use crate::view::View;
use zq_dots::{LAST_COUNTER, SiteNo, Vector};

// The most bytes of a key that is not written again.
const MOST_REPEATED: usize = 127;

/// What the counters of an operation are counted from.
#[derive(Clone, Copy, Debug)]
pub(crate) struct Base {
    /// What is known without it.
    pub(crate) known: Vector,
    /// The most that it has seen of its own site.
    pub(crate) top: u64,
}

/// What the counters of the site's next operation are counted from.
#[tactic(auto, unfolding(zq_model::specs::Sets::LAST))]
pub(crate) fn base_of(before: &[View<'_>], site: SiteNo) -> Base
    ensures known { result.known ≡ before_of.base_of site before.now }
    ensures top { result.top ≡ before_of.top_of site before.now }
    ensures counters { IsCounters result.known }
    ensures own { slice_index result.known site ≤ result.top }
    ensures bounded { result.top ≤ LAST }
{
    for number in (0..before.len()).rev() {
        let view = &before[number];
        if view.site() == site {
            return base_behind(view);
        }
    }
    Base {
        known: Vector::new(),
        top: LAST_COUNTER - 1,
    }
}

/// What the counters of the operation behind this one of its site are counted from.
fn base_behind(view: &View<'_>) -> Base
    ensures known { result.known
        ≡ before_of.base_from view.now.operation.site (Some view.now) }
    ensures top { result.top ≡ view.now.operation.n }
    ensures counters { IsCounters result.known }
    ensures own { slice_index result.known view.now.operation.site ≤ result.top }
    ensures bounded { result.top ≤ LAST }
{
    let mut known = *view.seen();
    let top = view.n();
    known.set(view.site(), top);
    Base { known, top }
}

/// The operation before.
pub(crate) fn last_op<'b, 'a>(before: &'b [View<'a>]) -> Option<&'b View<'a>>
    ensures { MatchOption result (before_of.last_op before.now ≡ None)
        (λ v. before_of.last_op before.now ≡ Some v.now) }
{
    let (view, _) = before.split_last()?;
    Some(view)
}

/// Whether the site is that of the operation before.
pub(crate) fn repeats_site(before: &[View<'_>], site: SiteNo) -> bool
    ensures { result ≡ before_of.repeats_site before.now site }
{
    match last_op(before) {
        None => false,
        Some(view) => view.site() == site,
    }
}

/// Whether the key is that of the operation before, and short.
pub(crate) fn repeats_key(before: &[View<'_>], key: &[u8]) -> bool
    ensures { result ≡ before_of.repeats_key before.now key.now }
{
    match last_op(before) {
        None => false,
        Some(view) => has_short_key(view) && view.key() == key,
    }
}

/// Whether its key need not be written again.
pub(crate) fn has_short_key(view: &View<'_>) -> bool
    ensures { result ≡ before_of.has_short_key view.now }
{
    view.key().len() <= MOST_REPEATED
}
