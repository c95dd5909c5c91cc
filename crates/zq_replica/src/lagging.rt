//! How far peers are behind this site.

ghost use Rattle.std.specs.List.{find};
ghost use Rattle.std.specs.Prelude.{option_copied, ◌==◌, ◌≡◌};
ghost use Rattle.zq_replica.specs.Lagging as wanted;

use crate::end::End;
use crate::logs::every_site;
use crate::replica::Replica;
use zq_dots::{SiteNo, Vector};
use zq_follow::count_beyond;

impl Replica<'_> {
    /// How many operations of a heap, of which the site has these, a peer has not said that it has.
    /// Of a peer that has said nothing, or that is not pushed to, that is all of them.
    pub fn lag_of(&self, peer: SiteNo, heap: u8, vector: &Vector) -> u64
        ensures { result ≡ wanted.lag_of peer heap vector.now self.now }
    {
        beyond_said(end_of(&self.ends, peer), heap, vector)
    }
}

/// The end of the link to a peer.
fn end_of(ends: &[End], peer: SiteNo) -> Option<&End>
    ensures { option_copied result ≡ find (λ end. end.peer == peer) ends.now }
{
    ends.iter().find(|end| end.peer == peer)
}

/// How many of these operations of a heap were not said to be there at this end.
fn beyond_said(end: Option<&End>, heap: u8, vector: &Vector) -> u64
    ensures { result ≡ wanted.beyond_said (option_copied end.entry) heap vector.now }
{
    match end {
        Some(end) => beyond_heard(end, heap, vector),
        None => all_of(vector),
    }
}

/// How many of these operations of a heap a peer has not said that it has.
fn beyond_heard(end: &End, heap: u8, vector: &Vector) -> u64
    ensures { result ≡ wanted.beyond_heard end.now heap vector.now }
{
    match end.heaps.get(usize::from(heap)) {
        Some(at_heap) => count_beyond(&every_site(), vector, &at_heap.follow.heard),
        None => all_of(vector),
    }
}

/// How many operations these are.
#[tactic(auto, unfolding(crate::specs::Lagging::all_of))]
fn all_of(vector: &Vector) -> u64
    ensures { result ≡ wanted.all_of vector.now }
{
    count_beyond(&every_site(), vector, &Vector::new())
}
