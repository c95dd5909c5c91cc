//! An ordered index of pairs, where there is one.

ghost use Rattle.std.specs.Prelude.{List, None, Some, ℕ, ◌≡◌};
ghost use Rattle.std.specs.FinMap.{get, insert, remove};
ghost use Rattle.zq_posheap.specs.Members.{AreInRange, HasPlace, IsPlaceOf, Scores, scores_of};
ghost use Rattle.zq_queue.specs.Indexed.{IsIndexOf};

use std::alloc::Global;
use zq_entry::Entry;
use zq_posheap::{Place, PosHeap};
use zq_ranked::Ranked;

/// An index of these members, and none where memory is refused.
pub(crate) fn index_of(alloc: Global, members: &PosHeap<Entry>) -> Option<Box<Ranked>>
    ensures { IsIndexOf (scores_of members.now.held) result }
{
    let mut pairs = Ranked::new(alloc);
    for ((score, member), _) in members.iter() {
        let Ok(_) = pairs.insert(score, member) else {
            return None;
        };
    }
    Box::new(alloc, pairs).ok()
}

/// The index with a pair whose member it had not, and none where its growth is refused.
pub(crate) fn with_pair(
    index: Option<Box<Ranked>>,
    score: i128,
    member: &[u8],
) -> Option<Box<Ranked>>
    ensures { (scores : Scores) → get scores member.now ≡ None → IsIndexOf scores index →
        IsIndexOf (insert scores member.now score) result }
{
    let mut pairs = index?;
    match pairs.insert(score, member) {
        Ok(_) => Some(pairs),
        Err(_) => None,
    }
}

/// The index without a pair that it had.
fn without_pair(index: Option<Box<Ranked>>, score: i128, member: &[u8]) -> Option<Box<Ranked>>
    ensures { (scores : Scores) → get scores member.now ≡ Some score → IsIndexOf scores index →
        IsIndexOf (remove scores member.now) result }
{
    let mut pairs = index?;
    let _taken = pairs.remove(score, member);
    Some(pairs)
}

/// The index with a member at another score than it had, and none where its growth is refused.
fn with_moved(
    index: Option<Box<Ranked>>,
    before: i128,
    score: i128,
    member: &[u8],
) -> Option<Box<Ranked>>
    ensures { (scores : Scores) → get scores member.now ≡ Some before → IsIndexOf scores index →
        IsIndexOf (insert scores member.now score) result }
{
    if before == score {
        return index;
    }
    with_pair(without_pair(index, before, member), score, member)
}

/// The index without the member at its place.
pub(crate) fn without_place(
    index: Option<Box<Ranked>>,
    members: &PosHeap<Entry>,
    member: &[u8],
    place: Place,
) -> Option<Box<Ranked>>
    requires in_range { AreInRange members.now.held }
    requires has { HasPlace members.now place }
    requires place { IsPlaceOf members.now member.now place }
    ensures { IsIndexOf (scores_of members.now.held) index →
        IsIndexOf (remove (scores_of members.now.held) member.now) result }
{
    let index = index?;
    let (score, _) = members.at(place);
    without_pair(Some(index), score, member)
}

/// The index with the member at its place at another score, and none where its growth is refused.
pub(crate) fn with_score(
    index: Option<Box<Ranked>>,
    members: &PosHeap<Entry>,
    member: &[u8],
    place: Place,
    score: i128,
) -> Option<Box<Ranked>>
    requires in_range { AreInRange members.now.held }
    requires has { HasPlace members.now place }
    requires place { IsPlaceOf members.now member.now place }
    ensures { IsIndexOf (scores_of members.now.held) index →
        IsIndexOf (insert (scores_of members.now.held) member.now score) result }
{
    let index = index?;
    let (before, _) = members.at(place);
    with_moved(Some(index), before, score, member)
}
