//! What a list of a map's pairs tells of the map.
ghost use Rattle.std.specs.Prelude.{Bool, IsPermutation, List, count_by, length, map, ◌≡◌};
ghost use Rattle.std.specs.FinMap.{entries, len};
ghost use Rattle.zq_posheap.specs.Listing.{IsListing};
ghost use Rattle.zq_posheap.specs.Members.{Scores};
ghost use Rattle.zq_posheap.specs.Order.{Scored};

/// Each list of a map's pairs has the map's entries in some order: it is as long as the map, and a
/// test passes as many of its pairs as of the entries. So two lists of one map differ in their
/// order alone.
pub fn listing()
    ensures order { (scores : Scores) (pairs : List Scored) → IsListing scores pairs →
        IsPermutation (map (λ e. (e.1, e.0)) (entries scores)) pairs }
    ensures len { (scores : Scores) (pairs : List Scored) → IsListing scores pairs →
        length pairs ≡ len scores }
    ensures count { (scores : Scores) (pairs : List Scored) (test : Scored → Bool) →
        IsListing scores pairs →
        count_by test pairs ≡ count_by (λ e. test (e.1, e.0)) (entries scores) }
{}
