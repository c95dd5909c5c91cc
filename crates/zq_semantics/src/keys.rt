//! A key by itself.

ghost use Rattle.std.specs.Prelude.{List, true, ℕ, ◌<◌, ◌≡◌};
ghost use Rattle.zq_model.specs.Operation.{Operation};
ghost use Rattle.zq_model.specs.Rule.{Rule as Rules};
ghost use Rattle.zq_model.specs.Sets.{IsClosed, IsIn, IsWorld};
ghost use Rattle.zq_semantics.specs.Reading.{heaps_in, queues_over};
ghost use Rattle.zq_semantics.specs.Watching.{AreUnchanged, HasAllOf, Keys};

/// The queue of a key is that of its own operations: where a set lies in another, which has no more
/// operations on the key, both have the same queue of it.
pub fn one_key()
    ensures { (rule : Rules) (K : ℕ) (S T : List Operation) (key : List ℕ) → 0 < K → IsWorld K S →
        ((o : Operation) → IsIn o T → IsIn o S) →
        ((o : Operation) → IsIn o S → o.key ≡ key → IsIn o T) →
        queues_over rule S (heaps_in K) key ≡ queues_over rule T (heaps_in K) key }
{}

/// What is watched stays: a site has a set of operations, and earlier it had a part of it, with at
/// least what the vectors of its heaps have. Where nothing on the keys that are watched came after
/// these vectors, the queue of each such key is what it was.
pub fn watching()
    ensures { (rule : Rules) (K : ℕ) (S T : List Operation) (vectors : List (List ℕ)) (keys : Keys)
        (key : List ℕ) → 0 < K → IsWorld K S → IsClosed T →
        ((o : Operation) → IsIn o T → IsIn o S) → HasAllOf T (heaps_in K) vectors →
        AreUnchanged S (heaps_in K) vectors keys → keys key ≡ true →
        queues_over rule S (heaps_in K) key ≡ queues_over rule T (heaps_in K) key }
{}
