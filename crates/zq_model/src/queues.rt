//! What a key's queue is: of images, and of a set of operations.

ghost use Rattle.std.specs.List.{range_with_len};
ghost use Rattle.std.specs.Prelude.{List, [], map, neg_ℤ, pos, ℕ, ℤ, ◌<◌, ◌∷◌, ◌≡◌};
ghost use Rattle.std.specs.declared.cmp.Ordering.TheVariants.{Equal, Greater, Less};
ghost use Rattle.zq_model.specs.Image.{image_of};
ghost use Rattle.zq_model.specs.Meaning.{IsQueue, IsScore, IsWholeQueue, Scored, scored_cmp};
ghost use Rattle.zq_model.specs.Operation.{Operation};
ghost use Rattle.zq_model.specs.Queue.{queue_of};
ghost use Rattle.zq_model.specs.Rule.{Rule};
ghost use Rattle.zq_model.specs.Sets.{AreSame, IsWorld};

/// The queue of the images of some heaps, or of all, is the queue that the set means, and there is
/// one such list.
pub fn queue_means()
    ensures named { (rule : Rule) (K : ℕ) (S : List Operation) (key heaps : List ℕ) → IsWorld K S →
        IsQueue rule K S key heaps (queue_of rule key (map (λ h. (image_of S h).members) heaps)) }
    ensures whole { (rule : Rule) (K : ℕ) (S : List Operation) (key : List ℕ) → IsWorld K S →
        0 < K →
        IsWholeQueue rule S key
        (queue_of rule key (map (λ h. (image_of S h).members) (range_with_len 0 K))) }
    ensures one { (rule : Rule) (K : ℕ) (S : List Operation) (key heaps : List ℕ)
        (q r : List Scored) →
        IsQueue rule K S key heaps q → IsQueue rule K S key heaps r → q ≡ r }
    ensures one_whole { (rule : Rule) (S : List Operation) (key : List ℕ) (q r : List Scored) →
        IsWholeQueue rule S key q → IsWholeQueue rule S key r → q ≡ r }
{}

/// Equal sets, in whatever order and with whatever repeats, mean equal scores and equal queues.
pub fn agreeing()
    ensures scores { (rule : Rule) (K : ℕ) (S T : List Operation) (k m : List ℕ) (x : ℤ) →
        IsWorld K S → AreSame S T →
        IsScore rule S k m x → IsScore rule T k m x }
    ensures queues { (rule : Rule) (K : ℕ) (S T : List Operation) (key : List ℕ) (q r : List Scored)
        → IsWorld K S → AreSame S T →
        IsWholeQueue rule S key q → IsWholeQueue rule T key r → q ≡ r }
{}

/// The order of a queue is by score first, and by the member's bytes where scores are equal; a
/// shorter member goes before a longer one that begins with it.
pub fn ordering()
    ensures score_first { scored_cmp (pos 1, 121 ∷ []) (pos 2, 97 ∷ []) ≡ Less }
    ensures then_bytes { scored_cmp (pos 1, 97 ∷ []) (pos 1, 121 ∷ []) ≡ Less }
    ensures below_zero { scored_cmp (neg_ℤ (pos 6), 121 ∷ []) (pos 1, 97 ∷ []) ≡ Less }
    ensures further_below { scored_cmp (neg_ℤ (pos 6), 121 ∷ []) (neg_ℤ (pos 2), 97 ∷ []) ≡ Less }
    ensures shorter { scored_cmp (pos 1, 97 ∷ []) (pos 1, 97 ∷ 0 ∷ []) ≡ Less }
    ensures turned { scored_cmp (pos 2, 97 ∷ []) (pos 1, 121 ∷ []) ≡ Greater }
    ensures itself { scored_cmp (pos 1, 97 ∷ []) (pos 1, 97 ∷ []) ≡ Equal }
{}
