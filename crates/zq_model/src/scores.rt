//! What a member's score is: of an entry, and of a set of operations.

ghost use Rattle.std.specs.Prelude.{List, None, Option, Some, ℕ, ℤ, ◌↔◌, ◌≡◌};
ghost use Rattle.zq_model.specs.Entry.{Addition};
ghost use Rattle.zq_model.specs.Heaps.{heap_of};
ghost use Rattle.zq_model.specs.Image.{Entry, addition_at, entry_at, image_of};
ghost use Rattle.zq_model.specs.Meaning.{IsLive, IsScore};
ghost use Rattle.zq_model.specs.Operation.{Operation};
ghost use Rattle.zq_model.specs.Rule.{IsNoWorse, Rule};
ghost use Rattle.zq_model.specs.Score.{score_of, value_of};
ghost use Rattle.zq_model.specs.Sets.{IsWorld};

/// The score of an entry is the value of one of its additions, and no addition has a better one.
pub fn scoring()
    ensures reached { (rule : Rule) (e : Entry) (x : ℤ) → score_of rule e ≡ Some x →
        (s : ℕ) × (a : Addition) × (addition_at e s ≡ Some a) × (value_of a ≡ x) }
    ensures best { (rule : Rule) (e : Entry) (x : ℤ) (s : ℕ) (a : Addition) →
        score_of rule e ≡ Some x →
        addition_at e s ≡ Some a → IsNoWorse rule x (value_of a) }
{}

/// A member's score in the image of its heap is the score that the set means. It has none exactly
/// where no Put on it is live, that is where each has been seen by a later Put or Drop (the
/// observed-remove set of Shapiro, Preguiça, Baquero and Zawirski 2011), and never more than one.
pub fn score_means()
    ensures some { (rule : Rule) (K : ℕ) (S : List Operation) (k m : List ℕ) (x : ℤ) → IsWorld K S →
        (score_of rule (entry_at (image_of S (heap_of k m K)).members (k, m)) ≡ Some x)
        ↔ IsScore rule S k m x }
    ensures none { (rule : Rule) (K : ℕ) (S : List Operation) (k m : List ℕ) → IsWorld K S →
        (score_of rule (entry_at (image_of S (heap_of k m K)).members (k, m)) ≡ None)
        ↔ ((p : Operation) → IsLive S k m p → ⊥) }
    ensures one { (rule : Rule) (S : List Operation) (k m : List ℕ) (x y : ℤ) →
        IsScore rule S k m x → IsScore rule S k m y → x ≡ y }
{}

/// A site has at most one live Put on a member: each of its Puts has seen its earlier ones, and
/// takes them away.
pub fn living()
    ensures { (K : ℕ) (S : List Operation) (k m : List ℕ) (p q : Operation) → IsWorld K S →
        IsLive S k m p → IsLive S k m q → p.site ≡ q.site → p ≡ q }
{}
