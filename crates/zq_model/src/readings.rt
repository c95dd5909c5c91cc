//! Readings of the queues over the books of a site's heaps.

ghost use Rattle.std.specs.Prelude.{Bool, List, Some, [], count_by, length, slice_get, sum_by, true, ℕ, ℤ, ◌-◌, ◌∷◌, ◌≡◌};
ghost use Rattle.zq_model.specs.Books.{Book};
ghost use Rattle.zq_model.specs.Image.{entry_at};
ghost use Rattle.zq_model.specs.Meaning.{Scored};
ghost use Rattle.zq_model.specs.Operation.{Drop as Removal};
ghost use Rattle.zq_model.specs.Rule.{Rule};
ghost use Rattle.zq_model.specs.Score.{score_of};
ghost use Rattle.zq_model.specs.Sets.{IsIn};
ghost use Rattle.zq_model.specs.Lent.{AreLent, is_home_of, queues_of};
ghost use Rattle.zq_model.specs.Merging.{least, merged};
ghost use Rattle.zq_model.specs.Moves.{Queue, after_act, score_in};
ghost use Rattle.zq_model.specs.Readings.{rank_in, turned_rank_in};

/// A member's score over the books is its score in the book of its heap.
pub fn scoring()
    ensures { (rule : Rule) (K : ℕ) (books : List Book) (key member : List ℕ) (book : Book) →
        AreLent K books → IsIn book books → is_home_of key member book ≡ true →
        score_in (queues_of rule books key) member
        ≡ score_of rule (entry_at book.state.members (key, member)) }
{}

/// The queue over books is the queues of each put together, and what is counted over it is the sum
/// of what is counted over each.
pub fn counting()
    ensures queue { (rule : Rule) (key : List ℕ) (book : Book) (books : List Book) →
        queues_of rule (book ∷ books) key ≡ merged (queues_of rule (book ∷ []) key)
        (queues_of rule books key) }
    ensures count { (rule : Rule) (key : List ℕ) (K : ℕ) (passes : Scored →
        Bool) (books : List Book) → AreLent K books →
        count_by passes (queues_of rule books key)
        ≡ sum_by (λ book. count_by passes (queues_of rule (book ∷ []) key)) books }
    ensures number { (rule : Rule) (key : List ℕ) (K : ℕ) (books : List Book) → AreLent K books →
        length (queues_of rule books key)
        ≡ sum_by (λ book. length (queues_of rule (book ∷ []) key)) books }
{}

/// A member's rank is its place in the queue, counted from 0, and its rank in the reverse is that
/// from the end.
pub fn ranking()
    ensures rank { (rule : Rule) (K : ℕ) (books : List Book) → AreLent K books →
        (key : List ℕ) (place : ℕ) (score : ℤ) (member : List ℕ) →
        slice_get (queues_of rule books key) place ≡ Some (score, member) →
        rank_in (queues_of rule books key) member ≡ Some place }
    ensures turned { (rule : Rule) (K : ℕ) (books : List Book) → AreLent K books →
        (key : List ℕ) (place : ℕ) (score : ℤ) (member : List ℕ) →
        slice_get (queues_of rule books key) place ≡ Some (score, member) →
        turned_rank_in (queues_of rule books key) member
        ≡ Some (length (queues_of rule books key) - 1 - place) }
{}

/// The first pair of a queue over books is the least of the first pairs of each, and dropping its
/// member leaves the rest.
pub fn heading()
    ensures first { (rule : Rule) (key : List ℕ) (book : Book) (books : List Book) →
        slice_get (queues_of rule (book ∷ books) key) 0
        ≡ least (slice_get (queues_of rule (book ∷ []) key) 0)
        (slice_get (queues_of rule books key) 0) }
    ensures rest { (rule : Rule) (K : ℕ) (books : List Book) → AreLent K books →
        (key : List ℕ) (first : Scored) (rest : Queue) →
        queues_of rule books key ≡ first ∷ rest →
        after_act Removal (queues_of rule books key) first.1 ≡ rest }
{}
