//! Moves over the books of a site's heaps.

ghost use Rattle.std.specs.Prelude.{List, [], ℕ, ◌<◌, ◌∷◌, ◌≡◌};
ghost use Rattle.zq_model.specs.Books.{Book};
ghost use Rattle.zq_model.specs.Rule.{Rule};
ghost use Rattle.zq_model.specs.Sets.{IsHeaps, SITES};
ghost use Rattle.zq_model.specs.Lent.{AreLent, CanMakeAll, HasHome, books_after, queues_of};
ghost use Rattle.zq_model.specs.Moves.{Move, after, after_all};

/// A move that is made in the book of its heap changes the queues over the books as the move says,
/// by either rule. So do moves that are made one after the other, and the books stay within bounds.
pub fn moving()
    ensures one { (rule : Rule) (K site stamp : ℕ) (move : Move) (books : List Book) →
        AreLent K books → site < SITES → HasHome move.key move.member books →
        queues_of rule (books_after site stamp (move ∷ []) books)
        ≡ after move (queues_of rule books) }
    ensures all { (rule : Rule) (K site stamp : ℕ) (moves : List Move) (books : List Book) →
        IsHeaps K → site < SITES → AreLent K books →
        CanMakeAll site stamp moves books → queues_of rule (books_after site stamp moves books)
        ≡ after_all moves (queues_of rule books) }
    ensures lent { (K site stamp : ℕ) (moves : List Move) (books : List Book) → IsHeaps K →
        site < SITES → AreLent K books →
        CanMakeAll site stamp moves books → AreLent K (books_after site stamp moves books) }
{}
