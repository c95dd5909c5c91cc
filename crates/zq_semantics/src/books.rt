//! The books of a site of a world, as who plays its events keeps them.

ghost use Rattle.std.specs.Prelude.{List, Some, [], false, length, slice_get, slice_set, take, ℕ, ◌++◌, ◌<◌, ◌==◌, ◌∷◌, ◌≡◌, ◌≤◌};
ghost use Rattle.zq_model.specs.Books.{Book, Took, merged, recorded};
ghost use Rattle.zq_model.specs.Bounded.{HasShortNames};
ghost use Rattle.zq_model.specs.Image.{image_of};
ghost use Rattle.zq_model.specs.Operation.{Operation};
ghost use Rattle.zq_model.specs.Rule.{Rule};
ghost use Rattle.zq_model.specs.Sets.{IsClosed, IsHeaps, IsIn, IsWorld, New, SITES, in_heap};
ghost use Rattle.zq_model.specs.Lent.{books_after, queues_of};
ghost use Rattle.zq_model.specs.Moves.{Move, Queues};
ghost use Rattle.zq_semantics.specs.Plan.{Plan, plan_of};
ghost use Rattle.zq_semantics.specs.Replies.{Reply, bytes_of};
ghost use Rattle.zq_semantics.specs.Run.{IsWhy, Number};
ghost use Rattle.zq_semantics.specs.Books.{AreBooksOf, AreSound, AreUnworn, greatest_stamp};
ghost use Rattle.zq_semantics.specs.Doing.{done_by};
ghost use Rattle.zq_semantics.specs.Events.{judged};
ghost use Rattle.zq_semantics.specs.Reading.{heaps_in, queues_over};
ghost use Rattle.zq_semantics.specs.State.{State, after_moves, counted, greatest};
ghost use Rattle.zq_words.specs.Command.{Command, Zpopnear};
ghost use Rattle.zq_words.specs.Limits.{IsWithinLimits};
ghost use Rattle.zq_words.specs.Words.{Word};

/// The greatest stamp of a site and its queues are those of its books.
pub fn holding()
    ensures stamps { (rule : Rule) (K : ℕ) (st : State) (site : ℕ) (books : List Book) →
        AreBooksOf rule K st site books →
        greatest K (st.stamps site) ≡ greatest_stamp books }
    ensures queues { (rule : Rule) (K : ℕ) (st : State) (site : ℕ) (books : List Book) →
        AreBooksOf rule K st site books →
        queues_of rule books ≡ queues_over rule (st.sets site) (heaps_in K) }
{}

/// The moves of a command that was read are in range. Where they were made in a site's books, all
/// of them or those before one that needs a number at its last value, and left no number past its
/// last value, the books are the site's after what is done there, and the reply is the plan's or
/// that of the cut. The books of other sites stay theirs.
pub fn doing()
    ensures sound { (rule : Rule) (K : ℕ) (S : List Operation) (heaps : List ℕ) (command : Command)
        → IsWorld K S → ((o : Operation) → IsIn o S → HasShortNames o) →
        IsWithinLimits command → AreSound (plan_of command (queues_over rule S heaps)).moves }
    ensures whole { (rule : Rule) (K site stamp : ℕ) (plan : Plan) (cut : ℕ →
        Reply) (st : State) (books new : List Book) → IsHeaps K → site < SITES →
        IsWorld K (st.sets site) → IsClosed (st.sets site) → AreSound plan.moves →
        AreBooksOf rule K st site books → AreUnworn new →
        new ≡ books_after site stamp plan.moves books →
        AreBooksOf rule K (done_by K site stamp plan cut st).now site new
        × ((done_by K site stamp plan cut st).reply ≡ bytes_of plan.reply) }
    ensures part { (rule : Rule) (K site stamp k : ℕ) (plan : Plan) (cut : ℕ →
        Reply) (st : State) (books new : List Book) → IsHeaps K → site < SITES →
        IsWorld K (st.sets site) → IsClosed (st.sets site) → AreSound plan.moves →
        AreBooksOf rule K st site books → AreUnworn new → k ≤ length plan.moves →
        new ≡ books_after site stamp (take k plan.moves) books →
        IsWhy site (slice_get plan.moves k) new Number →
        AreBooksOf rule K (done_by K site stamp plan cut st).now site new
        × ((done_by K site stamp plan cut st).reply ≡ bytes_of (cut k)) }
    ensures others { (rule : Rule) (K site stamp other : ℕ) (moves : List Move) (st : State)
        (books : List Book) → (other == site) ≡ false →
        AreBooksOf rule K st other books →
        AreBooksOf rule K (after_moves K site stamp moves st) other books }
{}

/// ZPOPNEAR over the one book that has the first pair plans what it plans over any books that have
/// this pair first, and runs over that book as over all books of the site.
pub fn drawing()
    ensures plan { (key : Word) (queues others : Queues) →
        slice_get (queues key) 0 ≡ slice_get (others key) 0 →
        plan_of (Zpopnear key) queues ≡ plan_of (Zpopnear key) others }
    ensures books { (rule : Rule) (K site stamp k : ℕ) (st : State) (books : List Book) (h : ℕ)
        (old new : Book) (key : Word) → IsWorld K (st.sets site) →
        AreBooksOf rule K st site books → slice_get books h ≡ Some old →
        new ∷ [] ≡ books_after site stamp
        (take k (plan_of (Zpopnear key) (queues_of rule (old ∷ []))).moves) (old ∷ []) →
        slice_set books h new ≡ books_after site stamp
        (take k (plan_of (Zpopnear key) (queues_of rule (old ∷ []))).moves) books }
{}

/// A record of an operation that is new to the site, and a merge of what a site had, leave the
/// books of the site after them. The books of other sites stay theirs.
pub fn recording()
    ensures taken { (rule : Rule) (K : ℕ) (st : State) (site stamp : ℕ) (books : List Book)
        (o : Operation) (b : Book) → AreBooksOf rule K st site books →
        IsWorld K (o ∷ st.sets site) → IsClosed (st.sets site) → judged st site o ≡ New →
        slice_get books o.heap ≡ Some b →
        AreBooksOf rule K (counted st site o.heap stamp st.made (o ∷ st.sets site)) site
        (slice_set books o.heap (recorded b stamp (Took o))) }
    ensures merged { (rule : Rule) (K : ℕ) (st : State) (site heap stamp : ℕ) (books : List Book)
        (T : List Operation) (b : Book) → AreBooksOf rule K st site books →
        IsWorld K (st.sets site ++ T) → IsClosed (st.sets site) → IsClosed T →
        slice_get books heap ≡ Some b →
        AreBooksOf rule K (counted st site heap stamp st.made (st.sets site ++ in_heap heap T)) site
        (slice_set books heap (merged b stamp (image_of T heap))) }
    ensures others { (rule : Rule) (K : ℕ) (st : State) (site heap stamp : ℕ)
        (made S : List Operation) (other : ℕ) (books : List Book) → (other == site) ≡ false →
        AreBooksOf rule K st other books →
        AreBooksOf rule K (counted st site heap stamp made S) other books }
{}
