//! What a server of a site that one session alone uses answers, by the operations that its books
//! have taken.

ghost use Rattle.std.specs.Prelude.{List, [], true, ℕ, ◌≡◌};
ghost use Rattle.zq_model.specs.Books.{Book};
ghost use Rattle.zq_model.specs.Meaning.{IsWholeQueue};
ghost use Rattle.zq_model.specs.Operation.{Operation};
ghost use Rattle.zq_model.specs.Rule.{Greatest};
ghost use Rattle.zq_model.specs.Sets.{IsHeaps};
ghost use Rattle.zq_model.specs.Lent.{queues_of};
ghost use Rattle.zq_notes.specs.Readings.{is_list};
ghost use Rattle.zq_resp.specs.Reply.{reply_bytes};
ghost use Rattle.zq_resp.specs.Request.{IsRequest};
ghost use Rattle.zq_resp.specs.declared.reply.Reply.{Reply as Replies};
ghost use Rattle.zq_semantics.specs.Books.{AreUnworn};
ghost use Rattle.zq_semantics.specs.Reading.{answer_of, is_question};
ghost use Rattle.zq_session.specs.Meaning.{HasAll, IsAnswer, IsOfSet};
ghost use Rattle.zq_session.specs.Plain.{AnswersByPlan, next_begun, no_keys};
ghost use Rattle.zq_words.specs.Command.{command_of};
ghost use Rattle.zq_words.specs.Words.{Word};

/// The queues over the books of a closed set are those that the set means, also as a command begins
/// with them, so that every plan is read off the set. A request that only reads is answered what
/// the set answers, or, where that is a list with something in it, that there is no memory; or it
/// is not begun, since a book's stamp is the last. Each request leaves the books of a closed set
/// that has all of the one before, where no number of a book is past its last value.
pub fn meaning()
    ensures opens { (K : ℕ) → IsHeaps K → IsOfSet K [] (no_keys K) }
    ensures queues { (K : ℕ) (S : List Operation) (books : List Book) → IsOfSet K S books →
        (key : List ℕ) →
        IsWholeQueue Greatest S key (queues_of Greatest books key) }
    ensures begins { (books : List Book) → queues_of Greatest (next_begun books)
        ≡ queues_of Greatest books }
    ensures reads { (K : ℕ) (S : List Operation) (old new : List Book) (words : List Word)
        (reply : Replies) → IsOfSet K S old → is_question words ≡ true →
        AnswersByPlan old words reply new → IsOfSet K S new ×
        IsAnswer old (is_list (queues_of Greatest old) (command_of words))
        (answer_of Greatest K S words) (reply_bytes reply) }
    ensures goes_on { (K : ℕ) (S : List Operation) (old new : List Book) (words : List Word)
        (reply : Replies) → IsOfSet K S old → IsRequest words →
        AnswersByPlan old words reply new → AreUnworn new → (T : List Operation) × IsOfSet K T new
        × HasAll T S }
{}
