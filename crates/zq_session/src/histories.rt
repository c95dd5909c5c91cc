//! What a server of a site answers, by the operations that the site has taken by then.

ghost use Rattle.std.specs.Prelude.{List, Ok, Result, [], true, ℕ, ◌++◌, ◌∷◌, ◌≡◌, ◌≤◌};
ghost use Rattle.zq_dots.specs.Rule.{rule_of};
ghost use Rattle.zq_model.specs.Limits.{TailLimits};
ghost use Rattle.zq_model.specs.Operation.{Operation};
ghost use Rattle.zq_model.specs.Rule.{Rule as Rules};
ghost use Rattle.zq_model.specs.Sets.{AreSame, IsWorld};
ghost use Rattle.zq_notes.specs.Calls.{AreCallsFrom, Call, notes_of};
ghost use Rattle.zq_notes.specs.Gathered.{AreImagesOf, AreOfWorld, gathered};
ghost use Rattle.zq_notes.specs.Notes.{Books};
ghost use Rattle.zq_notes.specs.Readings.{IsRunOff};
ghost use Rattle.zq_resp.specs.Reply.{reply_bytes};
ghost use Rattle.zq_resp.specs.Stream.{Requests};
ghost use Rattle.zq_resp.specs.declared.reply.Reply.{Reply as Replies};
ghost use Rattle.zq_semantics.specs.Reading.{heaps_in, is_question, queues_over};
ghost use Rattle.zq_notes.specs.Sites.{AreEventsOf, Event, has_at, made_of};
ghost use Rattle.zq_session.specs.Among.{AnyRequest};
ghost use Rattle.zq_session.specs.Calls.{AreAnsweredBy, Asking, IsAnsweredBy, IsAskingOf, IsCallOf, Stands, StandsBy};
ghost use Rattle.zq_session.specs.Connection.{IsSession};
ghost use Rattle.zq_session.specs.Passing.{AnswersByCall, Passed, words_for};
ghost use Rattle.zq_session.specs.Session.{Runs};
ghost use Rattle.zq_session.specs.declared.outcome.End.{End};
ghost use Rattle.zq_session.specs.declared.outcome.SessionFault.{SessionFault};
ghost use Rattle.zq_spread.specs.Calls.{heaps_of};
ghost use Rattle.zq_spread.specs.declared.site.Site.{Site};
ghost use Rattle.zq_words.specs.Command.{Command, command_of};
ghost use Rattle.zq_words.specs.Words.{Word};

use zq_notes::{linking, noting, reading_notes};
use zq_semantics::asking;

/// Each request of a server of a site is a call of the site, or left no note; and so is each of a
/// session, one after the other by its pass, at one site, each with the words that the draws of the
/// one before left; and so is each of a connection that is served in turn with others, and each of
/// theirs between. Where the site's calls each found in their heaps what those before them left
/// there, and what they make, take and merge is of one world, the reply is what the operations
/// gathered before the call answer: by the plan of the command over their queues, or by that of a
/// cut, whose moves are the call's steps; and a request that only reads is answered what these
/// operations answer, or, where that is a list with something in it, that there is no memory. So it
/// is at sites that are linked; and where two of them have the same operations, in whatever order
/// they came, the queues of these answer for both.
pub fn passing_meaning()
    ensures stands { (p : ℕ) (old new : Passed) (words : List Word) (reply : Replies) →
        AnswersByCall old words reply new →
        Stands p old (command_of words) (reply_bytes reply) new }
    ensures sessions { (p : ℕ) (old new : Passed) (requests : Requests) (replies : List Replies) →
        Runs AnswersByCall old requests replies new → Runs (StandsBy p) old requests replies new }
    ensures connections { (p : ℕ) (begun now : Passed) (text written : Word)
        (ended : Result End SessionFault) →
        IsSession (AnyRequest AnswersByCall) AnswersByCall begun now text written ended →
        IsSession (AnyRequest (StandsBy p)) (StandsBy p) begun now text written ended }
    ensures runs { (W : List Operation) (opening : Books) (before : List Call) (c : Call)
        (after : List Call) (old new : Passed) (command : Command) (bytes : Word) →
        IsWorld (heaps_of old.site) W →
        AreImagesOf (rule_of old.site.rule) (heaps_of old.site) W [] opening →
        AreCallsFrom old.site opening (before ++ c ∷ after) →
        AreOfWorld W (notes_of (before ++ c ∷ after)) → IsCallOf old command bytes new c →
        IsRunOff (rule_of old.site.rule) (heaps_of old.site) old.site.number
        (gathered W (notes_of before) []) command (words_for command old.draws).0
        (words_for command old.draws).1 c.note.stamp
        c.note.heaps bytes c.note.steps }
    ensures reads { (W : List Operation) (opening : Books) (before : List Call) (c : Call)
        (after : List Call) (old new : Passed) (words : List Word) (command : Command)
        (bytes : Word) →
        IsWorld (heaps_of old.site) W →
        AreImagesOf (rule_of old.site.rule) (heaps_of old.site) W [] opening →
        AreCallsFrom old.site opening (before ++ c ∷ after) →
        AreOfWorld W (notes_of (before ++ c ∷ after)) → is_question words ≡ true →
        command_of words ≡ Ok command → IsCallOf old command bytes new c →
        IsAnsweredBy (queues_over (rule_of old.site.rule) (gathered W (notes_of before) [])
        (heaps_in (heaps_of old.site))) words bytes }
    ensures linked { (limits : ℕ → TailLimits) (rule : Rules) (K : ℕ) (sites : ℕ → Site)
        (events : List Event) (before : List Event) (e : Event) (after : List Event)
        (old new : Passed) (words : List Word) (command : Command) (bytes : Word) → 2 ≤ K →
        AreEventsOf limits rule K sites events → events ≡ before ++ e ∷ after →
        is_question words ≡ true → command_of words ≡ Ok command →
        IsCallOf old command bytes new e.call →
        IsAnsweredBy (queues_over rule (has_at (made_of events) e.site before) (heaps_in K)) words
        bytes }
    ensures converging { (limits : ℕ → TailLimits) (rule : Rules) (K : ℕ) (sites : ℕ → Site)
        (events : List Event) (one other : Asking) (words : List Word) → 2 ≤ K →
        AreEventsOf limits rule K sites events → is_question words ≡ true →
        IsAskingOf events words one → IsAskingOf events words other →
        AreSame (has_at (made_of events) one.event.site one.before)
        (has_at (made_of events) other.event.site other.before) →
        AreAnsweredBy (queues_over rule (has_at (made_of events) one.event.site one.before)
        (heaps_in K)) words one.bytes other.bytes }
{
    // Each call leaves its note,
    noting();
    // whose answer is read off the operations gathered before it,
    reading_notes();
    // also at sites that are linked,
    linking();
    // and a request that only reads is a command that only reads.
    asking();
}
