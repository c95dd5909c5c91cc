//! What a server of a site answers that takes further requests too, by the operations that the site
//! has taken by then.

ghost use Rattle.std.specs.Prelude.{List, Result, [], true, ℕ, ◌++◌, ◌∷◌, ◌≡◌, ◌≤◌};
ghost use Rattle.zq_dots.specs.Rule.{rule_of};
ghost use Rattle.zq_model.specs.Limits.{TailLimits};
ghost use Rattle.zq_model.specs.Moves.{Move, Queues};
ghost use Rattle.zq_model.specs.Operation.{Operation};
ghost use Rattle.zq_model.specs.Rule.{Rule as Rules};
ghost use Rattle.zq_model.specs.Sets.{AreSame, IsWorld};
ghost use Rattle.zq_notes.specs.Calls.{AreCallsFrom, Call as Called, notes_of};
ghost use Rattle.zq_notes.specs.Gathered.{AreImagesOf, AreOfWorld, gathered};
ghost use Rattle.zq_notes.specs.Notes.{Books};
ghost use Rattle.zq_notes.specs.Readings.{IsProcedureOver};
ghost use Rattle.zq_notes.specs.Sites.{AreEventsOf, Event, has_at, made_of};
ghost use Rattle.zq_resp.specs.Stream.{Requests};
ghost use Rattle.zq_resp.specs.declared.reply.Reply.{Reply as Replies};
ghost use Rattle.zq_semantics.specs.Procedures.{procedure};
ghost use Rattle.zq_semantics.specs.Reading.{heaps_in, queues_over};
ghost use Rattle.zq_session.specs.Among.{AnyRequest};
ghost use Rattle.zq_session.specs.Calling.{AnswersFurther};
ghost use Rattle.zq_session.specs.Connection.{IsSession};
ghost use Rattle.zq_session.specs.FurtherCalls.{AreToldOver, Inquiry, IsAskedOff, IsFurtherCallOf, IsInquiryOf, IsToldOver, StandsFurther, is_inquiry};
ghost use Rattle.zq_session.specs.Passing.{Passed};
ghost use Rattle.zq_session.specs.Session.{Runs};
ghost use Rattle.zq_session.specs.declared.outcome.End.{End};
ghost use Rattle.zq_session.specs.declared.outcome.SessionFault.{SessionFault};
ghost use Rattle.zq_spread.specs.Calls.{heaps_of};
ghost use Rattle.zq_spread.specs.declared.site.Site.{Site};
ghost use Rattle.zq_words.specs.Calls.{Call};
ghost use Rattle.zq_words.specs.Words.{Word};

use zq_notes::{linking, noting, reading_notes};

/// Each request of a server of a site that takes further ones is a call of the site, or left no
/// note, as [`crate::passing_meaning`] says of commands; and so is each of a session, and each of a
/// connection that is served in turn with others. Where the site's calls each found in their heaps
/// what those before them left there, and what they make, take and merge is of one world, what a
/// further request made and was answered is what the operations gathered before its call say: by
/// its procedure over their queues, or by a cut of that. ZMSCORE, EXISTS and TYPE make nothing, and
/// are answered what these operations answer, or, of these ZMSCORE alone, that there is no memory.
/// So it is at sites that are linked; and where two of them have the same operations, in whatever
/// order they came, the queues of these answer for both.
pub fn calling_meaning()
    ensures stands { (p : ℕ) (old new : Passed) (words : List Word) (reply : Replies) →
        AnswersFurther old words reply new → StandsFurther p old words reply new }
    ensures sessions { (p : ℕ) (old new : Passed) (requests : Requests) (replies : List Replies) →
        Runs AnswersFurther old requests replies new →
        Runs (StandsFurther p) old requests replies new }
    ensures connections { (p : ℕ) (begun now : Passed) (text written : Word)
        (ended : Result End SessionFault) →
        IsSession (AnyRequest AnswersFurther) AnswersFurther begun now text written ended →
        IsSession (AnyRequest (StandsFurther p)) (StandsFurther p) begun now text written ended }
    ensures runs { (W : List Operation) (opening : Books) (before : List Called) (c : Called)
        (after : List Called) (old new : Passed) (call : Call) (bytes : Word) →
        IsWorld (heaps_of old.site) W →
        AreImagesOf (rule_of old.site.rule) (heaps_of old.site) W [] opening →
        AreCallsFrom old.site opening (before ++ c ∷ after) →
        AreOfWorld W (notes_of (before ++ c ∷ after)) → IsFurtherCallOf old call bytes new c →
        IsAskedOff (rule_of old.site.rule) (heaps_of old.site) old.site.number
        (gathered W (notes_of before) []) call c.note.stamp c.note.heaps bytes c.note.steps }
    ensures asks { (queues : Queues) (call : Call) (moves : List Move) (bytes : Word) →
        is_inquiry call ≡ true → IsProcedureOver queues (procedure call) moves bytes →
        (moves ≡ []) × IsToldOver queues call bytes }
    ensures reads { (W : List Operation) (opening : Books) (before : List Called) (c : Called)
        (after : List Called) (old new : Passed) (call : Call) (bytes : Word) →
        IsWorld (heaps_of old.site) W →
        AreImagesOf (rule_of old.site.rule) (heaps_of old.site) W [] opening →
        AreCallsFrom old.site opening (before ++ c ∷ after) →
        AreOfWorld W (notes_of (before ++ c ∷ after)) → is_inquiry call ≡ true →
        IsFurtherCallOf old call bytes new c →
        IsToldOver (queues_over (rule_of old.site.rule) (gathered W (notes_of before) [])
        (heaps_in (heaps_of old.site))) call bytes }
    ensures linked_runs { (limits : ℕ → TailLimits) (rule : Rules) (K : ℕ) (sites : ℕ → Site)
        (events : List Event) (before : List Event) (e : Event) (after : List Event)
        (old new : Passed) (call : Call) (bytes : Word) → 2 ≤ K →
        AreEventsOf limits rule K sites events → events ≡ before ++ e ∷ after →
        IsFurtherCallOf old call bytes new e.call →
        IsAskedOff rule K e.site (has_at (made_of events) e.site before) call e.call.note.stamp
        e.call.note.heaps bytes e.call.note.steps }
    ensures linked { (limits : ℕ → TailLimits) (rule : Rules) (K : ℕ) (sites : ℕ → Site)
        (events : List Event) (before : List Event) (e : Event) (after : List Event)
        (old new : Passed) (call : Call) (bytes : Word) → 2 ≤ K →
        AreEventsOf limits rule K sites events → events ≡ before ++ e ∷ after →
        is_inquiry call ≡ true → IsFurtherCallOf old call bytes new e.call →
        IsToldOver (queues_over rule (has_at (made_of events) e.site before) (heaps_in K)) call
        bytes }
    ensures converging { (limits : ℕ → TailLimits) (rule : Rules) (K : ℕ) (sites : ℕ → Site)
        (events : List Event) (one other : Inquiry) (call : Call) → 2 ≤ K →
        AreEventsOf limits rule K sites events → is_inquiry call ≡ true →
        IsInquiryOf events call one → IsInquiryOf events call other →
        AreSame (has_at (made_of events) one.event.site one.before)
        (has_at (made_of events) other.event.site other.before) →
        AreToldOver (queues_over rule (has_at (made_of events) one.event.site one.before)
        (heaps_in K)) call one.bytes other.bytes }
{
    // Each call leaves its note,
    noting();
    // whose answer is read off the operations gathered before it,
    reading_notes();
    // also at sites that are linked.
    linking();
}
