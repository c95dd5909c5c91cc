//! What several requests are answered together, by the operations that the site has taken by then.

ghost use Rattle.std.specs.Prelude.{List, Option, [], ℕ, ◌++◌, ◌∷◌, ◌≡◌, ◌≤◌};
ghost use Rattle.zq_dots.specs.Rule.{rule_of};
ghost use Rattle.zq_model.specs.Limits.{TailLimits};
ghost use Rattle.zq_model.specs.Operation.{Operation};
ghost use Rattle.zq_model.specs.Rule.{Rule as Rules};
ghost use Rattle.zq_model.specs.Sets.{IsWorld};
ghost use Rattle.zq_notes.specs.Calls.{AreCallsFrom, Call as Called, notes_of};
ghost use Rattle.zq_notes.specs.Gathered.{AreImagesOf, AreOfWorld, gathered};
ghost use Rattle.zq_notes.specs.Notes.{Answer, Asked, Books};
ghost use Rattle.zq_notes.specs.Readings.{IsAnswerOf};
ghost use Rattle.zq_notes.specs.Sites.{AreEventsOf, Event, has_at, made_of};
ghost use Rattle.zq_session.specs.Passing.{Passed};
ghost use Rattle.zq_session.specs.Transacting.{TransactsBy};
ghost use Rattle.zq_session.specs.Transactions.{IsTransactionOf, StandsEnded};
ghost use Rattle.zq_session.specs.declared.queued.Queued.{Queued};
ghost use Rattle.zq_session.specs.declared.queued.Transacted.{Transacted};
ghost use Rattle.zq_spread.specs.Calls.{heaps_of};
ghost use Rattle.zq_spread.specs.Watches.{Watch};
ghost use Rattle.zq_spread.specs.declared.site.Site.{Site};

use zq_notes::{linking, reading_notes};

/// Several requests that a server of a site answers as one are one call of the site, at one stamp,
/// which leaves its note; or they were turned away, and left none. Where the site's calls each found
/// in their heaps what those before them left there, and what they make, take and merge is of one
/// world, what they made and were answered is what the operations gathered before that call say. So
/// it is at sites that are linked. That what was watched is then as it was says
/// [`zq_notes::watching_notes`].
pub fn transacting_meaning()
    ensures stands { (p : ℕ) (old new : Passed) (queue : List Queued) (watch : Option Watch)
        (come : Transacted) → TransactsBy old queue watch come new →
        StandsEnded p old queue watch come new }
    ensures runs { (W : List Operation) (opening : Books) (before : List Called) (c : Called)
        (after : List Called) (old new : Passed) (asked : Asked) (answer : Answer) →
        IsWorld (heaps_of old.site) W →
        AreImagesOf (rule_of old.site.rule) (heaps_of old.site) W [] opening →
        AreCallsFrom old.site opening (before ++ c ∷ after) →
        AreOfWorld W (notes_of (before ++ c ∷ after)) → IsTransactionOf old asked answer new c →
        IsAnswerOf (rule_of old.site.rule) (heaps_of old.site) old.site.number
        (gathered W (notes_of before) []) asked c.note.stamp c.note.heaps answer c.note.steps }
    ensures linked_runs { (limits : ℕ → TailLimits) (rule : Rules) (K : ℕ) (sites : ℕ → Site)
        (events : List Event) (before : List Event) (e : Event) (after : List Event)
        (old new : Passed) (asked : Asked) (answer : Answer) → 2 ≤ K →
        AreEventsOf limits rule K sites events → events ≡ before ++ e ∷ after →
        IsTransactionOf old asked answer new e.call →
        IsAnswerOf rule K e.site (has_at (made_of events) e.site before) asked e.call.note.stamp
        e.call.note.heaps answer e.call.note.steps }
{
    // What a note says is read off the operations gathered before it,
    reading_notes();
    // also at sites that are linked.
    linking();
}
