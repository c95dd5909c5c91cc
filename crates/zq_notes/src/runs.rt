//! What the calls of several sites come to as the run of a world.

ghost use Rattle.std.specs.Prelude.{List, ℕ};
ghost use Rattle.zq_model.specs.Limits.{TailLimits};
ghost use Rattle.zq_model.specs.Rule.{Rule as Rules};
ghost use Rattle.zq_notes.specs.Played.{IsPlay};
ghost use Rattle.zq_notes.specs.Sites.{AreEventsOf, Event};
ghost use Rattle.zq_notes.specs.Uncut.{AreRunnable};
ghost use Rattle.zq_semantics.specs.Events.{Event as RunEvent};
ghost use Rattle.zq_spread.specs.declared.site.Site.{Site as Sites};

use zq_model::naming;

/// The calls of running sites, as [`crate::linking`] has them, are the run of a world, where none
/// was cut: each command did all that it plans, and no operation or heap that was handed over alone
/// was refused. For each call there is the event of the run that it is, answered as the call was; a
/// call that only reads books, or tells one what was handed on, is none; and one that took operations
/// of a list is as many takes, answered New or Known.
/// After each of them the sites have what the run's sites have.
///
/// Beside that it is asked that no call asks several things at once, each command is that of a
/// request's words, each operation that is handed over was made before, each heap that is merged is
/// one of K, the sites are those below a number of at most 64, and there are fewer steps than the
/// last stamp: then no stamp and no count of the run comes to its last value, so it is the same
/// whether worn stamps are judged over the heaps that a call holds and its pass, as sites do, or
/// over all heaps of the site, as the run does.
///
/// A ZPOPNEAR that held all heaps, though one of the two that it drew has a member by then, is the
/// run's ZPOPMIN with count 1.
pub fn playing()
    ensures plays { (limits : ℕ → TailLimits) (rule : Rules) (K count : ℕ) (sites : ℕ → Sites)
        (events : List Event) → AreEventsOf limits rule K sites events →
        AreRunnable limits rule K count events →
        (plays : List (List RunEvent)) × IsPlay rule K count events plays }
{
    // A member's score over books is the one that their set means.
    naming();
}
