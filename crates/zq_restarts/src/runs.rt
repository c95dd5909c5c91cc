//! Runs of sites that crash and begin again.

ghost use Rattle.std.specs.Prelude.{List, map, ℕ, ◌≡◌, ◌≤◌};
ghost use Rattle.zq_model.specs.Limits.{TailLimits};
ghost use Rattle.zq_model.specs.Rule.{Rule as Rules};
ghost use Rattle.zq_notes.specs.Sites.{AreEventsOf, Event, books_at, made_of};
ghost use Rattle.zq_restarts.specs.Linked.{IsLinkedRun};
ghost use Rattle.zq_restarts.specs.Reached.{AreAfter};
ghost use Rattle.zq_restarts.specs.Runs.{Called, Happening, State, new_sites, reached};
ghost use Rattle.zq_restarts.specs.Standing.{IsStanding};
ghost use Rattle.zq_spread.specs.declared.site.Site.{Site as Sites};

use zq_model::naming;

/// Sites that stand, as new ones do, are called by threads of theirs, and crash. Calls and starts
/// are given in one order. Each call found in its heaps what the site's calls left there since it
/// last began, took what is left by then, and merged what a site had, all of which is left. A site
/// that crashed begins again with a closed set, which has all that is left of what it made; what it
/// lost and nobody has is nowhere any more.
///
/// Then after each of them the sites stand: all that is left anywhere is one world, each heap is
/// the image of what its site has, a closed set of that world, and a site has all that is left of
/// what it made. So what it makes next has a dot that no operation has which is left; sites that
/// have the same operations hold the same images and queues, before a crash and after it; and what
/// a call answers and does is read off what its site had before it.
pub fn restarting()
    ensures new { (limits : ℕ → TailLimits) (rule : Rules) (K : ℕ) →
        IsStanding rule K (new_sites limits rule K) }
    ensures links { (rule : Rules) (K : ℕ) (opening : State) (happenings : List Happening) →
        2 ≤ K → IsStanding rule K opening → AreAfter rule K opening happenings →
        IsLinkedRun rule K opening happenings }
{
    // A member's score over books is the one that their set means.
    naming();
}

/// Calls of linked sites that were new, of which none crashed, as [`zq_notes::linking`] has them,
/// are such a run. What is left is what they made, and the books are the same.
pub fn unbroken()
    ensures run { (limits : ℕ → TailLimits) (rule : Rules) (K : ℕ) (sites : ℕ → Sites)
        (events : List Event) → 2 ≤ K → AreEventsOf limits rule K sites events →
        AreAfter rule K (new_sites limits rule K) (map Called events) }
    ensures left { (limits : ℕ → TailLimits) (rule : Rules) (K : ℕ) (events : List Event) →
        (reached (new_sites limits rule K) (map Called events)).left ≡ made_of events }
    ensures books { (limits : ℕ → TailLimits) (rule : Rules) (K s : ℕ) (events : List Event) →
        (reached (new_sites limits rule K) (map Called events)).books s
        ≡ books_at limits rule K s events }
{
    // A member's score over books is the one that their set means.
    naming();
}
