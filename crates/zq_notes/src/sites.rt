//! What the calls of several sites come to.

ghost use Rattle.std.specs.Prelude.{List, ℕ, ◌≤◌};
ghost use Rattle.zq_model.specs.Limits.{TailLimits};
ghost use Rattle.zq_model.specs.Rule.{Rule as Rules};
ghost use Rattle.zq_notes.specs.Linked.{IsLinked};
ghost use Rattle.zq_notes.specs.Sites.{AreEventsOf, Event};
ghost use Rattle.zq_spread.specs.declared.site.Site.{Site as Sites};

use zq_model::naming;

/// Sites that were new, of one number of heaps and one rule, are called by threads of theirs. Each
/// may have limits of its own for its heaps' tails. Their calls are given in one order, in which
/// each found in its heaps what the site's calls before it left there, took what was made before,
/// and merged what a site had before. Then all that they made is one world, and each site's calls
/// are one thread's. After each of them each heap is the image of what its site has, which is a
/// closed set of that world: so sites that have the same operations hold the same images and
/// queues, and a site has all that it had before. What a call answers and does is read off what its
/// site had before it. A site has what it made, what it was handed and answered New or Known, what it
/// took of a list, and what the images that it merged cover. A portion of a heap that it hands out
/// is a piece of what it had.
pub fn linking()
    ensures links { (limits : ℕ → TailLimits) (rule : Rules) (K : ℕ) (sites : ℕ → Sites)
        (events : List Event) → 2 ≤ K → AreEventsOf limits rule K sites events →
        IsLinked limits rule K events }
{
    // A member's score over books is the one that their set means.
    naming();
}
