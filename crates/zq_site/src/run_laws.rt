//! Which run keeps the link of a number, over all links that come.

ghost use Rattle.zq_site.specs.Runs.{KnownStaysKnown, LaterStartIsKnown, NewcomerIsJudged, RunKeepsItsLink};

/// A link that is up and told its run is never taken by a run of another name, or by an earlier
/// start. A run of another name or of an earlier start than is known is known only once it was
/// judged, and a later start of the one that is known is known at once.
pub fn one_run_has_the_link()
    ensures link { RunKeepsItsLink }
    ensures known { KnownStaysKnown }
    ensures newcomer { NewcomerIsJudged }
    ensures later { LaterStartIsKnown }
{}
