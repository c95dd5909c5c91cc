//! What is said of how a peer takes this site, over several signs.

ghost use Rattle.zq_site.specs.Standings.{IsSaidAgain, IsSaidOnce};

/// What was said is not said again while the same is seen, and the end of it is said.
pub fn each_is_said_once()
    ensures once { IsSaidOnce }
    ensures again { IsSaidAgain }
{}
