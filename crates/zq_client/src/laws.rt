//! What the password keeps. The functions do nothing: each stands for its contract.

ghost use Rattle.zq_client.specs.Laws.{ChangesNothing, IsKnownByIt, IsTurnedAway, TellsNothing};

/// A connection that has not shown the password reaches nothing of the site: it answers each of its
/// requests itself, whatever the words are, and what it answers and becomes says nothing of the
/// moment. All but four requests change nothing of the connection either, and have one answer.
pub fn strangers()
    ensures turned_away { IsTurnedAway }
    ensures tells_nothing { TellsNothing }
    ensures changes_nothing { ChangesNothing }
{}

/// A connection that is known at a site with a password has named a text whose SHA-256 is the
/// digest, since it began or since its last RESET.
pub fn known_by_the_password()
    ensures { IsKnownByIt }
{}
