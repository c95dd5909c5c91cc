//! Laws of what is recovered, and of how a site goes on then.

ghost use Rattle.zq_recovery.specs.Laws.{Begins, Ends, KeepsPieces, KeepsRounds, LosesNone, Makes, Merges, NeedsNone, Others, Reads};

/// What is recovered is the image of the operations of the entries that were read, where these are
/// of one world and the pieces are of images of its closed sets: so it is at first, and after each
/// round and each piece, and so after all records of a log. No piece takes an operation away. At the
/// end each heap is that image where all members that stood when its stream of pieces was begun were
/// in one; a heap without pieces always is. Then the next counter of a site is above all that was
/// read of it.
pub fn recovering()
    ensures begins { Begins }
    ensures rounds { KeepsRounds }
    ensures pieces { KeepsPieces }
    ensures loses { LosesNone }
    ensures reads { Reads }
    ensures ends { Ends }
    ensures none { NeedsNone }
{}

/// A site that has again all of its own operations that anybody has may go on under its number.
/// What it makes next has a dot that no operation has, so that all operations are of one world as
/// before, and so on. What it merges changes nothing of that, nor does what another site makes.
pub fn going_on()
    ensures makes { Makes }
    ensures merges { Merges }
    ensures others { Others }
{}
