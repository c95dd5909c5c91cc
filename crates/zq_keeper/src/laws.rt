//! Laws of what a keeper wrote.

ghost use Rattle.zq_keeper.specs.Laws.{AreTaken, IsAgain, SaysThat};

/// Records that are said to be read are taken by each reader of the site, from the first to the
/// last; and whichever way they are read, the reader then says what is said of them.
pub fn kept_is_read()
    ensures taken { AreTaken }
    ensures says { SaysThat }
{}

/// Where the entries of what is read are of one world, each heap is that of a closed set of it which
/// has all operations that were told, and the next counter of each site is above all that were told
/// of it.
pub fn told_is_regained()
    ensures again { IsAgain }
{}
