//! Laws of a log that was made.

ghost use Rattle.zq_adopt.specs.Laws.{HasMadeNothing, IsReadAgain};

/// Whoever reads a log that says of each heap what these heaps have finds just their operations; and
/// where they have none of a site, the log says of no operation of it.
pub fn adopted_is_read()
    ensures read { IsReadAgain }
    ensures made { HasMadeNothing }
{}
