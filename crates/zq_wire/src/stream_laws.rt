//! Laws of streams of frames. The functions do nothing: each stands for its contract.

ghost use Rattle.zq_wire.specs.StreamLaws.{BreaksAlone, BreaksOnce, PiecesGiveTheWhole, SplitsOnce, WrittenSplits};

/// A text is frames and an unfinished one in one way, and it breaks off in one way. What was
/// written for some frames is these frames, and nothing after them.
pub fn one_reading()
    ensures splits { SplitsOnce }
    ensures breaks { BreaksOnce }
    ensures apart { BreaksAlone }
    ensures written { WrittenSplits }
{}

/// A text that is fed in pieces gives the frames, the rest and the fault of the whole text, however
/// it is cut. Where there was no memory it gives the first of the frames.
pub fn pieces_give_the_whole()
    ensures { PiecesGiveTheWhole }
{}
