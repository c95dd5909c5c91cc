//! The two ends of a stream keep step.

ghost use Rattle.zq_transfer.specs.Laws.{KeepsOperations, KeepsPieces, Resumes, StepsBegin};

/// What an end makes fits the other one. The first piece leaves the two in step; an operation that is
/// new, and noted by the sender, leaves them so; the next piece that the sender makes is the one that
/// the stage waits for, and leaves them so. Where the stream breaks off and goes on as the receiver
/// says where it stands, the sender is where it was.
pub fn keeping_step()
    ensures begins { StepsBegin }
    ensures operations { KeepsOperations }
    ensures pieces { KeepsPieces }
    ensures resumes { Resumes }
{}
