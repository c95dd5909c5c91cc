//! What a walk over the members of a heap promises.

ghost use Rattle.zq_shard.specs.Walk.{AddsNoneOld, BeginsWhole, EndsWhole, MovesDown, StaysKept};

/// A walk promises that each member with an addition that a vector has was sent, or is left at the
/// spot. It holds above all keys with nothing sent, is kept by each change by which members sink
/// and no member comes to have an old addition, as by each new operation, moves down with what is
/// handed out, and says at the end that all were sent.
pub fn walking()
    ensures begins { BeginsWhole }
    ensures kept { StaysKept }
    ensures new { AddsNoneOld }
    ensures walked { MovesDown }
    ensures ends { EndsWhole }
{}
