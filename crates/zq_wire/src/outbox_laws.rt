//! Laws of what waits. The functions do nothing: each stands for its contract.
ghost use Rattle.zq_wire.specs.Runs.{KeepsItsPlace, NewestIsLast, NoneIsInvented, WaitFew};

/// Over every list of puts and takes: the frames of a topic that were sent, and then the one that
/// waits, are some of those that were put, in their order, and the last of them is the one that was
/// put last. A frame that waits keeps its place until it is sent, and a newer one of its topic has
/// that place. At most two frames wait of each heap.
pub fn the_newest_is_sent()
    ensures invented { NoneIsInvented }
    ensures newest { NewestIsLast }
    ensures place { KeepsItsPlace }
    ensures few { WaitFew }
{}
