//! Laws of those who wait for the disk. The functions do nothing: each stands for its contract.

ghost use Rattle.zq_serve.specs.CommitLaws as laws;

/// Who takes a ticket waits until a round was written that began afterwards, or the site ends. A
/// round that began before lets nobody go who has a later ticket, and is not taken for one behind
/// it. A round that began behind a ticket lets it go, and what was written stays so. So it is with
/// who waits for what the site itself made alone; a round of that alone lets nobody else go.
pub fn tickets_are_kept()
    ensures held { laws.TicketsAreHeld }
    ensures own { laws.OwnTicketsAreHeld }
    ensures early { laws.NoneIsDoneEarly }
    ensures behind { laws.RoundsLetGo }
    ensures own_behind { laws.OwnLetsGo }
    ensures stays { laws.DoneStays }
{}

/// Once the disk failed nobody goes on, also where the site ends then. As it ends otherwise
/// everybody goes on, and is told of no more than what was written.
pub fn failures_hold()
    ensures failed { laws.FailuresHold }
    ensures own { laws.FailuresHoldOwn }
    ensures over { laws.EndsLetGo }
{}
