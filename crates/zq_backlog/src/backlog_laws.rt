//! Laws of logs and of their batches. The functions do nothing: each stands for its contract.
ghost use Rattle.zq_backlog.specs.Laws.{AllAreSent, AreFew, IsBounded, IsOne, IsPushed, NewestStays, NoneIsAhead, NoneIsInvented, NoneIsLeftOut, StaysLog};

/// What `add` leaves is a log: of each site the operations above the base are there, up to the
/// last, in their order and none twice. None is invented, those that stay keep their order and
/// their places, and the newest stays. Then there are no more bytes than the most, or there is one
/// operation.
pub fn logs_keep()
    ensures log { StaysLog }
    ensures invented { NoneIsInvented }
    ensures newest { NewestStays }
    ensures bounded { IsBounded }
{}

/// A batch has the first of those operations from its place on that the peer wants, and leaves none
/// out of those that it looked at: where all of the class below the place was sent, so is all below
/// the next one. There is one batch of a place, a class, what was sent, and what is allowed.
pub fn batches_push()
    ensures pushed { IsPushed }
    ensures whole { NoneIsLeftOut }
    ensures few { AreFew }
    ensures one { IsOne }
{}

/// Where what the log no longer has of the class was sent, and what is below the place too, each
/// operation of a batch is the next of its site, so that the peer meets no gap; and behind a batch
/// that comes to the end all of the class was sent.
pub fn batches_follow()
    ensures next { NoneIsAhead }
    ensures all { AllAreSent }
{}
