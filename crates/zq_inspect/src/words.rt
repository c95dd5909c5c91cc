//! What is wrong with a log, in words.

ghost use Rattle.std.specs.Prelude.{option_map, ◌≡◌};
ghost use Rattle.zq_inspect.specs.Words.{entry_text, fault_text, is_short_entry, is_short_frame, is_short_of, refusal_text};

use crate::state::State;
use zq_batch::BatchFault;
use zq_entries::EntryFault;
use zq_links::FrameFault;
use zq_merge::StateFault;
use zq_recovery::Refusal;
use zq_stage::PieceFault;

/// What is wrong with a log in this state, on one line without its end; `None` where it is whole.
pub fn fault_words(state: State) -> Option<&'static str>
    ensures { option_map (λ words. words.now) result ≡ fault_text state }
{
    match state {
        State::Whole => None,
        State::Torn => Some("bytes follow the last whole record, as a crash leaves them"),
        State::Empty => Some("the log has no record"),
        State::Damaged => Some("the log is damaged"),
        State::Refused(refusal) => Some(refusal_words(refusal)),
    }
}

/// Why a record does not fit those before it, or why all of them make no heaps.
fn refusal_words(refusal: Refusal) -> &'static str
    ensures { result.now ≡ refusal_text refusal }
{
    match refusal {
        Refusal::Entry(fault) => entry_words(fault),
        Refusal::NoStart => "the first record is none of a start",
        Refusal::OtherSite => "a start is of another site than the first one",
        Refusal::OtherHeaps => "a start has another number of heaps than the first one",
        Refusal::OtherRule => "a start has another rule than the first one",
        Refusal::OtherFolder => "a start is of another folder than the first one",
        Refusal::OldStart => "a start has no higher number than the one before",
        Refusal::WrongHeap => "a record is of no heap of the site",
        Refusal::Gap => "an operation is missing before one that is there",
        Refusal::Piece(_) => "a piece of a heap does not follow the one before",
        Refusal::NotWhole => "pieces of a heap are missing",
        Refusal::OtherVector => "a heap has not the operations that it is said to have",
        Refusal::NoMemory => "there was no memory",
    }
}

/// Why a record is not read.
fn entry_words(fault: EntryFault) -> &'static str
    ensures { result.now ≡ entry_text fault }
{
    match fault {
        EntryFault::Format => "a record is of a newer version",
        _ => "a record is no entry of a log",
    }
}

/// Whether there was no memory.
pub(crate) fn is_short(refusal: Refusal) -> bool
    ensures { result ≡ is_short_of refusal }
{
    match refusal {
        Refusal::NoMemory | Refusal::Piece(PieceFault::NoMemory) => true,
        Refusal::Entry(fault) => is_short_entry(fault),
        _ => false,
    }
}

/// Whether there was none to read a record.
fn is_short_entry(fault: EntryFault) -> bool
    ensures { result ≡ is_short_entry fault }
{
    match fault {
        EntryFault::NoMemory | EntryFault::Batch(_, BatchFault::NoMemory) => true,
        EntryFault::Piece(fault) => is_short_frame(fault),
        _ => false,
    }
}

/// Whether there was none to read a piece.
fn is_short_frame(fault: FrameFault) -> bool
    ensures { result ≡ is_short_frame fault }
{
    matches!(
        fault,
        FrameFault::NoMemory | FrameFault::State(StateFault::NoMemory)
    )
}
