//! Reading a log as it is found.

ghost use Rattle.std.specs.Prelude.{IfOk, IsErr, IsErrOf, IsTrue, [], nat_lt, ◌<◌, ◌-◌, ◌≡◌, ◌⊎◌};
ghost use Rattle.zq_inspect.specs.Bytes.{IsAtEnd, failures_in, given_by};
ghost use Rattle.zq_inspect.specs.Found.{IsRefused, IsRefusedFor, IsSeen, IsShortFor, IsStateOf};
ghost use Rattle.zq_recovery.specs.Step.{AreWhole};

use crate::log_file::LogFile;
use crate::recall::Recall;
use crate::state::State;
use crate::words::is_short;
use std::alloc::Global;
use std::io::Read;
use zq_keeper::Reader;
use zq_posheap::Seeded;
use zq_recovery::Refusal;
use zq_stage::Stage;
use zq_wal::{Found, WalError, read_records};

/// What a log holds.
#[derive(Drop)]
pub struct Inspection {
    pub state: State,
    /// The byte, from 0, at which what is not whole begins: a torn end, damage, or the record that
    /// is refused. The end of the records where all is whole.
    pub place: u64,
    /// How many records were taken, and how many bytes they have.
    pub records: u64,
    pub bytes: u64,
    /// How many bytes follow them, up to the last that is not 0, and how many zeros behind that.
    pub torn: u64,
    pub ahead: u64,
    /// The site's heaps as these records say, and `None` where there is no record.
    pub reader: Option<Reader>,
}

impl Inspection {
    ghost use Rattle.zq_inspect.specs.Found.{stages_of};

    /// The heaps as they were read, one for each of the site's; none where there is no record.
    pub fn stages(&self) -> &[Stage]
        ensures { result.now ≡ stages_of self.now.reader }
    {
        match &self.reader {
            Some(reader) => &reader.recovery.stages,
            None => &[],
        }
    }
}

/// Whether all pieces of all heaps came.
fn are_whole(stages: &[Stage]) -> bool
    ensures { IsTrue result → AreWhole stages.now }
{
    for stage in stages {
        if !stage.is_whole() {
            return false;
        }
    }
    true
}

/// The state of a log whose records were all taken, where bytes that are not 0 follow them or not.
fn state_of(reader: &Option<Reader>, is_torn: bool) -> State
    ensures { IsStateOf reader.now is_torn result }
{
    match reader {
        None => State::Empty,
        Some(reader) => {
            if !are_whole(&reader.recovery.stages) {
                State::Refused(Refusal::NotWhole)
            } else if is_torn {
                State::Torn
            } else {
                State::Whole
            }
        }
    }
}

/// What a log holds in which this was found, whose bytes that are not 0 end here.
fn taken(found: Found, used: u64, total: u64, recall: Recall) -> Inspection
    ensures state { IsStateOf recall.reader (nat_lt found.end used) result.state }
    ensures records { (result.records ≡ found.count) × (result.bytes ≡ found.end) }
    ensures torn { result.torn ≡ used - found.end }
    ensures reader { result.reader ≡ recall.reader }
{
    let bytes = found.end as u64;
    Inspection {
        state: state_of(&recall.reader, bytes < used),
        place: bytes,
        records: found.count as u64,
        bytes,
        torn: used.saturating_sub(bytes),
        ahead: total.saturating_sub(used),
        reader: recall.reader,
    }
}

/// What a log holds that no site takes, as far as its records were taken.
fn broken(state: State, place: u64, recall: Recall) -> Inspection
    ensures { result.state ≡ state }
{
    Inspection {
        state,
        place,
        records: recall.records,
        bytes: recall.bytes,
        torn: 0,
        ahead: 0,
        reader: recall.reader,
    }
}

/// What a log holds of which a record was refused; `Memory` where there was none for it.
fn refused(recall: Recall) -> Result<Inspection, WalError>
    ensures refused { IfOk result (λ x. IsRefusedFor recall.refusal x.state) }
    ensures memory { IsErr result → IsErrOf result WalError.Memory × IsShortFor recall.refusal }
{
    match recall.refusal {
        Some(refusal) if !is_short(refusal) => {
            let place = recall.bytes;
            Ok(broken(State::Refused(refusal), place, recall))
        }
        _ => Err(WalError::Memory),
    }
}

/// Reads the log of a site from its first byte to its last. One that no site takes is read up to
/// what is wrong with it.
///
/// `Failed`: it cannot be read, as `LogFile::error` says, `Full`: it has 2^60 bytes, `Memory`.
pub fn inspect<F: Read + Drop>(
    alloc: Global,
    log: &mut LogFile<F>,
    hasher: Seeded,
) -> Result<Inspection, WalError>
    requires { given_by log.old.answers.events ≡ [] }
    ensures found { IfOk result (IsSeen (given_by log.new.answers.events)) }
    ensures end { IfOk result (λ x. IsRefused x.state ⊎ IsAtEnd log.new.answers.events) }
    ensures only { (IsErrOf result WalError.Corrupt → ⊥) × (IsErrOf result WalError.Stopped → ⊥) }
    ensures failed { IsErrOf result WalError.Failed →
        failures_in log.old.answers.events < failures_in log.new.answers.events }
{
    let mut recall = Recall::new(alloc, hasher);
    match read_records(alloc, log, &mut recall) {
        Ok(found) => Ok(taken(found, log.used, log.total, recall)),
        Err(WalError::Corrupt) => {
            let place = recall.late.unwrap_or(recall.bytes);
            Ok(broken(State::Damaged, place, recall))
        }
        Err(WalError::Stopped) => refused(recall),
        Err(error) => Err(error),
    }
}
