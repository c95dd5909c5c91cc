//! Why a drill stopped.

ghost use Rattle.std.specs.Prelude.{◌≡◌};
ghost use Rattle.zq_drill.specs.Faults.{fault_of};

use std::alloc::AllocError;
use zq_journal::MergeFault;
use zq_resp::Reply;
use zq_spread::ReadFault;

/// Why a drill has no outcome.
#[derive(Clone, Copy, Debug, PartialEq, Eq)]
pub enum DrillFault {
    /// A write failed, a thread could not be started, or a number is at its last value.
    Device,
    /// There was no memory.
    NoMemory,
}

impl From<AllocError> for DrillFault {
    ghost use Rattle.std.specs.Prelude.{◌≡◌};
    ghost use Rattle.zq_drill.specs.declared.fault.DrillFault.{DrillFault};

    ghost from_gives = { λ _ fault. fault ≡ DrillFault.NoMemory };

    fn from(_error: AllocError) -> DrillFault {
        DrillFault::NoMemory
    }
}

impl From<ReadFault> for DrillFault {
    fn from(fault: ReadFault) -> DrillFault {
        match fault {
            ReadFault::Worn => DrillFault::Device,
            ReadFault::NoMemory => DrillFault::NoMemory,
        }
    }
}

impl From<MergeFault> for DrillFault {
    fn from(fault: MergeFault) -> DrillFault {
        match fault {
            MergeFault::NoMemory => DrillFault::NoMemory,
            // The sites of a drill have the same number of heaps and one rule: of these only Worn
            // can come.
            MergeFault::Worn | MergeFault::WrongHeap | MergeFault::WrongRule => DrillFault::Device,
        }
    }
}

/// What a reply stops the drill for: want of memory, or a number at its last value.
pub fn check_reply(reply: &Reply) -> Result<(), DrillFault>
    ensures { result ≡ fault_of reply.now }
{
    match reply {
        Reply::Error { text, .. } if *text == "OOM after" => Err(DrillFault::NoMemory),
        Reply::Error { text, .. } if *text == "ERR worn after" => Err(DrillFault::Device),
        _ => Ok(()),
    }
}
