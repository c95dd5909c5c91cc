//! What a node refuses.

use std::alloc::AllocError;
use zq_journal::{MergeFault, TakeFault};
use zq_spread::ReadFault;
use zq_ticketlock::Worn;

/// Why a frame was not heard to its end.
#[derive(Clone, Copy, Debug, PartialEq, Eq)]
pub enum NodeFault {
    /// The frame names another number of heaps than the site's, a heap that the site does not have,
    /// or an operation whose member lies in another heap.
    WrongHeap,
    /// The frame's rule is another than the site's.
    WrongRule,
    /// A lock of the site, a stamp or a count is at its last value.
    Worn,
    /// A growth was refused.
    NoMemory,
}

impl From<AllocError> for NodeFault {
    ghost use Rattle.std.specs.Prelude.{◌≡◌};
    ghost use Rattle.zq_node.specs.declared.faults.NodeFault.{NodeFault};

    ghost from_gives = { λ _ fault. fault ≡ NodeFault.NoMemory };

    fn from(_error: AllocError) -> NodeFault {
        NodeFault::NoMemory
    }
}

impl From<Worn> for NodeFault {
    ghost use Rattle.std.specs.Prelude.{◌≡◌};
    ghost use Rattle.zq_node.specs.declared.faults.NodeFault.{NodeFault};

    ghost from_gives = { λ _ fault. fault ≡ NodeFault.Worn };

    fn from(_worn: Worn) -> NodeFault {
        NodeFault::Worn
    }
}

impl From<ReadFault> for NodeFault {
    ghost use Rattle.std.specs.Prelude.{◌≡◌};
    ghost use Rattle.zq_node.specs.Faults.{unread};

    ghost from_gives = { λ read fault. fault ≡ unread read };

    fn from(fault: ReadFault) -> NodeFault {
        match fault {
            ReadFault::Worn => NodeFault::Worn,
            ReadFault::NoMemory => NodeFault::NoMemory,
        }
    }
}

impl From<TakeFault> for NodeFault {
    ghost use Rattle.std.specs.Prelude.{◌≡◌};
    ghost use Rattle.zq_node.specs.Faults.{untaken};

    ghost from_gives = { λ take fault. fault ≡ untaken take };

    fn from(fault: TakeFault) -> NodeFault {
        match fault {
            TakeFault::WrongHeap => NodeFault::WrongHeap,
            TakeFault::Worn => NodeFault::Worn,
            TakeFault::NoMemory => NodeFault::NoMemory,
        }
    }
}

impl From<MergeFault> for NodeFault {
    ghost use Rattle.std.specs.Prelude.{◌≡◌};
    ghost use Rattle.zq_node.specs.Faults.{unmerged};

    ghost from_gives = { λ merge fault. fault ≡ unmerged merge };

    fn from(fault: MergeFault) -> NodeFault {
        match fault {
            MergeFault::WrongHeap => NodeFault::WrongHeap,
            MergeFault::WrongRule => NodeFault::WrongRule,
            MergeFault::Worn => NodeFault::Worn,
            MergeFault::NoMemory => NodeFault::NoMemory,
        }
    }
}
