//! Why a site does not do what it is asked.

use std::alloc::AllocError;
use std::fmt;
use zq_links::FrameFault;
use zq_node::NodeFault;
use zq_peers::Unheard;
use zq_spread::ReadFault;
use zq_ticketlock::Worn;

/// Why a site does not do what it is asked.
#[derive(Clone, Copy, Debug, PartialEq, Eq)]
pub enum StationFault {
    /// There was no memory.
    NoMemory,
    /// Something is named that the site has not.
    NoPlace,
    /// A client's line is no command.
    NoCommand,
    /// The site no longer has the operations that a call has just made.
    Untold,
    /// The site refused what it has to take.
    Refused(NodeFault),
    /// A frame cannot be read.
    Unread(FrameFault),
}

impl fmt::Display for StationFault {
    fn fmt<W: fmt::Write>(&self, f: &mut fmt::Formatter<W>) -> fmt::Result {
        match self {
            StationFault::NoMemory => write!(f, "no memory"),
            StationFault::NoPlace => write!(f, "a place that is not there"),
            StationFault::NoCommand => write!(f, "a line that is no command"),
            StationFault::Untold => write!(f, "operations that were made and are not told"),
            StationFault::Refused(fault) => write!(f, "refused: {fault:?}"),
            StationFault::Unread(fault) => write!(f, "unread: {fault:?}"),
        }
    }
}

impl From<AllocError> for StationFault {
    fn from(_error: AllocError) -> StationFault {
        StationFault::NoMemory
    }
}

impl From<Worn> for StationFault {
    fn from(_worn: Worn) -> StationFault {
        StationFault::Refused(NodeFault::Worn)
    }
}

impl From<ReadFault> for StationFault {
    fn from(fault: ReadFault) -> StationFault {
        StationFault::from(NodeFault::from(fault))
    }
}

impl From<NodeFault> for StationFault {
    fn from(fault: NodeFault) -> StationFault {
        match fault {
            NodeFault::NoMemory => StationFault::NoMemory,
            other => StationFault::Refused(other),
        }
    }
}

impl From<FrameFault> for StationFault {
    fn from(fault: FrameFault) -> StationFault {
        StationFault::Unread(fault)
    }
}

impl From<Unheard> for StationFault {
    fn from(fault: Unheard) -> StationFault {
        match fault {
            Unheard::Unread(fault) => StationFault::from(fault),
            Unheard::Refused(fault) => StationFault::from(fault),
        }
    }
}
