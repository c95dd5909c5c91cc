//! What can be wrong with a world.

use mesh_sites::StationFault;
use std::alloc::AllocError;
use std::fmt;
use zq_dots::Dot;
use zq_links::FrameFault;

/// What is wrong with a world.
#[derive(Clone, Copy, Debug, PartialEq, Eq)]
pub enum Wrong {
    /// There was no memory, so that nothing is said of it.
    NoMemory,
    /// Something is named that the world has not.
    NoPlace,
    /// A site does not do what it is asked.
    Failed(StationFault),
    /// A frame cannot be read.
    Unread(FrameFault),
    /// Operations before this one were left out over a link.
    Gap(Dot),
    /// This operation went twice over a link that lost nothing.
    Twice(Dot),
    /// This heap went at once between sites that know pieces, or in pieces to one that knows none.
    Form(u8),
    /// The sites go on sending for ever.
    Restless,
    /// Nothing was lost, and sites take more than some beats to have the same.
    Late,
    /// Operations are sent though all sites have the same.
    Needless,
    /// The heap of this number of a site is not what the operations make that it says to have.
    Mistaken(u8, u8),
    /// This heap is not the same at two sites.
    Apart(u8),
    /// A site lacks operations of this heap that another has, or that it made itself.
    Lacking(u8, u8),
}

impl fmt::Display for Wrong {
    fn fmt<W: fmt::Write>(&self, f: &mut fmt::Formatter<W>) -> fmt::Result {
        match self {
            Wrong::NoMemory => write!(f, "no memory"),
            Wrong::NoPlace => write!(f, "a place that is not there"),
            Wrong::Failed(fault) => write!(f, "{fault}"),
            Wrong::Unread(fault) => write!(f, "unread: {fault:?}"),
            Wrong::Gap(dot) => write!(f, "a gap before {dot:?}"),
            Wrong::Twice(dot) => write!(f, "sent twice: {dot:?}"),
            Wrong::Form(heap) => write!(f, "heap {heap} went in a form that does not fit"),
            Wrong::Restless => write!(f, "it does not come to rest"),
            Wrong::Late => write!(f, "sites take long to have the same"),
            Wrong::Needless => write!(f, "operations are sent though all sites have the same"),
            Wrong::Mistaken(site, heap) => {
                write!(
                    f,
                    "heap {heap} of site {site} is not what its operations make"
                )
            }
            Wrong::Apart(heap) => write!(f, "heap {heap} is not the same at all sites"),
            Wrong::Lacking(site, heap) => {
                write!(f, "site {site} lacks operations of heap {heap}")
            }
        }
    }
}

impl From<AllocError> for Wrong {
    fn from(_error: AllocError) -> Wrong {
        Wrong::NoMemory
    }
}

impl From<StationFault> for Wrong {
    fn from(fault: StationFault) -> Wrong {
        match fault {
            StationFault::NoMemory => Wrong::NoMemory,
            other => Wrong::Failed(other),
        }
    }
}

impl From<FrameFault> for Wrong {
    fn from(fault: FrameFault) -> Wrong {
        Wrong::Unread(fault)
    }
}
