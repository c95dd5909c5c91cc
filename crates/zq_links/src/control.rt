//! Control frames, their types. They steer what two sites push to each other.

mod bodies;
mod fields;
mod form;
mod kind;
mod laws;
mod read;
mod write;

use crate::spot::Spot;
pub use kind::is_control;
pub use laws::control_has_one_spelling;
pub use read::read_control;
pub use write::write_control;
use zq_dots::{Rule, Vector};

/// Which sites a site has links to, and which ones it asks the receiver about. Each is a set of
/// sites: bit 0 is site 0, and bit 63 is site 63.
#[derive(Clone, Copy, Debug, PartialEq, Eq)]
pub struct Routes {
    /// The sites that the sender has a link to.
    pub reach: u64,
    /// The sites whose operations the receiver is asked to relay.
    pub ask: u64,
    /// The sites that no peer of the sender has a link to, as far as it knows.
    pub far: u64,
}

/// What a site has of one of its heaps, and what it grants to the receiver there.
#[derive(Clone, Copy, Debug, PartialEq, Eq)]
pub struct At {
    /// The site's number of heaps, 1 to 16.
    pub heaps: u8,
    /// The heap, below the number of heaps.
    pub heap: u8,
    /// The rule of its scores.
    pub rule: Rule,
    /// Whether the receiver may push operations of the heap.
    pub open: bool,
    /// The number of this frame among those that the sender sent of the heap.
    pub turn: u64,
    /// The number of the last such frame that the sender heard from the receiver.
    pub echo: u64,
    /// How many operations of the heap the receiver may have under way.
    pub window: u64,
    /// The sender's routes.
    pub routes: Routes,
    /// The operations that the sender has taken there.
    pub vector: Vector,
}

/// The sender no longer has all operations that the receiver lacks in a heap.
#[derive(Clone, Copy, Debug, PartialEq, Eq)]
pub struct Behind {
    /// The sender's number of heaps, 1 to 16.
    pub heaps: u8,
    /// The heap, below the number of heaps.
    pub heap: u8,
    /// The operations that the sender has taken there.
    pub vector: Vector,
}

/// What a stage stands at: the state of a heap that the sender gathers from pieces of the
/// receiver's. From there the stream of pieces can go on.
#[derive(Clone, Copy, Debug, PartialEq, Eq)]
pub struct Resume {
    /// The life of the receiver's heap that the pieces were of.
    pub life: u64,
    /// The number of the last piece that the stage has taken.
    pub number: u32,
    /// The spot that followed it.
    pub next: Spot,
    /// The operations that the stage has taken.
    pub vector: Vector,
}

/// The sender asks for the state of a heap.
#[derive(Clone, Copy, Debug, PartialEq, Eq)]
pub struct Fetch {
    /// The sender's number of heaps, 1 to 16.
    pub heaps: u8,
    /// The heap, below the number of heaps.
    pub heap: u8,
    /// Where a stream of pieces that broke off is to go on, and `None` where the sender has no part
    /// of the state.
    pub resume: Option<Resume>,
}

/// What one site tells another about what is to go over their link.
#[derive(Clone, Copy, Debug, PartialEq, Eq)]
pub enum Control {
    /// The sender's routes have changed.
    Routes(Routes),
    /// The sender has this, and grants this.
    At(At),
    /// The receiver has to fetch a state.
    Behind(Behind),
    /// The sender asks for a state.
    Fetch(Fetch),
}
