//! A heap that goes from one site to another: the two ends of a stream of pieces, apart from what
//! carries it.
//!
//! The sender hands over, over one link and in order, pieces of its heap, and before each piece the
//! operations that the other end lacks by then. The receiver gathers them in a stage. Where the link
//! breaks the receiver says where it stands, and the stream goes on there, if the sender's heap was
//! not laid out anew meanwhile; else it begins anew.
#![tactic(auto)]

mod laws;
mod receiving;
mod sending;

pub use laws::keeping_step;
pub use receiving::Receiving;
pub use sending::Sending;
