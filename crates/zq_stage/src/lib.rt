//! A heap that comes from a peer in pieces, with operations between them: it is gathered beside the
//! heap whose place it is to take.
//!
//! The peer sends, over one link and in order, first a piece that begins the stage, and then pieces
//! of its heap as that stands when each goes, and before each piece the operations that the stage
//! has not heard of yet. A piece is the rows of some members, with the heap's vector. An operation
//! acts on what the stage has; a row takes the place of what its member had there.
//!
//! Call a dot old that the vector of the first piece has. At each moment a member that was in a
//! piece has in the stage what it has in the heap of the stage's vector, and each other member has
//! there what is not old. So once each member with an old addition was in a piece, the stage is
//! that heap.
#![tactic(auto)]

mod faults;
mod laws;
mod portion;
mod replacing;
mod stage;

pub use faults::{PieceFault, TakeFault};
pub use laws::{portioning, staging, streaming};
pub use portion::{Portion, PortionLimits};
pub use stage::Stage;
