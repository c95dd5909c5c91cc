//! An entry, its type.

use crate::batch::Batch;
use crate::sealed::Sealed;
use crate::start::Start;
use zq_links::Piece;

/// What one record of a site's log says.
#[derive(Drop)]
pub enum Entry {
    /// The site was started.
    Start(Start),
    /// Operations that the site has taken, oldest first: between 1 and 64 batches.
    Round(Vec<Batch>),
    /// Some members of a heap, with all that the heap has of them.
    Piece(Piece),
    /// All pieces of a heap are there.
    Sealed(Sealed),
    /// Nothing: all that was begun before it is done.
    Rest,
}
