//! What a record keeps of an operation that was made here.
ghost use Rattle.std.specs.Prelude.{◌≤◌};
ghost use Rattle.zq_model.specs.Sets.{LAST};

use crate::names::Names;
use zq_dots::{Act, Dot};

/// An operation that was made here. What it had seen is the vector of the state before it, so it is
/// not kept. A key and a member of at most 37 bytes together take no memory of their own.
#[derive(Drop)]
pub(crate) struct Own {
    pub(crate) dot: Dot,
    pub(crate) names: Names,
    pub(crate) act: Act,
    pub(crate) ghost counted: { 1 ≤ dot.n },
    pub(crate) ghost bounded: { dot.n ≤ LAST },
}
