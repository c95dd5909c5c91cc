//! What a worker is given to do.

use zq_words::Command;

/// A call that a worker is to make of its site: the number that the gate is told, the command, and
/// the two words by which ZPOPNEAR draws heaps.
#[derive(Debug, Drop)]
pub struct Job<'a> {
    pub number: u64,
    pub command: Command<'a>,
    pub w1: u64,
    pub w2: u64,
}
