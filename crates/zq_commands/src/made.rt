//! What one part of a command made.

/// What one part of a command made.
#[derive(Clone, Copy, Debug)]
pub struct Made {
    /// How many moves, 0 or 1.
    pub moves: u64,
    /// How much the reply counts it, 0 or 1.
    pub counted: u64,
}

impl Made {
    pub const NOTHING: Made = Made {
        moves: 0,
        counted: 0,
    };
}
