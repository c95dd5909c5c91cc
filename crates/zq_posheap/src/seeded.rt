//! How members and keys are hashed.
use std::hash::{BuildHasher, FoldHasher, Hasher};

/// Hashes from a seed. Members and keys are chosen by strangers: a seed that they do not know keeps
/// them from choosing many of one hash.
#[derive(Clone, Copy)]
pub struct Seeded {
    start: FoldHasher,
}

impl Seeded {
    /// From this seed.
    pub fn new(seed: u64) -> Seeded {
        let mut start = FoldHasher::default();
        start.write_u64(seed);
        Seeded { start }
    }
}

impl BuildHasher for Seeded {
    type Hasher = FoldHasher;

    ghost build_hasher = { λ s. s.start };

    fn build_hasher(&self) -> FoldHasher {
        self.start
    }
}
