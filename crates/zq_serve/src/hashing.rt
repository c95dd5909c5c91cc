//! How the sites of a process hash.

use crate::fault::{Cause, ServeFault};
use std::random::RandomSource;
use zq_posheap::Seeded;

/// A hasher of a seed that strangers do not know.
pub fn draw_hasher<R: RandomSource>(rt: &R) -> Result<Seeded, ServeFault> {
    let mut bytes = [0u8; 8];
    match rt.fill_bytes(&mut bytes) {
        Ok(()) => Ok(Seeded::new(u64::from_le_bytes(bytes))),
        Err(error) => Err(ServeFault::Device(Cause::Random(error.kind()))),
    }
}
