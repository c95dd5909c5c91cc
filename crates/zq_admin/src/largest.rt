//! The largest keys of a site.

use std::alloc::{AllocError, Global};

/// How many keys are kept of each heap, and of all.
const MOST_KEYS: usize = 1_000;

/// How many bytes the names of those have together at most, where there is more than one.
const MOST_BYTES: usize = 1_048_576;

/// A key, and how many members it has.
#[derive(Drop)]
pub struct KeyCount {
    pub key: Vec<u8>,
    pub members: u64,
}

/// The largest of some keys: at most 2,000, or two mebibytes of names and one name more.
#[derive(Drop)]
pub struct Largest {
    counts: Vec<KeyCount>,
    bytes: usize,
}

impl Largest {
    /// Of no keys.
    pub fn new(alloc: Global) -> Largest {
        Largest {
            counts: Vec::new(alloc),
            bytes: 0,
        }
    }

    /// Of one key more. Where many are kept already the least of them go.
    pub fn add(&mut self, key: Vec<u8>, members: u64) -> Result<(), AllocError> {
        let bytes = key.len();
        self.counts
            .push(KeyCount { key, members })
            .map_err(AllocError::from)?;
        self.bytes = self.bytes.saturating_add(bytes);
        if self.counts.len() >= 2 * MOST_KEYS || self.bytes > 2 * MOST_BYTES {
            self.shrink();
        }
        Ok(())
    }

    /// The largest 1,000 stay, or those whose names have a mebibyte.
    fn shrink(&mut self) {
        largest_first(&mut self.counts);
        self.counts.truncate(MOST_KEYS);
        self.bytes = 0;
        let mut kept = 0usize;
        for count in self.counts.as_slice() {
            let bytes = self.bytes.saturating_add(count.key.len());
            if kept > 0 && bytes > MOST_BYTES {
                break;
            }
            self.bytes = bytes;
            kept = kept.saturating_add(1);
        }
        self.counts.truncate(kept);
    }

    /// Hands them on, and keeps none.
    pub fn hand_to(&mut self, all: &mut Vec<KeyCount>) -> Result<(), AllocError> {
        self.shrink();
        self.bytes = 0;
        all.append(&mut self.counts).map_err(AllocError::from)
    }
}

/// The largest keys of these, in which a key may stand once for each heap.
pub fn summed(alloc: Global, mut counts: Vec<KeyCount>) -> Result<Vec<KeyCount>, AllocError> {
    counts.sort_unstable_by(|one, other| one.key.as_slice().cmp(other.key.as_slice()));
    let mut sums: Vec<KeyCount> = Vec::new(alloc);
    for count in counts {
        match sums.last_mut() {
            Some(last) if last.key == count.key => {
                last.members = last.members.saturating_add(count.members);
            }
            _ => sums.push(count).map_err(AllocError::from)?,
        }
    }
    largest_first(&mut sums);
    sums.truncate(MOST_KEYS);
    Ok(sums)
}

/// Puts the largest first.
fn largest_first(counts: &mut Vec<KeyCount>) {
    counts.sort_unstable_by_key(|count| u64::MAX - count.members);
}
