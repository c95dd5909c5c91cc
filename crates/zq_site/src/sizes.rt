//! How large a site's heaps are, as a walk over them found, and that they are looked at.

use crate::heap_size::HeapSize;
use std::alloc::{AllocError, Global};
use std::sync::atomic::{AtomicBool, Ordering};
use std::sync::{Mutex, Wait};
use std::time::{Clock, Duration};
use zq_metrics::WalkFigures;

/// For how many seconds what was found is shown without another look.
const FRESH: u64 = 60;

/// How large the heaps were that a walk saw.
#[derive(Drop)]
pub struct SizesFound {
    /// Each heap at its place.
    pub heaps: Vec<HeapSize>,
    /// When the walk began and ended, by the clock.
    pub began: Duration,
    pub ended: Duration,
}

/// What was found of how large a site's heaps are, and whether they are looked at.
#[derive(Drop)]
pub struct Sizes {
    wanted: AtomicBool,
    found: Mutex<Option<SizesFound>>,
}

impl Sizes {
    /// Nothing was found, and nobody asked.
    pub fn new() -> Sizes {
        Sizes {
            wanted: AtomicBool::new(false),
            found: Mutex::new(None),
        }
    }

    /// Whether the heaps are to be looked at.
    pub fn is_wanted(&self) -> bool {
        self.wanted.load(Ordering::SeqCst)
    }

    /// This was found.
    pub fn put<R: Wait>(&self, rt: &R, found: SizesFound) {
        *self.found.lock(rt) = Some(found);
        self.give_up();
    }

    /// The heaps are looked at no more, until somebody asks.
    pub fn give_up(&self) {
        self.wanted.store(false, Ordering::SeqCst);
    }

    /// What was found last. Where that is a minute old, or nothing was found, the heaps are looked
    /// at from now on.
    pub fn show<R: Wait + Clock>(
        &self,
        rt: &R,
        alloc: Global,
    ) -> Result<Option<WalkFigures>, AllocError> {
        let now = now_of(rt);
        let found = self.found.lock(rt);
        let Some(found) = found.as_ref() else {
            self.wanted.store(true, Ordering::SeqCst);
            return Ok(None);
        };
        let age = now.saturating_sub(found.ended).as_secs();
        if age >= FRESH {
            self.wanted.store(true, Ordering::SeqCst);
        }
        Ok(Some(figures_of(alloc, found, age)?))
    }
}

/// The figures of what was found so many seconds ago.
fn figures_of(alloc: Global, found: &SizesFound, age: u64) -> Result<WalkFigures, AllocError> {
    let mut figures = WalkFigures {
        members: Vec::new(alloc),
        keys: Vec::new(alloc),
        bytes: Vec::new(alloc),
        age,
        took: found.ended.saturating_sub(found.began).as_secs(),
    };
    for size in &found.heaps {
        figures.members.push(size.members)?;
        figures.keys.push(size.keys)?;
        figures.bytes.push(size.bytes)?;
    }
    Ok(figures)
}

/// The time that the clock shows.
pub fn now_of<R: Clock>(rt: &R) -> Duration {
    match rt.monotonic() {
        Ok(now) => now,
        Err(_) => Duration::from_millis(0),
    }
}
