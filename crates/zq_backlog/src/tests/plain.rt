//! A log as a plain list.

use std::alloc::{AllocError, Global};

/// The number of sites that are drawn.
pub const FEW: usize = 4;

/// A counter for each of them.
pub type Counters = [u64; FEW];

/// What a plain batch has: the dots, what was sent with it, and the next place.
pub type Plainly = (Vec<(u8, u64)>, Counters, u64);

/// The counter of a site.
pub fn at(counters: &Counters, site: u8) -> u64 {
    counters[usize::from(site) % FEW]
}

/// Sets the counter of a site.
pub fn put(counters: &mut Counters, site: u8, n: u64) {
    counters[usize::from(site) % FEW] = n;
}

/// An operation: its site, its counter, and the bytes that it is written in.
#[derive(Clone, Copy)]
struct Written {
    site: u8,
    n: u64,
    bytes: u64,
}

/// A log that keeps its operations in a list and walks over it.
#[derive(Drop)]
pub struct Plain {
    pub base: Counters,
    pub last: Counters,
    pub first: u64,
    ops: Vec<Written>,
    most: u64,
}

impl Plain {
    pub fn new(alloc: Global, most: u64) -> Plain {
        Plain {
            base: [0; FEW],
            last: [0; FEW],
            first: 0,
            ops: Vec::new(alloc),
            most,
        }
    }

    pub fn end(&self) -> u64 {
        self.first.saturating_add(self.ops.len() as u64)
    }

    pub fn bytes(&self) -> u64 {
        let mut sum = 0u64;
        for op in &self.ops {
            sum = sum.saturating_add(op.bytes).saturating_add(24);
        }
        sum
    }

    pub fn add(&mut self, site: u8, n: u64, bytes: u64) -> Result<(), AllocError> {
        let last = at(&self.last, site);
        if n <= last {
            return Ok(());
        }
        self.ops.push(Written { site, n, bytes })?;
        if n - last > 1 {
            put(&mut self.base, site, n - 1);
        }
        put(&mut self.last, site, n);
        for _round in 0..self.ops.len() {
            if self.bytes() > self.most && self.ops.len() > 1 {
                let op = self.ops.remove(0);
                let base = at(&self.base, op.site).max(op.n);
                put(&mut self.base, op.site, base);
                self.first = self.first.saturating_add(1);
            }
        }
        Ok(())
    }

    pub fn skip(&mut self, v: &Counters) {
        for site in 0..FEW as u8 {
            let n = at(v, site);
            if n > at(&self.last, site) {
                put(&mut self.last, site, n);
                put(&mut self.base, site, n);
            }
        }
    }

    pub fn batch(
        &self,
        alloc: Global,
        place: u64,
        class: &[bool; FEW],
        sent: &Counters,
        allow: u64,
    ) -> Result<Plainly, AllocError> {
        let mut dots = Vec::new(alloc);
        let mut after = *sent;
        let mut next = place.max(self.first);
        let mut here = self.first;
        let mut looked = 0u64;
        let mut bytes = 0u64;
        for op in &self.ops {
            let is_full = dots.len() as u64 >= allow || bytes >= 65_536 || looked >= 1_024;
            if here == next && !is_full {
                let is_of = class[usize::from(op.site) % FEW];
                if is_of && op.n > at(&after, op.site) {
                    dots.push((op.site, op.n))?;
                    put(&mut after, op.site, op.n);
                    bytes = bytes.saturating_add(op.bytes);
                }
                looked = looked.saturating_add(1);
                next = next.saturating_add(1);
            }
            here = here.saturating_add(1);
        }
        Ok((dots, after, next))
    }
}
