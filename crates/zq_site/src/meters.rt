//! What the threads of a site note of it, for those who ask.

use std::alloc::{AllocError, Global};
use std::sync::atomic::{AtomicU64, Ordering};
use std::sync::{Mutex, Wait};
use zq_loop::PortFigures;
use zq_metrics::{ClientFigures, Closing, Counters, DiskFigures, HeapFigures};
use zq_store::Kept;

/// What the threads of a site note of it, for those who ask. What one thread notes others may read
/// in part.
#[derive(Drop)]
pub struct Meters {
    /// What the workers count.
    pub counters: Counters,
    /// How many seconds the site has run.
    pub uptime: Gauge,
    /// How many bytes of memory of the process are resident.
    pub memory: Gauge,
    /// How many operations wait for earlier ones.
    pub parked: Gauge,
    /// How many frames of peers were not taken.
    pub dropped: Gauge,
    /// How many connections clients have and had.
    ports: Ports,
    /// How many operations of each heap the site made, and how many there are of all sites.
    heaps: Vec<HeapGauges>,
    /// What is on the disk, where the site keeps a log there.
    kept: Mutex<Option<Kept>>,
}

/// A number that one thread sets or adds to, and others read.
#[derive(Drop)]
pub struct Gauge {
    word: AtomicU64,
}

impl Gauge {
    /// It is 0.
    pub fn new() -> Gauge {
        Gauge {
            word: AtomicU64::new(0),
        }
    }

    /// It is this.
    pub fn set(&self, value: u64) {
        self.word.store(value, Ordering::SeqCst);
    }

    /// It is so much more, within 64 bits.
    pub fn add(&self, more: u64) {
        self.word.fetch_add(more, Ordering::SeqCst);
    }

    /// What it is.
    pub fn get(&self) -> u64 {
        self.word.load(Ordering::SeqCst)
    }
}

/// How many connections a port has and had.
#[derive(Drop)]
struct Ports {
    open: Gauge,
    accepted: Gauge,
    refused: Gauge,
    silent: Gauge,
}

/// What there is of a heap.
#[derive(Drop)]
struct HeapGauges {
    made: Gauge,
    all: Gauge,
}

impl Meters {
    /// Of a site of so many workers and heaps, of which nothing was noted.
    pub fn new(alloc: Global, workers: usize, heaps: u8) -> Result<Meters, AllocError> {
        let mut all = Vec::new(alloc);
        for _ in 0..heaps {
            let gauges = HeapGauges {
                made: Gauge::new(),
                all: Gauge::new(),
            };
            all.push(gauges)?;
        }
        Ok(Meters {
            counters: Counters::new(alloc, workers)?,
            uptime: Gauge::new(),
            memory: Gauge::new(),
            parked: Gauge::new(),
            dropped: Gauge::new(),
            ports: Ports {
                open: Gauge::new(),
                accepted: Gauge::new(),
                refused: Gauge::new(),
                silent: Gauge::new(),
            },
            heaps: all,
            kept: Mutex::new(None),
        })
    }

    /// So many operations of a heap did the site make, and so many are there of all sites.
    pub fn note_heap(&self, heap: usize, made: u64, all: u64) {
        if let Some(gauges) = self.heaps.get(heap) {
            gauges.made.set(made);
            gauges.all.set(all);
        }
    }

    /// So many connections does the port of the clients have, and had.
    pub fn note_port(&self, figures: PortFigures) {
        self.ports.open.set(figures.open);
        self.ports.accepted.set(figures.accepted);
        self.ports.refused.set(figures.refused);
        self.ports.silent.set(figures.silent);
    }

    /// This is on the disk.
    pub fn note_disk<R: Wait>(&self, rt: &R, kept: Kept) {
        *self.kept.lock(rt) = Some(kept);
    }

    /// How many connections clients have and had, as it was noted.
    pub fn clients(&self) -> ClientFigures {
        let mut closed = self.counters.closed();
        closed[Closing::Idle.place()] = self.ports.silent.get();
        ClientFigures {
            open: self.ports.open.get(),
            accepted: self.ports.accepted.get(),
            refused: self.ports.refused.get(),
            closed,
        }
    }

    /// How many operations the heaps have, as it was noted.
    pub fn heaps(&self, alloc: Global) -> Result<HeapFigures, AllocError> {
        let mut figures = HeapFigures {
            made: Vec::new(alloc),
            taken: Vec::new(alloc),
            sums: Vec::new(alloc),
        };
        for gauges in &self.heaps {
            let (made, all) = (gauges.made.get(), gauges.all.get());
            figures.made.push(made)?;
            figures.taken.push(all.saturating_sub(made))?;
            figures.sums.push(all)?;
        }
        Ok(figures)
    }

    /// What is on the disk, as it was noted, where the site keeps a log there.
    pub fn disk<R: Wait>(&self, rt: &R, alloc: Global) -> Result<Option<DiskFigures>, AllocError> {
        let kept = *self.kept.lock(rt);
        match kept {
            Some(kept) => Ok(Some(figures_of(alloc, &kept, self.heaps.len())?)),
            None => Ok(None),
        }
    }
}

/// The figures of what is on the disk of a site of so many heaps.
fn figures_of(alloc: Global, kept: &Kept, heaps: usize) -> Result<DiskFigures, AllocError> {
    let mut durable = Vec::new(alloc);
    for heap in 0..heaps {
        if let Some(counter) = kept.durable.get(heap) {
            durable.push(*counter)?;
        }
    }
    Ok(DiskFigures {
        durable,
        is_full: kept.is_full,
        log_bytes: kept.log,
        written_bytes: kept.work.written,
        switches: kept.work.switches,
        syncs: kept.work.syncs,
    })
}
