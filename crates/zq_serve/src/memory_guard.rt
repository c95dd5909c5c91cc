//! What holds back commands that add while the process has more memory than it may.

use crate::admission::Admission;
use crate::memory::{Fullness, Memory, Turn, fullness_of, is_past, turn_after};
use log::{Log, debug, info, warn};
use zq_dots::SiteNo;
use zq_settings::MemorySize;

/// Looks how much memory the process has. While that is more than it may have, commands that add
/// are held back.
#[derive(Drop)]
pub struct MemoryGuard<'a> {
    admission: &'a Admission,
    most: MemorySize,
    last: Fullness,
}

impl<'a> MemoryGuard<'a> {
    /// Of a process that may have so many bytes, where 0 is no bound. It was not looked at yet.
    pub fn new(admission: &'a Admission, most: MemorySize) -> MemoryGuard<'a> {
        MemoryGuard {
            admission,
            most,
            last: Fullness::Below(0),
        }
    }
}

impl MemoryGuard<'_> {
    /// Looks how much memory the process has, where there is a bound. Where that cannot be read
    /// nothing is held back. The log says what begins or ends with it.
    pub fn look<L: Log, M: Memory>(&mut self, log: &L, memory: &M) {
        let most = self.most.value();
        if most == 0 {
            return;
        }
        let bytes = memory.resident();
        note(log, self.admission.site, bytes);
        let seen = fullness_of(most, bytes);
        self.admission.fill(is_past(seen));
        if let Some(turn) = turn_after(self.last, seen) {
            tell(log, self.admission.site, most, turn);
        }
        self.last = seen;
    }
}

/// Writes to the log how many bytes of memory a site's process has, where that could be read.
fn note<L: Log>(log: &L, site: SiteNo, bytes: Option<u64>) {
    let site = site.value();
    if let Some(bytes) = bytes {
        debug!(log; bytes; "site={site} memory seen");
    }
}

/// Writes to the log what begins or ends with the memory of a site's process, which may have so
/// many bytes.
fn tell<L: Log>(log: &L, site: SiteNo, most: u64, turn: Turn) {
    let site = site.value();
    match turn {
        Turn::Begins(bytes) => {
            warn!(log; bytes, max_memory = most; "site={site} memory full");
        }
        Turn::Ends(bytes) => {
            info!(log; bytes, max_memory = most; "site={site} memory free");
        }
        Turn::Loses => {
            warn!(log; max_memory = most, reason = "/proc/self/statm cannot be read"; "site={site} memory unknown");
        }
    }
}
