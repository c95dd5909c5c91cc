//! How many connections the process may have.

use libc::types::rlimit;
use zq_settings::WorkerCount;

// As many descriptors are left for all else: standard streams, files, and some to spare.
const SPARE: u64 = 32;

/// How many clients each of so many ports can have at once, with so many workers, where the process
/// keeps so many other connections: its descriptors but for those that it needs itself, shared out.
pub fn most_clients(ports: u64, workers: WorkerCount, others: u64) -> u64 {
    // A port has a listener, and a poll and a waker for its acceptor and for each worker.
    let own = workers.value().saturating_mul(2).saturating_add(3);
    let kept = ports
        .saturating_mul(own)
        .saturating_add(others)
        .saturating_add(SPARE);
    let left = most_descriptors().saturating_sub(kept);
    left.checked_div(ports).unwrap_or(left).max(1)
}

/// How many descriptors the process may have, as far as the system says.
fn most_descriptors() -> u64 {
    let mut limit = rlimit {
        rlim_cur: 0,
        rlim_max: 0,
    };
    if libc::getrlimit(libc::RLIMIT_NOFILE, &mut limit) == 0 {
        limit.rlim_cur
    } else {
        u64::MAX
    }
}
