//! The figures of a site that are shown.

use crate::counts::Counts;
use crate::timing::Durations;

/// All figures of a site.
#[derive(Debug, Drop)]
pub struct Figures {
    pub site: SiteFigures,
    pub clients: ClientFigures,
    /// What its workers counted.
    pub counts: Counts,
    pub heaps: HeapFigures,
    /// What the last walk over its heaps found, where one has ended.
    pub walk: Option<WalkFigures>,
    /// Those of its log on disk, where it keeps one.
    pub disk: Option<DiskFigures>,
    pub peers: Vec<PeerFigures>,
}

/// Figures of a site as a whole.
#[derive(Clone, Copy, Debug)]
pub struct SiteFigures {
    /// Seconds since it began.
    pub uptime: u64,
    /// Bytes of resident memory that the process has, 0 where that cannot be read.
    pub memory: u64,
    /// Whether it is ready.
    pub is_ready: bool,
    /// Whether the process has more memory than it may.
    pub is_full: bool,
    /// Bytes of operations that are kept for peers, and how many operations those are.
    pub backlog_bytes: u64,
    pub backlog_operations: u64,
    /// Operations that wait for earlier ones of their site.
    pub parked: u64,
    /// Frames of peers that were not taken.
    pub dropped: u64,
    /// Lines of its log that found no room.
    pub dropped_lines: u64,
}

/// Figures of the connections of a site's clients.
#[derive(Clone, Copy, Debug)]
pub struct ClientFigures {
    /// Those that are open.
    pub open: u64,
    /// Those that were accepted.
    pub accepted: u64,
    /// Those that were refused, since there were as many as there may be.
    pub refused: u64,
    /// Those that were closed, by the places of the reasons.
    pub closed: [u64; 5],
}

/// Figures of a site's heaps, each at its place.
#[derive(Debug, Drop)]
pub struct HeapFigures {
    /// Operations that the site made.
    pub made: Vec<u64>,
    /// Operations of other sites that it took.
    pub taken: Vec<u64>,
    /// The sum of the version vector.
    pub sums: Vec<u64>,
}

/// What a walk over a site's heaps found, each heap at its place.
#[derive(Debug, Drop)]
pub struct WalkFigures {
    /// Members.
    pub members: Vec<u64>,
    /// Keys.
    pub keys: Vec<u64>,
    /// Bytes of the names of keys and members.
    pub bytes: Vec<u64>,
    /// Seconds since the walk ended.
    pub age: u64,
    /// Seconds that it took.
    pub took: u64,
}

/// Figures of the log that a site keeps on disk.
#[derive(Debug, Drop)]
pub struct DiskFigures {
    /// Operations that the site made and that are on the disk, each heap at its place.
    pub durable: Vec<u64>,
    /// Whether the disk is full.
    pub is_full: bool,
    /// Bytes that the log has.
    pub log_bytes: u64,
    /// Bytes that were written to the log, and to files that took its place.
    pub written_bytes: u64,
    /// How many files took the log's place.
    pub switches: u64,
    /// How long syncs took.
    pub syncs: Durations,
}

/// Figures of the link to a peer.
#[derive(Clone, Copy, Debug)]
pub struct PeerFigures {
    /// The peer.
    pub site: u8,
    /// Whether the link is up.
    pub is_up: bool,
    /// Operations that the site has and the peer has not said to have.
    pub lag: u64,
    /// Seconds since the last frame of the peer.
    pub silence: u64,
    /// Bytes of frames that came from the peer, and went to it.
    pub bytes_in: u64,
    pub bytes_out: u64,
    /// Frames that came from the peer, and went to it.
    pub frames_in: u64,
    pub frames_out: u64,
}
