//! The metrics that are shown: the name, the help and the sort of each.

ghost use Rattle.std.specs.Prelude.{◌≡◌};
ghost use Rattle.zq_metrics.specs.Metrics as wanted;

/// What a metric is to Prometheus.
#[derive(Clone, Copy, Debug, PartialEq, Eq)]
pub enum Sort {
    /// It only grows, or begins again at 0.
    Counter,
    /// It goes up and down.
    Gauge,
    /// Counts by bounds.
    Histogram,
}

impl Sort {
    /// Its word.
    fn word(self) -> &'static str
        ensures { result.now ≡ wanted.sort_word self }
    {
        match self {
            Sort::Counter => "counter",
            Sort::Gauge => "gauge",
            Sort::Histogram => "histogram",
        }
    }
}

/// A metric that is shown.
#[derive(Clone, Copy, Debug, PartialEq, Eq)]
pub enum Metric {
    /// The version of the program.
    Build,
    /// Seconds since the site began.
    Uptime,
    /// Bytes of resident memory that the process has, 0 where that cannot be read.
    Memory,
    /// Whether the site is ready.
    Ready,
    /// Whether the process has more memory than max_memory, so that commands that add are refused.
    Full,
    /// Requests that were answered.
    Commands,
    /// Requests that were answered by an error.
    Errors,
    /// Time from the turn of the loop in which a request was read to the end of its writes.
    Duration,
    /// Connections of clients that are open.
    Connections,
    /// Connections of clients that were accepted.
    Accepted,
    /// Connections of clients that were refused, since there were as many as there may be.
    Refused,
    /// Connections of clients that the site closed.
    Closed,
    /// Operations that the site made.
    Made,
    /// Operations of other sites that the site took.
    Taken,
    /// Sum of the version vector: operations of all sites that the site has.
    VectorSum,
    /// Members that the heap had at the last walk over all heaps.
    Members,
    /// Keys that the heap had at the last walk over all heaps.
    Keys,
    /// Bytes of the names of keys and members that the heap had at the last walk over all heaps.
    Bytes,
    /// Seconds since the last walk over all heaps ended.
    WalkAge,
    /// Seconds that the last walk over all heaps took.
    WalkDuration,
    /// Operations that the site made and that are on the disk.
    Durable,
    /// Whether the disk is full, so that commands that write are refused.
    DiskFull,
    /// Bytes of the log on disk, without escapes and the zeros ahead of its end.
    LogBytes,
    /// Bytes written to the log on disk and to files that take its place, without escapes and zeros.
    WrittenBytes,
    /// Files that took the place of the log on disk.
    Switches,
    /// Time of each sync of the log on disk, or of the file that takes its place, with the write before it.
    SyncDuration,
    /// Whether the link to the peer is up.
    LinkUp,
    /// Operations that the site has and the peer has not said to have.
    LinkLag,
    /// Seconds since the last frame of the peer, or since the site began.
    LastFrame,
    /// Bytes of frames over links to the peer.
    LinkBytes,
    /// Frames over links to the peer.
    LinkFrames,
    /// Bytes of operations that are kept for peers.
    BacklogBytes,
    /// Operations that are kept for peers.
    BacklogOperations,
    /// Operations that wait for earlier ones of their site.
    Parked,
    /// Frames of peers that were not taken.
    Dropped,
    /// Lines of the log that found no room and were not written.
    DroppedLines,
}

impl Metric {
    /// Its name.
    pub(crate) fn name(self) -> &'static str
        ensures { result.now ≡ wanted.name_of self }
    {
        match self {
            Metric::Build => "zqueue_build_info",
            Metric::Uptime => "zqueue_uptime_seconds",
            Metric::Memory => "process_resident_memory_bytes",
            Metric::Ready => "zqueue_ready",
            Metric::Full => "zqueue_memory_full",
            Metric::Commands => "zqueue_commands_total",
            Metric::Errors => "zqueue_command_errors_total",
            Metric::Duration => "zqueue_request_duration_seconds",
            Metric::Connections => "zqueue_connections",
            Metric::Accepted => "zqueue_connections_accepted_total",
            Metric::Refused => "zqueue_connections_refused_total",
            Metric::Closed => "zqueue_connections_closed_total",
            Metric::Made => "zqueue_operations_made_total",
            Metric::Taken => "zqueue_operations_taken_total",
            Metric::VectorSum => "zqueue_vector_operations",
            Metric::Members => "zqueue_heap_members",
            Metric::Keys => "zqueue_heap_keys",
            Metric::Bytes => "zqueue_heap_bytes",
            Metric::WalkAge => "zqueue_heap_walk_age_seconds",
            Metric::WalkDuration => "zqueue_heap_walk_duration_seconds",
            Metric::Durable => "zqueue_operations_durable_total",
            Metric::DiskFull => "zqueue_disk_full",
            Metric::LogBytes => "zqueue_disk_log_bytes",
            Metric::WrittenBytes => "zqueue_disk_written_bytes_total",
            Metric::Switches => "zqueue_disk_switches_total",
            Metric::SyncDuration => "zqueue_disk_sync_duration_seconds",
            Metric::LinkUp => "zqueue_link_up",
            Metric::LinkLag => "zqueue_link_lag_operations",
            Metric::LastFrame => "zqueue_link_last_frame_seconds",
            Metric::LinkBytes => "zqueue_link_bytes_total",
            Metric::LinkFrames => "zqueue_link_frames_total",
            Metric::BacklogBytes => "zqueue_backlog_bytes",
            Metric::BacklogOperations => "zqueue_backlog_operations",
            Metric::Parked => "zqueue_parked_operations",
            Metric::Dropped => "zqueue_dropped_frames_total",
            Metric::DroppedLines => "zqueue_log_lines_dropped_total",
        }
    }

    /// What it says, in a sentence.
    pub(crate) fn help(self) -> &'static str
        ensures { result.now ≡ wanted.help_of self }
    {
        match self {
            Metric::Build => "The version of the program.",
            Metric::Uptime => "Seconds since the site began.",
            Metric::Memory =>
                "Bytes of resident memory that the process has, 0 where that cannot be read.",
            Metric::Ready => "Whether the site is ready.",
            Metric::Full =>
                "Whether the process has more memory than max_memory, so that commands that add are refused.",
            Metric::Commands => "Requests that were answered.",
            Metric::Errors => "Requests that were answered by an error.",
            Metric::Duration =>
                "Time from the turn of the loop in which a request was read to the end of its writes.",
            Metric::Connections => "Connections of clients that are open.",
            Metric::Accepted => "Connections of clients that were accepted.",
            Metric::Refused =>
                "Connections of clients that were refused, since there were as many as there may be.",
            Metric::Closed => "Connections of clients that the site closed.",
            Metric::Made => "Operations that the site made.",
            Metric::Taken => "Operations of other sites that the site took.",
            Metric::VectorSum =>
                "Sum of the version vector: operations of all sites that the site has.",
            Metric::Members => "Members that the heap had at the last walk over all heaps.",
            Metric::Keys => "Keys that the heap had at the last walk over all heaps.",
            Metric::Bytes =>
                "Bytes of the names of keys and members that the heap had at the last walk over all heaps.",
            Metric::WalkAge => "Seconds since the last walk over all heaps ended.",
            Metric::WalkDuration => "Seconds that the last walk over all heaps took.",
            Metric::Durable => "Operations that the site made and that are on the disk.",
            Metric::DiskFull =>
                "Whether the disk is full, so that commands that write are refused.",
            Metric::LogBytes =>
                "Bytes of the log on disk, without escapes and the zeros ahead of its end.",
            Metric::WrittenBytes =>
                "Bytes written to the log on disk and to files that take its place, without escapes and zeros.",
            Metric::Switches => "Files that took the place of the log on disk.",
            Metric::SyncDuration =>
                "Time of each sync of the log on disk, or of the file that takes its place, with the write before it.",
            Metric::LinkUp => "Whether the link to the peer is up.",
            Metric::LinkLag => "Operations that the site has and the peer has not said to have.",
            Metric::LastFrame =>
                "Seconds since the last frame of the peer, or since the site began.",
            Metric::LinkBytes => "Bytes of frames over links to the peer.",
            Metric::LinkFrames => "Frames over links to the peer.",
            Metric::BacklogBytes => "Bytes of operations that are kept for peers.",
            Metric::BacklogOperations => "Operations that are kept for peers.",
            Metric::Parked => "Operations that wait for earlier ones of their site.",
            Metric::Dropped => "Frames of peers that were not taken.",
            Metric::DroppedLines => "Lines of the log that found no room and were not written.",
        }
    }

    /// What it is to Prometheus.
    pub(crate) fn sort(self) -> Sort
        ensures { result ≡ wanted.sort_of self }
    {
        match self {
            Metric::Commands
            | Metric::Errors
            | Metric::Accepted
            | Metric::Refused
            | Metric::Closed
            | Metric::Made
            | Metric::Taken
            | Metric::Durable
            | Metric::WrittenBytes
            | Metric::Switches
            | Metric::LinkBytes
            | Metric::LinkFrames
            | Metric::Dropped
            | Metric::DroppedLines => Sort::Counter,
            Metric::Duration | Metric::SyncDuration => Sort::Histogram,
            _ => Sort::Gauge,
        }
    }

    /// The word of what it is.
    pub(crate) fn word(self) -> &'static str
        ensures { result.now ≡ wanted.sort_word (wanted.sort_of self) }
    {
        self.sort().word()
    }
}
