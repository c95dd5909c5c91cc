//! How many connections are served, and for how long.

/// Limits of a port.
#[derive(Clone, Copy, Debug)]
pub struct Limits {
    /// At most so many connections at once. The next one is told so, and closed.
    pub clients: u64,
    /// So many connections in all, and then the end. 0: without end.
    pub connections: u64,
    /// A connection that is owed nothing and brings nothing for so many seconds is closed. 0: none
    /// is.
    pub timeout: u64,
    /// A connection that takes none of the bytes that it is owed for so many seconds is closed. 0:
    /// none is.
    pub write_timeout: u64,
    /// All connections are owed at most so many bytes together. Past that the one that is owed most
    /// is closed.
    pub output: u64,
    /// At most so many connections at once that have yet to show who they are. 0: none has to.
    pub strangers: u64,
}
