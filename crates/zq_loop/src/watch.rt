//! What is told of a port that is served.

use std::time::Duration;

/// What went wrong at a port.
#[derive(Clone, Copy, Debug, PartialEq, Eq)]
pub enum PortFault {
    /// A connection broke the protocol. It is told so, and closed.
    Protocol,
    /// A connection could not be accepted, read or written.
    Device,
    /// A connection did not take what it is owed in time. It is closed.
    Unread,
    /// Connections are owed too much. The one that is owed most is closed.
    Output,
}

/// Who is told of what happens at a port.
pub trait Watch {
    /// Told of fault.
    fn tell(&self, fault: PortFault);

    /// Called in each turn of a worker after all requests of the turn are answered, and before any
    /// reply to them is written.
    fn settle(&self);

    /// Called at the end of each turn of a worker, after its replies are written as far as their
    /// sockets took them. The clock showed this when the turn began.
    fn end(&self, began: Duration);
}
