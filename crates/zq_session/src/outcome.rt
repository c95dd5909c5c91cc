//! How a session ends.

ghost use Rattle.std.specs.Prelude.{◌≡◌};
ghost use Rattle.zq_session.specs.Session.{status_of};

/// How a session ended without a fault.
#[derive(Clone, Copy, Debug, PartialEq, Eq)]
pub enum End {
    /// The input ended after a request, or before the first.
    Clean,
    /// The input ended inside a request.
    Inside,
    /// The input went on with bytes that begin no request, or with a request past the limits. The
    /// error for it was written.
    Protocol,
}

/// What stopped a session.
#[derive(Clone, Copy, Debug, PartialEq, Eq)]
pub enum SessionFault {
    /// A read failed, or there were 4,611,686,018,427,387,904 of them.
    Read,
    /// A write failed or took nothing.
    Write,
    /// There was no memory for a request or a reply.
    NoMemory,
}

/// The exit status of a program whose session ended so: 0 for a clean end, 2 for input that ended
/// inside a request or broke the protocol, 4 for a fault.
pub fn status(end: &Result<End, SessionFault>) -> u8
    ensures { result ≡ status_of end.now }
{
    match end {
        Ok(End::Clean) => 0,
        Ok(End::Inside | End::Protocol) => 2,
        Err(_) => 4,
    }
}
