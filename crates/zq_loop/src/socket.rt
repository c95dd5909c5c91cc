//! A socket that never waits.

ghost use Rattle.std.specs.Prelude.{◌≡◌, ◌≤◌, ◌<◌, length};
ghost use Rattle.zq_loop.specs.Socket.{MovesNone, Reads, Writes};

use mio::net::TcpStream;
use std::io::{ErrorKind, Read, Write};

/// What came of a read or a write.
#[derive(Clone, Copy, Debug)]
pub enum Moved {
    /// So many bytes were moved. None were read at the end of the input.
    Some(usize),
    /// Nothing can be moved now.
    NotNow,
    /// A signal came first. It can be tried again.
    Again,
    /// The socket failed.
    Failed,
}

/// A socket that never waits.
pub trait Socket {
    ghost use Rattle.zq_session.specs.Steps.{Step};

    /// The socket before a step, the step, and the socket after it.
    ghost does: { Self → Step → Self → Type 0 };

    /// Reads into the buffer.
    fn receive(&mut self, buffer: &mut [u8]) -> Moved
        requires { 0 < length buffer.old }
        ensures { Reads does self.old self.new buffer.new result };

    /// Writes the first of the bytes.
    fn send(&mut self, bytes: &[u8]) -> Moved
        ensures { Writes does self.old self.new bytes.now result };
}

impl Socket for TcpStream {
    ghost does = { λ _ _ _. Unit {0} };

    fn receive(&mut self, buffer: &mut [u8]) -> Moved {
        match self.read(buffer) {
            Ok(count) => Moved::Some(count),
            Err(error) => moved_by(error.kind()),
        }
    }

    fn send(&mut self, bytes: &[u8]) -> Moved {
        match self.write(bytes) {
            Ok(count) => Moved::Some(count),
            Err(error) => moved_by(error.kind()),
        }
    }
}

/// What comes of an error.
fn moved_by(kind: ErrorKind) -> Moved
    ensures { MovesNone result }
{
    match kind {
        ErrorKind::WouldBlock => Moved::NotNow,
        ErrorKind::Interrupted => Moved::Again,
        _ => Moved::Failed,
    }
}
