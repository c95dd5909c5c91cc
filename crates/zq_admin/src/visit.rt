//! One connection of an admin port.

ghost use Rattle.std.specs.Prelude.{nat_lt, ◌≡◌};

use crate::clerk::Clerk;
use crate::desk::Desk;
use http_server::Connection;
use mio::net::TcpStream;
use std::io;
use std::io::ErrorKind;

/// How many reads and writes a connection has in a turn at most.
const STEPS: usize = 64;

/// A connection of an admin port.
#[derive(Drop)]
pub struct Visit {
    stream: TcpStream,
    connection: Connection,
    /// The second of the clock at which it ends.
    ends_at: u64,
}

impl Visit {
    /// A connection over this stream, which ends at this second of the clock at the latest.
    pub fn new(stream: TcpStream, connection: Connection, ends_at: u64) -> Visit {
        Visit {
            stream,
            connection,
            ends_at,
        }
    }

    /// Reads, answers and writes as far as the socket goes, but no more than so many times, so that
    /// one that sends without end holds up no other. It says whether the connection goes on.
    pub fn go_on<D: Desk>(&mut self, clerk: &mut Clerk<'_, D>) -> bool {
        for _ in 0..STEPS {
            self.connection.advance(clerk);
            if self.connection.is_done() {
                return false;
            }
            match self.step() {
                Ok(true) => {}
                Ok(false) => return true,
                Err(_) => return false,
            }
        }
        true
    }

    /// Whether it may last longer at this second of the clock.
    pub fn may_last(&self, now: u64) -> bool
        ensures { result ≡ nat_lt now self.now.ends_at }
    {
        now < self.ends_at
    }

    /// Writes what is owed, or else reads, and says whether the socket may have more of that now.
    fn step(&mut self) -> io::Result<bool> {
        let mut stream = &self.stream;
        let moved = if self.connection.wants_write() {
            self.connection.write_to(&mut stream)
        } else {
            self.connection.read_from(&mut stream)
        };
        match moved {
            Ok(0) if self.connection.wants_write() => Err(ErrorKind::WriteZero.into()),
            Ok(_) => Ok(true),
            Err(error) => match error.kind() {
                ErrorKind::WouldBlock => Ok(false),
                ErrorKind::Interrupted => Ok(true),
                _ => Err(error),
            },
        }
    }
}
