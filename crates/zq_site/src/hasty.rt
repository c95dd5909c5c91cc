//! A stream that is read within some time, and no longer than the site goes on.

ghost use Rattle.std.specs.Duration.{as_nanos};
ghost use Rattle.std.specs.Prelude.{IfOk, IfSome, IsSome, length, ◌+◌, ◌≡◌, ◌≤◌, ◌↔◌};

use crate::halt::Halt;
use crate::shared::Shared;
use crate::standing::Ending;
use crate::times;
use std::io;
use std::io::{ErrorKind, Read};
use std::net::TcpStream;
use std::sync::Wait;
use std::time::{Clock, Duration, Instant};

/// A stream that is read within some time from a moment on, and no longer than the site goes on. It
/// keeps all that came.
#[derive(Drop)]
pub struct Hasty<'a, R: Clock + Wait> {
    rt: &'a R,
    halt: &'a Halt,
    stream: &'a TcpStream,
    start: Instant,
    most: Duration,
    /// All that came, but for what there was no memory for.
    pub heard: Vec<u8>,
    /// How it ended, if it has.
    pub ending: Ending,
}

impl<'a, R: Clock + Wait> Hasty<'a, R> {
    /// From now on, for so long at most.
    pub fn new(
        rt: &'a R,
        shared: Shared<'a>,
        stream: &'a TcpStream,
        most: Duration,
    ) -> io::Result<Hasty<'a, R>> {
        let start = Instant::now(rt)?;
        Ok(Hasty {
            rt,
            halt: shared.halt,
            stream,
            start,
            most,
            heard: Vec::new(shared.alloc),
            ending: Ending::Failed,
        })
    }

    /// Waits for bytes for a moment at most, and says how many came. None where none came yet.
    fn look(&mut self, buf: &mut [u8]) -> io::Result<Option<usize>>
        ensures { IfOk result (λ came. IfSome came (λ count. count ≤ length buf.new)) }
    {
        let Some(left) = left_of(self.most, self.start.elapsed(self.rt)?) else {
            self.ending = Ending::Late;
            return Err(ErrorKind::TimedOut.into());
        };
        if self.halt.is_over(self.rt) {
            return Err(ErrorKind::Other.into());
        }
        self.stream
            .set_read_timeout(Some(left.min(times::looking())))?;
        let mut source = self.stream;
        match source.read(buf) {
            Ok(count) => Ok(Some(count)),
            Err(error) => {
                if is_early(error.kind()) {
                    Ok(None)
                } else {
                    Err(error)
                }
            }
        }
    }
}

impl<R: Clock + Wait> Read for Hasty<'_, R> {
    fn read(&mut self, buf: &mut [u8]) -> io::Result<usize> {
        for _ in self.rt.forever() {
            match self.look(buf) {
                Ok(None) => {}
                Ok(Some(count)) => {
                    if count == 0 {
                        self.ending = Ending::Closed;
                    }
                    let _ = self.heard.extend_from_slice(&buf[..count]);
                    return Ok(count);
                }
                Err(error) => return Err(error),
            }
        }
        unreachable!()
    }
}

/// Whether a read that failed so may be tried again: nothing came yet, or a signal did.
fn is_early(kind: ErrorKind) -> bool {
    matches!(kind, ErrorKind::WouldBlock | ErrorKind::Interrupted)
}

/// What is left of so much time after this, if anything is.
fn left_of(most: Duration, elapsed: Duration) -> Option<Duration>
    ensures left { IfSome result (λ left. as_nanos left + as_nanos elapsed ≡ as_nanos most) }
    ensures some { IsSome result ↔ (as_nanos elapsed ≤ as_nanos most) }
{
    most.checked_sub(elapsed)
}
