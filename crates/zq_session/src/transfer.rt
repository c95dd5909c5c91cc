//! One read, and writing until all is written. A call that a signal interrupts is made again.

ghost use Rattle.std.specs.Prelude.{◌≡◌, ◌<◌, ◌≤◌, ℕ, length, take, MatchResult};
ghost use Rattle.std.specs.Io.KnownBytes.{Appends, Consumes, IsAtEnd, Keeps};

use crate::outcome::SessionFault;
use std::io::{ErrorKind, Read, Write};

// So often a call is made again.
const TRIES: u64 = 4_611_686_018_427_387_904;

pub fn read_some<R: Read>(reader: &mut R, buffer: &mut [u8]) -> Result<usize, SessionFault>
    requires { 0 < length buffer.old }
    ensures { MatchResult result
        (λ count. (count ≤ length buffer.new)
        × Consumes (R.remaining reader.old) (R.remaining reader.new) (take count buffer.new)
        × (count ≡ 0 → IsAtEnd (R.remaining reader.new)))
        (λ fault. (fault ≡ SessionFault.Read)
        × Keeps (R.remaining reader.old) (R.remaining reader.new)) }
{
    for _try in 0..TRIES {
        match reader.read(buffer) {
            Ok(count) => return Ok(count),
            Err(error) => {
                if error.kind() != ErrorKind::Interrupted {
                    return Err(SessionFault::Read);
                }
            }
        }
    }
    Err(SessionFault::Read)
}

pub fn put_all<W: Write>(writer: &mut W, bytes: &[u8]) -> Result<(), SessionFault>
    ensures { MatchResult result
        (λ done. Appends (W.contents writer.old) (W.contents writer.new) bytes.now)
        (λ fault. (fault ≡ SessionFault.Write)
        × ((at : ℕ) × Appends (W.contents writer.old) (W.contents writer.new)
        (take at bytes.now))) }
{
    let mut at = 0;
    while at < bytes.len() {
        match put_some(writer, &bytes[at..]) {
            Ok(0) | Err(_) => return Err(SessionFault::Write),
            Ok(count) => at += count,
        }
    }
    Ok(())
}

/// Writes the first of the bytes, and says how many.
fn put_some<W: Write>(writer: &mut W, bytes: &[u8]) -> Result<usize, SessionFault>
    ensures { MatchResult result
        (λ count. (count ≤ length bytes.now)
        × Appends (W.contents writer.old) (W.contents writer.new) (take count bytes.now))
        (λ fault. (fault ≡ SessionFault.Write)
        × Keeps (W.contents writer.old) (W.contents writer.new)) }
{
    for _try in 0..TRIES {
        match writer.write(bytes) {
            Ok(count) => return Ok(count),
            Err(error) => {
                if error.kind() != ErrorKind::Interrupted {
                    return Err(SessionFault::Write);
                }
            }
        }
    }
    Err(SessionFault::Write)
}
