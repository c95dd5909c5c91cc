//! The two ends of a peer: what it sends is read, and what it is owed is written.

ghost use Rattle.std.specs.Prelude.{◌≡◌, ◌<◌, ◌≤◌, ℕ, length, take, MatchResult};

use crate::outcome::SessionFault;
use crate::transfer::{put_all, read_some};
use std::io::{Read, Write};

/// How a reader and a writer are used together. A call is one step of both, so that all steps have
/// one order.
pub trait Ends<R, W> {
    ghost use Rattle.zq_session.specs.Steps.{Step, Heard, Failed, Said};

    /// The reader and the writer before a step, the step, and both after it.
    ghost does: { R × W → Step → R × W → Type 0 };

    /// Reads into the buffer, and answers how many bytes that gave: none at the end of the input.
    fn hear(&self, reader: &mut R, writer: &mut W, buffer: &mut [u8]) -> Result<usize, SessionFault>
        requires { 0 < length buffer.old }
        ensures { MatchResult result
            (λ count. (count ≤ length buffer.new)
            × does (reader.old, writer.old) (Heard (take count buffer.new))
            (reader.new, writer.new))
            (λ fault. (fault ≡ SessionFault.Read)
            × does (reader.old, writer.old) Failed (reader.new, writer.new)) };

    /// Writes the bytes: all of them, or the first where the writer fails.
    fn say(&self, reader: &mut R, writer: &mut W, bytes: &[u8]) -> Result<(), SessionFault>
        ensures { MatchResult result
            (λ done. does (reader.old, writer.old) (Said bytes.now) (reader.new, writer.new))
            (λ fault. (fault ≡ SessionFault.Write)
            × ((at : ℕ) × does (reader.old, writer.old) (Said (take at bytes.now))
            (reader.new, writer.new))) };
}

/// Any reader and any writer, as they are.
pub(crate) struct ReadWrite;

impl<R: Read, W: Write> Ends<R, W> for ReadWrite {
    ghost use Rattle.zq_session.specs.Steps.{ReadsAndWrites};

    ghost does = { ReadsAndWrites R.remaining W.contents };

    fn hear(
        &self,
        reader: &mut R,
        _writer: &mut W,
        buffer: &mut [u8],
    ) -> Result<usize, SessionFault> {
        read_some(reader, buffer)
    }

    fn say(&self, _reader: &mut R, writer: &mut W, bytes: &[u8]) -> Result<(), SessionFault> {
        put_all(writer, bytes)
    }
}
