//! Answering requests from a reader.

ghost use Rattle.std.specs.Io.KnownBytes.{Appends, Consumes, IsAtEnd};
ghost use Rattle.std.specs.Prelude.{List, ℕ, ◌≡◌};
ghost use Rattle.zq_session.specs.Piped.{IsPiped};

use std::alloc::Global;
use std::io::{Read, Write};
use zq_server::{Plain, SessionFault, session, status};

/// Serves the books of a site of two heaps, which begins with no keys, to the reader and the
/// writer, and answers the session's status. One session alone uses them, so that nothing is
/// locked. Where there is no memory for them nothing is read.
pub fn pipe<R: Read, W: Write>(alloc: Global, reader: &mut R, writer: &mut W) -> u8
    ensures serves { (text written : List ℕ)
        × Consumes (R.remaining reader.old) (R.remaining reader.new) text
        × Appends (W.contents writer.old) (W.contents writer.new) written
        × IsPiped text written result }
    ensures read_off { result ≡ 0 → IsAtEnd (R.remaining reader.new) }
{
    let Ok(mut server) = Plain::new(alloc, 2) else {
        return status(&Err(SessionFault::NoMemory));
    };
    let ended = session(alloc, &mut server, reader, writer);
    status(&ended)
}
