//! A session over any reader and writer.

ghost use Rattle.std.specs.Prelude.{◌≡◌, ◌<◌, ◌≤◌, ◌↔◌, Err, IsTrue, List, OnOk, ℕ, Some, [], length};
ghost use Rattle.std.specs.Io.KnownBytes.{Appends, Consumes};
ghost use Rattle.zq_session.specs.Conversation.{IsConversation, IsTalk};
ghost use Rattle.zq_session.specs.Serving.{EndsWith, ServesPiece};
ghost use Rattle.zq_session.specs.Session.{IsReadOff, Serves};
ghost use Rattle.zq_session.specs.Steps.{Says};

use crate::ends::{Ends, ReadWrite};
use crate::gathering::write_gathered;
use crate::outcome::{End, SessionFault};
use crate::serving::{Answers, Served, serve_piece};
use std::alloc::Global;
use std::io::{Read, Write};

const READS: u64 = 4_611_686_018_427_387_904;

const PIECE: usize = 16_384;

/// Answers the requests of the input, in order. The replies to the requests of one read are written
/// before the next read. Before that they are written whenever 65,536 bytes or more of them are
/// gathered, so what waits is less than that and one reply.
///
/// - `Clean`: the input ended after a request, or before the first.
/// - `Inside`: the input ended inside a request.
/// - `Protocol`: the input went on with bytes that begin no request, or with a request past the
///   limits. `-ERR Protocol error` was written for it, once.
/// - `Read`: all replies to what was read are written.
/// - `Write`: the first of the bytes that were due are written, up to where the writer failed. The
///   requests of the last read may be answered in part: the first of them.
/// - `NoMemory`: the requests that ended before the last read are answered, and the replies
///   written. Of those that ended in the last read, the first are answered. All their replies are
///   written, but for at most the last one. No error is written. Memory was refused for that reply,
///   for a request whose count was read, or for the words that close the session; or it was before
///   anything was read.
pub fn session<A: Answers, R: Read, W: Write>(
    alloc: Global,
    answerer: &mut A,
    reader: &mut R,
    writer: &mut W,
) -> Result<End, SessionFault>
    ensures serves { (text written : List ℕ)
        × Consumes (R.remaining reader.old) (R.remaining reader.new) text
        × Appends (W.contents writer.old) (W.contents writer.new) written
        × Serves A.answers answerer.old answerer.new text written result }
    ensures read_off { IsReadOff result (R.remaining reader.new) }
{
    session_over(alloc, answerer, &ReadWrite, reader, writer)
}

/// A session over two ends whose steps have an order. Whenever a read begins, every request that
/// was read before is answered and every reply is written. Of two writes with no read between them
/// the first has 65,536 bytes or more.
///
/// It ends as [`session`] does. `Clean` and `Inside` come after a read that gave nothing, `Read`
/// after a read that failed or after 4,611,686,018,427,387,904 reads, `Write` after a write.
pub fn session_over<A: Answers, R, W, E: Ends<R, W>>(
    alloc: Global,
    answerer: &mut A,
    ends: &E,
    reader: &mut R,
    writer: &mut W,
) -> Result<End, SessionFault>
    ensures { IsConversation E.does A.answers
        (reader.old, writer.old) (reader.new, writer.new) answerer.old answerer.new result }
{
    let Ok(mut buffer) = vec![in alloc; 0u8; PIECE] else {
        return Err(SessionFault::NoMemory);
    };
    match serve_all(alloc, answerer, ends, reader, writer, &mut buffer)? {
        Some(end) => Ok(end),
        None => Err(SessionFault::Read),
    }
}

/// How the input ended, or `None` where it did not end within `READS` reads.
fn serve_all<A: Answers, R, W, E: Ends<R, W>>(
    alloc: Global,
    answerer: &mut A,
    ends: &E,
    reader: &mut R,
    writer: &mut W,
    buffer: &mut [u8],
) -> Result<Option<End>, SessionFault>
    requires some { 0 < length buffer.old }
    requires one_read { length buffer.old ≤ 65536 }
    ensures { IsTalk E.does A.answers
        (reader.old, writer.old) (reader.new, writer.new) answerer.old answerer.new result }
{
    let mut input = zq_resp::Reader::new();
    let mut out = Vec::new(alloc);
    for _read in 0..READS {
        let count = ends.hear(reader, writer, buffer)?;
        if count == 0 {
            return Ok(Some(end_of(&input)));
        }
        let served = write_replies(
            alloc,
            answerer,
            &mut input,
            &buffer[..count],
            ends,
            reader,
            writer,
            &mut out,
        )?;
        match served {
            Served::More => {}
            Served::Broken => return Ok(Some(End::Protocol)),
        }
    }
    Ok(None)
}

/// How the input ends: inside a request, where some bytes of one are kept.
fn end_of(input: &zq_resp::Reader) -> End
    ensures { (had : List ℕ) → input.now ≡ Some had → EndsWith had result }
{
    if input.inside() {
        End::Inside
    } else {
        End::Clean
    }
}

/// Answers the requests that end in a piece, and writes the replies: all that are gathered when the
/// piece is done, and before that whenever they are 65,536 bytes or more.
fn write_replies<A: Answers, R, W, E: Ends<R, W>>(
    alloc: Global,
    answerer: &mut A,
    input: &mut zq_resp::Reader,
    piece: &[u8],
    ends: &E,
    reader: &mut R,
    writer: &mut W,
    out: &mut Vec<u8>,
) -> Result<Served, SessionFault>
    requires { out.old.items ≡ [] }
    ensures served { (had : List ℕ) → input.old ≡ Some had → (bytes : List ℕ)
        × Says E.does (reader.old, writer.old) (reader.new, writer.new) bytes
        × ServesPiece A.answers answerer.old answerer.new had piece.now input.new bytes result }
    ensures none_waits { OnOk result (out.new.items ≡ []) }
{
    let served = serve_piece(alloc, answerer, input, piece, ends, reader, writer, out);
    if has_failed(&served) {
        return served;
    }
    write_gathered(ends, reader, writer, out)?;
    served
}

/// Whether the writer has failed. Nothing is written after that.
fn has_failed(served: &Result<Served, SessionFault>) -> bool
    ensures { IsTrue result ↔ (served.now ≡ Err SessionFault.Write) }
{
    matches!(served, Err(SessionFault::Write))
}
