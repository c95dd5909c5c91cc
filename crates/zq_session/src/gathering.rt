//! Replies that are gathered, so that one write takes many of them.

ghost use Rattle.std.specs.Prelude.{◌≡◌, ◌++◌, ◌+◌, ◌<◌, IsTrue, MatchResult, OnErr, [], length, ℕ, take};
ghost use Rattle.std.specs.Vec.{vec_capacity, vec_len};
ghost use Rattle.zq_resp.specs.Reply.{is_writable, reply_bytes};
ghost use Rattle.zq_session.specs.Gathering.{Gathers, IsCutOff, held};
ghost use Rattle.zq_session.specs.Steps.{FULL, Said};

use crate::ends::Ends;
use crate::outcome::SessionFault;
use zq_resp::{Reply, write_reply};

// As many bytes of replies are written at once.
pub const GATHERED: usize = 65_536;

/// Writes all that is gathered where it is 65,536 bytes or more. So fewer wait then. After a fault
/// of the writer the rest is lost.
pub fn write_many<R, W, E: Ends<R, W>>(
    ends: &E,
    reader: &mut R,
    writer: &mut W,
    out: &mut Vec<u8>,
) -> Result<(), SessionFault>
    ensures { MatchResult result
        (λ done. Gathers E.does (held (reader.old, writer.old) out.old.items)
        (held (reader.new, writer.new) out.new.items) [] × (length out.new.items < FULL))
        (λ fault. (fault ≡ SessionFault.Write)
        × IsCutOff E.does (held (reader.old, writer.old) out.old.items)
        (held (reader.new, writer.new) out.new.items) []) }
{
    if out.len() >= GATHERED {
        return write_gathered(ends, reader, writer, out);
    }
    Ok(())
}

/// Puts a reply's bytes behind those that are gathered.
///
/// - `NoMemory`: what was gathered still waits. There was no room for the reply behind it.
pub(crate) fn put_reply(out: &mut Vec<u8>, reply: &Reply) -> Result<(), SessionFault>
    requires { IsTrue (is_writable reply.now) }
    ensures put { MatchResult result
        (λ done. out.new.items ≡ out.old.items ++ reply_bytes reply.now)
        (λ fault. (fault ≡ SessionFault.NoMemory) × (out.new.items ≡ out.old.items)) }
    ensures full { OnErr result
        (vec_capacity out.old < vec_len out.old + length (reply_bytes reply.now)) }
{
    match write_reply(out, reply) {
        Ok(()) => Ok(()),
        Err(_) => Err(SessionFault::NoMemory),
    }
}

/// Writes what is gathered, all at once. Nothing waits then; after a fault of the writer the rest
/// is lost.
pub fn write_gathered<R, W, E: Ends<R, W>>(
    ends: &E,
    reader: &mut R,
    writer: &mut W,
    out: &mut Vec<u8>,
) -> Result<(), SessionFault>
    ensures { MatchResult result
        (λ done. (out.new.items ≡ [])
        × E.does (reader.old, writer.old) (Said out.old.items) (reader.new, writer.new))
        (λ fault. (fault ≡ SessionFault.Write) × (out.new.items ≡ [])
        × ((at : ℕ) × E.does (reader.old, writer.old) (Said (take at out.old.items))
        (reader.new, writer.new))) }
{
    match ends.say(reader, writer, out) {
        Ok(()) => {
            out.clear();
            Ok(())
        }
        Err(fault) => {
            out.clear();
            Err(fault)
        }
    }
}
