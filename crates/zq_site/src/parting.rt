//! How a peer is let go.

ghost use Rattle.std.specs.Prelude.{◌≡◌};
ghost use Rattle.zq_site.specs.Notices.{reason_for};

use crate::hasty::Hasty;
use crate::notice::{Notice, Reason, frame_notice};
use crate::shared::Shared;
use crate::times;
use std::io::{Read, Write};
use std::net::{Shutdown, TcpStream};
use std::sync::Wait;
use std::time::Clock;
use zq_wire::Refusal;

/// How many bytes are read at once of a peer that is let go.
const SOME: usize = 64;

/// How often something is read of it, at most.
const MOST_PIECES: usize = 64;

/// Why a peer was let go, as it is told, where it may not see that by itself. All else it sees in
/// the greeting that it got.
pub fn reason_for(refusal: Refusal) -> Option<Reason>
    ensures { result ≡ reason_for refusal }
{
    match refusal {
        Refusal::Unexpected(_) => Some(Reason::Unexpected),
        Refusal::Answer => Some(Reason::Secret),
        Refusal::Magic
        | Refusal::Version { .. }
        | Refusal::Form(_)
        | Refusal::SameSite
        | Refusal::Heaps(_)
        | Refusal::Rule
        | Refusal::SecretThere
        | Refusal::SecretHere => None,
    }
}

/// Tells a peer by a notice that it is let go, and waits until it has closed its end, for a second
/// at most. If the stream were closed while something that came is unread, the peer's system might
/// drop the notice.
pub fn part<R: Clock + Wait>(rt: &R, shared: Shared<'_>, stream: &TcpStream, notice: Notice) {
    if let Ok(bytes) = frame_notice(shared.alloc, notice) {
        let mut writer = stream;
        let _ = writer.write_all(&bytes);
    }
    let _ = stream.shutdown(Shutdown::Write);
    if let Ok(mut reader) = Hasty::new(rt, shared, stream, times::parting()) {
        drop_rest(&mut reader);
    }
}

/// Reads what still comes, up to the end, and forgets it.
fn drop_rest<R: Read>(reader: &mut R) {
    let mut piece = [0u8; SOME];
    for _ in 0..MOST_PIECES {
        match reader.read(&mut piece) {
            Ok(0) | Err(_) => break,
            Ok(_) => {}
        }
    }
}
