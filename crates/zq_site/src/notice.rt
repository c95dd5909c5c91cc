//! What a site tells a peer by a frame of its own: that it is let go, or that another run was.

ghost use Rattle.std.specs.Prelude.{IfOk, ◌≡◌};
ghost use Rattle.zq_site.specs.Notices.{notice_bytes, notice_frame, notice_in, reason_at_end};

use std::alloc::{AllocError, Global};
use zq_wire::write_framed;

/// Why a site lets a peer go that may not see it by itself.
#[derive(Clone, Copy, Debug, PartialEq, Eq)]
pub enum Reason {
    /// It does not expect the peer.
    Unexpected,
    /// The two do not have one secret.
    Secret,
}

/// What a peer tells a site.
#[derive(Clone, Copy, Debug, PartialEq, Eq)]
pub enum Notice {
    /// The peer has a link to another run of this site's number, and takes none to this one.
    Refused,
    /// The peer took no link to another run of this site's number.
    Kept,
    /// The peer lets this site go as the link is opened.
    Unwelcome(Reason),
}

const REFUSED: &[u8] = b"zq-note\n\x01";

const KEPT: &[u8] = b"zq-note\n\x02";

const UNEXPECTED: &[u8] = b"zq-note\n\x03";

const SECRET: &[u8] = b"zq-note\n\x04";

// The same behind their lengths.
const LAST_UNEXPECTED: &[u8] = b"\x00\x00\x00\x09zq-note\n\x03";

const LAST_SECRET: &[u8] = b"\x00\x00\x00\x09zq-note\n\x04";

/// The frame that says so. A site that does not know it drops it.
pub fn write_notice(alloc: Global, notice: Notice) -> Result<Vec<u8>, AllocError>
    ensures { IfOk result (λ bytes. bytes.items ≡ notice_bytes notice) }
{
    let mut bytes = Vec::new(alloc);
    bytes.extend_from_slice(bytes_of(notice))?;
    Ok(bytes)
}

/// The bytes of the frame that says so.
fn bytes_of(notice: Notice) -> &'static [u8]
    ensures { result.now ≡ notice_bytes notice }
{
    match notice {
        Notice::Refused => REFUSED,
        Notice::Kept => KEPT,
        Notice::Unwelcome(Reason::Unexpected) => UNEXPECTED,
        Notice::Unwelcome(Reason::Secret) => SECRET,
    }
}

/// The frame that says so, behind its length.
pub fn frame_notice(alloc: Global, notice: Notice) -> Result<Vec<u8>, AllocError>
    ensures { IfOk result (λ bytes. bytes.items ≡ notice_frame notice) }
{
    let mut bytes = Vec::new(alloc);
    write_framed(&mut bytes, bytes_of(notice))?;
    Ok(bytes)
}

/// What a frame says, where it is one of these.
pub fn read_notice(bytes: &[u8]) -> Option<Notice>
    ensures { result ≡ notice_in bytes.now }
{
    if bytes == REFUSED {
        Some(Notice::Refused)
    } else if bytes == KEPT {
        Some(Notice::Kept)
    } else if bytes == UNEXPECTED {
        Some(Notice::Unwelcome(Reason::Unexpected))
    } else if bytes == SECRET {
        Some(Notice::Unwelcome(Reason::Secret))
    } else {
        None
    }
}

/// Why the peer let this site go, where all that came of it ends in a notice that says so, behind
/// its length.
#[tactic(auto, unfolding(zq_wire::specs::Framed::framed))]
pub fn reason_at_end(heard: &[u8]) -> Option<Reason>
    ensures { result ≡ reason_at_end heard.now }
{
    if heard.ends_with(LAST_UNEXPECTED) {
        Some(Reason::Unexpected)
    } else if heard.ends_with(LAST_SECRET) {
        Some(Reason::Secret)
    } else {
        None
    }
}
