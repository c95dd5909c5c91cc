//! What sends frames to a peer.

ghost use Rattle.std.specs.Prelude.{OnOk, ◌++◌, ◌≡◌};
ghost use Rattle.zq_site.specs.FrameQueues.{frames_of};
ghost use Rattle.zq_site.specs.Times as wanted;
ghost use Rattle.zq_site.specs.Written.{AreWritten, framed_each, framed_if};

use crate::loss::Loss;
use crate::peer_link::{PeerLink, QueuedFrames};
use crate::shared::Shared;
use crate::times::most_frame;
use crate::warning::Warning;
use crate::warning_log::warn_of;
use log::Log;
use std::alloc::{AllocError, Global};
use std::io::Write;
use std::net::TcpStream;
use std::sync::Wait;
use std::time::Clock;
use zq_wire::write_framed;

/// Sends a peer the frames that wait for it, until the site ends, and a heartbeat where none came
/// for some time: so a link is not lost where the link thread has much to do. Where a write fails
/// the link is down. A frame for which there was no memory is dropped. Once all is written the link
/// thread is told that the peer takes more, where it waits for that.
pub fn write_link<L: Log + Wait + Clock>(log: &L, shared: Shared<'_>, peer_link: &PeerLink) {
    for _ in log.forever() {
        let Some(queued) = peer_link.next(log) else {
            break;
        };
        write_queued(log, shared, peer_link, &queued);
        if peer_link.written(log, queued.number) {
            shared.post.push(log);
        }
    }
}

/// Sends frames over their link by one write. A frame that is too long is warned of, and not sent.
fn write_queued<L: Log + Wait>(
    log: &L,
    shared: Shared<'_>,
    peer_link: &PeerLink,
    queued: &QueuedFrames,
) {
    let (site, peer) = (shared.settings.site, peer_link.site);
    if queued.frames.iter().any(|frame| is_too_long(frame)) {
        warn_of(log, site, Warning::Keeps(peer));
    }
    let mut stream: &TcpStream = &queued.stream;
    let written = send_frames(shared.alloc, &mut stream, &queued.frames);
    if written == Written::Whole {
        count_frames(peer_link, &queued.frames);
    }
    if written == Written::Broken {
        let address = queued.stream.peer_addr().ok();
        if peer_link.lower(log, queued.number) {
            shared.down(log, peer, queued.number);
            warn_of(log, site, Warning::Loses(peer, address, Loss::Broken));
        }
    }
}

/// Counts frames that went over a link.
fn count_frames(peer_link: &PeerLink, frames: &[Vec<u8>]) {
    for frame in frames {
        if !is_too_long(frame) {
            peer_link.traffic.go(frame.len() as u64);
        }
    }
}

/// Whether a frame is longer than a frame may be.
fn is_too_long(frame: &[u8]) -> bool
    ensures { result ≡ wanted.is_too_long frame.now }
{
    frame.len() > most_frame() as usize
}

/// What became of frames.
#[derive(Clone, Copy, Debug, PartialEq, Eq)]
enum Written {
    /// They were written, but for those that are too long.
    Whole,
    /// There was no memory for them, and nothing was written.
    Dropped,
    /// The stream failed, and may have a part of them.
    Broken,
}

/// Writes frames, each behind its length, but for those that are too long.
fn send_frames<W: Write>(alloc: Global, writer: &mut W, frames: &[Vec<u8>]) -> Written
    ensures { AreWritten (W.contents writer.old) (W.contents writer.new)
        (frames_of frames.now) result }
{
    let mut bytes = Vec::new(alloc);
    if gather(&mut bytes, frames).is_err() {
        return Written::Dropped;
    }
    match writer.write_all(&bytes) {
        Ok(()) => Written::Whole,
        Err(_) => Written::Broken,
    }
}

/// Appends frames, each behind its length, but for those that are too long.
fn gather(bytes: &mut Vec<u8>, frames: &[Vec<u8>]) -> Result<(), AllocError>
    ensures { OnOk result
        (bytes.new.items ≡ bytes.old.items ++ framed_each (frames_of frames.now)) }
{
    for frame in frames {
        append_framed(bytes, frame)?;
    }
    Ok(())
}

/// Appends a frame behind its length, unless it is too long.
fn append_framed(bytes: &mut Vec<u8>, frame: &[u8]) -> Result<(), AllocError>
    ensures { OnOk result (bytes.new.items ≡ bytes.old.items ++ framed_if frame.now) }
{
    if is_too_long(frame) {
        return Ok(());
    }
    write_framed(bytes, frame)?;
    Ok(())
}
