//! What a frame is about.

ghost use Rattle.std.specs.Prelude.{None, slice_get, ◌≡◌};
ghost use Rattle.zq_links.specs.About.{about, topic_at};
ghost use Rattle.zq_links.specs.Control.{Control};
ghost use Rattle.zq_links.specs.ControlSpelling.{control_spelling};
ghost use Rattle.zq_links.specs.Frame.{Frame};
ghost use Rattle.zq_links.specs.Pieces.{piece_bytes};
ghost use Rattle.zq_links.specs.Spelling.{IsSpelled};
ghost use Rattle.zq_links.specs.declared.piece.Piece.{Piece};

use zq_wire::Topic;

/// What a frame is about, by its bytes: a Have of its heap, or an answer of its heap. The heap of
/// operations is that of the first one; where there is none they are about nothing. It looks at the
/// byte that names the kind and at that of the heap, which has one place in all versions; the other
/// bytes may be anything.
///
/// All other kinds are about nothing: they go only to peers that are pushed to, to which frames go
/// in their order. A control frame does not take the place of an older one, and a piece not that of
/// the piece, or of the operations, before it.
pub fn topic_of(bytes: &[u8]) -> Option<Topic>
    ensures exact { result ≡ topic_at bytes.now }
    ensures spelled { (frame : Frame) → IsSpelled frame bytes.now → result ≡ about frame }
    ensures control { (c : Control) → bytes.now ≡ control_spelling c → result ≡ None }
    ensures piece { (p : Piece) → bytes.now ≡ piece_bytes p → result ≡ None }
{
    read_topic(bytes)
}

/// What the bytes are about.
fn read_topic(bytes: &[u8]) -> Option<Topic>
    ensures { result ≡ topic_at bytes.now }
{
    let (kind, rest) = bytes.split_first()?;
    match kind {
        1 | 4 | 5 => heap_at(rest, 1).map(Topic::Have),
        2 => heap_at(rest, 6).map(Topic::Answer),
        3 => heap_at(rest, 2).map(Topic::Answer),
        _ => None,
    }
}

/// The byte at this place.
fn heap_at(bytes: &[u8], place: usize) -> Option<u8>
    ensures { result ≡ slice_get bytes.now place }
{
    bytes.get(place).copied()
}
