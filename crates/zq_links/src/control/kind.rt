//! The kind of a control frame.

ghost use Rattle.std.specs.Prelude.{IfOk, IsSomeAnd, IsTrue, false, slice_get, ◌∷◌, ◌↔◌, ◌≡◌, ◌≤◌};
ghost use Rattle.zq_links.specs.Answer.{Gives};
ghost use Rattle.zq_links.specs.Control as model;
ghost use Rattle.zq_links.specs.ControlKind as kind;
ghost use Rattle.zq_links.specs.ControlReading.{kind_at};
ghost use Rattle.zq_links.specs.ControlSpelling.{control_spelling};
ghost use Rattle.zq_links.specs.Frame.{Frame};
ghost use Rattle.zq_links.specs.Spelling.{IsSpelled};

use crate::frame_fault::FrameFault;
use zq_fields::read_byte;

/// A kind of control frame, which its first byte names.
#[derive(Clone, Copy, Debug, PartialEq, Eq)]
pub(crate) enum ControlKind {
    Routes,
    At,
    Behind,
    Fetch,
}

impl ControlKind {
    /// The byte that names it.
    pub(crate) fn byte(self) -> u8
        ensures { result ≡ kind.kind_byte self }
    {
        match self {
            ControlKind::Routes => 6,
            ControlKind::At => 7,
            ControlKind::Behind => 8,
            ControlKind::Fetch => 9,
        }
    }
}

/// Whether the first byte names a kind of control frame, 6 to 9. The other bytes may be anything.
pub fn is_control(bytes: &[u8]) -> bool
    ensures kind { IsTrue result
        ↔ IsSomeAnd (slice_get bytes.now 0) (λ byte. (6 ≤ byte) × (byte ≤ 9)) }
    ensures control { (c : model.Control) → bytes.now ≡ control_spelling c → IsTrue result }
    ensures frame { (f : Frame) → IsSpelled f bytes.now → result ≡ false }
{
    match bytes.first() {
        Some(byte) => 6 <= *byte && *byte <= 9,
        None => false,
    }
}

/// Takes the kind from the front of the bytes.
pub(crate) fn read_control_kind(bytes: &mut &[u8]) -> Result<ControlKind, FrameFault>
    ensures exact { Gives (λ k. (k, bytes.new.now)) result (kind_at bytes.old.now) }
    ensures found { IfOk result (λ k. bytes.old.now ≡ kind.kind_byte k ∷ bytes.new.now) }
{
    let Some((byte, rest)) = read_byte(bytes) else {
        return Err(FrameFault::Short);
    };
    *bytes = rest;
    match byte {
        6 => Ok(ControlKind::Routes),
        7 => Ok(ControlKind::At),
        8 => Ok(ControlKind::Behind),
        9 => Ok(ControlKind::Fetch),
        _ => Err(FrameFault::Kind),
    }
}
