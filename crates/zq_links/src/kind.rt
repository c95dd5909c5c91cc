//! The kind of a frame.

ghost use Rattle.std.specs.Prelude.{◌≡◌, ◌∷◌, IfOk};
ghost use Rattle.zq_links.specs.Answer.{Gives};
ghost use Rattle.zq_links.specs.Kind as kind;
ghost use Rattle.zq_links.specs.Reading.{kind_at};

use crate::frame_fault::FrameFault;
use zq_fields::read_byte;
use zq_merge::Version;

/// A kind of frame, which its first byte names. A Have has what stands before the keys of a state
/// of the same version, and its sender.
#[derive(Clone, Copy, Debug, PartialEq, Eq)]
pub(crate) enum Kind {
    Have(Version),
    Ops,
    State,
}

impl Kind {
    /// The byte that names it.
    pub(crate) fn byte(self) -> u8
        ensures { result ≡ kind.kind_byte self }
    {
        match self {
            Kind::Have(Version::One) => 1,
            Kind::Ops => 2,
            Kind::State => 3,
            Kind::Have(Version::Two) => 4,
            Kind::Have(Version::Three) => 5,
        }
    }
}

/// Takes the kind from the front of the bytes.
pub(crate) fn read_kind(bytes: &mut &[u8]) -> Result<Kind, FrameFault>
    ensures exact { Gives (λ k. (k, bytes.new.now)) result (kind_at bytes.old.now) }
    ensures found { IfOk result (λ k. bytes.old.now ≡ kind.kind_byte k ∷ bytes.new.now) }
{
    let Some((byte, rest)) = read_byte(bytes) else {
        return Err(FrameFault::Short);
    };
    *bytes = rest;
    match byte {
        1 => Ok(Kind::Have(Version::One)),
        2 => Ok(Kind::Ops),
        3 => Ok(Kind::State),
        4 => Ok(Kind::Have(Version::Two)),
        5 => Ok(Kind::Have(Version::Three)),
        _ => Err(FrameFault::Kind),
    }
}
