//! The kind of an entry.

ghost use Rattle.std.specs.Prelude.{IfOk, ◌∷◌, ◌≡◌};
ghost use Rattle.zq_entries.specs.Answer.{Gives};
ghost use Rattle.zq_entries.specs.Kind.{kind_byte};
ghost use Rattle.zq_entries.specs.Reading.{kind_at};

use crate::fault::EntryFault;
use zq_fields::read_byte;

/// A kind of entry, which its first byte names.
#[derive(Clone, Copy, Debug, PartialEq, Eq)]
pub(crate) enum Kind {
    Start,
    Round,
    Sealed,
    Rest,
    Piece,
}

impl Kind {
    /// The byte that names it.
    pub(crate) fn byte(self) -> u8
        ensures { result ≡ kind_byte self }
    {
        match self {
            Kind::Start => 1,
            Kind::Round => 2,
            Kind::Sealed => 3,
            Kind::Rest => 4,
            Kind::Piece => 10,
        }
    }
}

/// Takes the kind from the front of the bytes.
pub(crate) fn read_kind(bytes: &mut &[u8]) -> Result<Kind, EntryFault>
    ensures exact { Gives (λ k. (k, bytes.new.now)) result (kind_at bytes.old.now) }
    ensures found { IfOk result (λ k. bytes.old.now ≡ kind_byte k ∷ bytes.new.now) }
{
    let Some((byte, rest)) = read_byte(bytes) else {
        return Err(EntryFault::Short);
    };
    *bytes = rest;
    match byte {
        1 => Ok(Kind::Start),
        2 => Ok(Kind::Round),
        3 => Ok(Kind::Sealed),
        4 => Ok(Kind::Rest),
        10 => Ok(Kind::Piece),
        _ => Err(EntryFault::Kind),
    }
}
