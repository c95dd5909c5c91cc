//! Why a link is down.

use std::fmt;
use zq_wire::StreamFault;

/// Why a link is down.
#[derive(Clone, Copy, Debug, PartialEq, Eq)]
pub enum Loss {
    /// The peer closed it.
    Closed,
    /// A read or a write failed.
    Broken,
    /// Nothing came for as long as a peer may say nothing.
    Silent,
    /// A frame is longer than a frame may be.
    TooLong,
    /// There was no memory for what came.
    NoMemory,
}

impl From<StreamFault> for Loss {
    ghost use Rattle.std.specs.Prelude.{◌≡◌};
    ghost use Rattle.zq_site.specs.Heard.{loss_of};

    ghost from_gives = { λ fault loss. loss ≡ loss_of fault };

    fn from(fault: StreamFault) -> Loss {
        match fault {
            StreamFault::TooLong => Loss::TooLong,
            StreamFault::NoMemory => Loss::NoMemory,
            StreamFault::Over => Loss::Broken,
        }
    }
}

impl fmt::Display for Loss {
    ghost use Rattle.std.specs.Prelude.{Some};
    ghost use Rattle.zq_site.specs.Words.{words_of_loss};

    ghost output = { λ loss. Some (words_of_loss loss) };

    /// Why, on one line.
    fn fmt<W: fmt::Write>(&self, f: &mut fmt::Formatter<W>) -> fmt::Result {
        f.write_str(match self {
            Loss::Closed => "it was closed",
            Loss::Broken => "it broke",
            Loss::Silent => "nothing came for 20 seconds",
            Loss::TooLong => "a frame is too long",
            Loss::NoMemory => "there was no memory for what came",
        })
    }
}
