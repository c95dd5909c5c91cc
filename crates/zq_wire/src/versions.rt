//! The versions of the protocol that a site speaks.

use std::fmt;

/// The versions from the lowest to the highest, both of which it has.
#[derive(Clone, Copy, Debug, PartialEq, Eq)]
pub struct Versions {
    /// The lowest.
    pub lowest: u8,
    /// The highest.
    pub highest: u8,
}

/// What this program speaks.
pub const VERSIONS: Versions = Versions {
    lowest: 1,
    highest: 2,
};

impl Versions {
    ghost use Rattle.std.specs.Prelude.{◌≡◌};
    ghost use Rattle.zq_wire.specs.Ranges.{agreed};

    /// The greatest version that this range and one that was heard have. `None` where there is
    /// none, or what was heard begins at 0.
    pub(crate) fn agree(self, heard: Versions) -> Option<u8>
        ensures { result ≡ agreed self heard }
    {
        let version = self.highest.min(heard.highest);
        if 0 < heard.lowest && heard.lowest <= version && self.lowest <= version {
            Some(version)
        } else {
            None
        }
    }
}

impl fmt::Display for Versions {
    ghost use Rattle.std.specs.Prelude.{Some};
    ghost use Rattle.zq_wire.specs.Words.{words_of_versions};

    ghost output = { λ versions. Some (words_of_versions versions) };

    /// As `version 1` or `versions 1 to 2`.
    fn fmt<W: fmt::Write>(&self, f: &mut fmt::Formatter<W>) -> fmt::Result {
        let Versions { lowest, highest } = *self;
        if lowest == highest {
            write!(f, "version {lowest}")
        } else {
            write!(f, "versions {lowest} to {highest}")
        }
    }
}
