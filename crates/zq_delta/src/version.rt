//! The versions of an operation's frame.

ghost use Rattle.std.specs.Prelude.{◌≡◌, ◌≤◌, ◌++◌, ◌∷◌, IfOk};
ghost use Rattle.zq_delta.specs.Answer.{Gives};
ghost use Rattle.zq_delta.specs.Reading.{version_at};
ghost use Rattle.zq_delta.specs.Version as version;
ghost use Rattle.zq_model.specs.Sets as sets;

use crate::fault::OpFault;
use zq_dots::SITES;
use zq_fields::{DENSE_SITES, read_byte};

/// A version of the frame, which its first byte names.
#[derive(Clone, Copy, Debug, PartialEq, Eq)]
pub enum Version {
    /// The sites are 0 to 7, and the vector is a counter for each of them.
    One,
    /// The vector is an entry for each site of which anything is known.
    Two,
}

impl Version {
    /// The byte that names it.
    pub(crate) fn byte(self) -> u8
        ensures { result ≡ version.version_byte self }
    {
        match self {
            Version::One => 1,
            Version::Two => 2,
        }
    }

    /// The number of sites that it knows.
    #[tactic(auto, unfolding(zq_model::specs::Sets::SITES, zq_fields::specs::Vectors::DENSE_SITES))]
    pub(crate) fn sites(self) -> u8
        ensures exact { result ≡ version.sites self }
        ensures most { result ≤ sets.SITES }
    {
        match self {
            Version::One => DENSE_SITES,
            Version::Two => SITES as u8,
        }
    }
}

/// Takes the version from the front of the bytes.
pub(crate) fn read_version(bytes: &mut &[u8]) -> Result<Version, OpFault>
    ensures exact { Gives (λ v. (v, bytes.new.now)) result (version_at bytes.old.now) }
    ensures found { IfOk result (λ v. bytes.old.now ≡ version.version_byte v ∷ bytes.new.now) }
{
    let Some((byte, rest)) = read_byte(bytes) else {
        return Err(OpFault::Short);
    };
    *bytes = rest;
    match byte {
        1 => Ok(Version::One),
        2 => Ok(Version::Two),
        _ => Err(OpFault::Version),
    }
}
