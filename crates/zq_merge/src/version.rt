//! The versions of a state's frame.

ghost use Rattle.std.specs.Prelude.{◌≡◌, ◌≤◌, ◌∷◌, IfErr, IfOk};
ghost use Rattle.zq_merge.specs.Answer.{Gives};
ghost use Rattle.zq_merge.specs.Refused.{IsOfBytes};
ghost use Rattle.zq_merge.specs.State.{version_at};
ghost use Rattle.zq_merge.specs.Version as version;
ghost use Rattle.zq_model.specs.Sets as sets;

use crate::fault::StateFault;
use zq_dots::SITES;
use zq_fields::{DENSE_SITES, read_byte};

/// A version of the frame, which its first byte names.
#[derive(Clone, Copy, Debug, PartialEq, Eq)]
pub enum Version {
    /// The sites are 0 to 7; the vector has a counter and an addition a sum for each of them. The
    /// rule is High.
    One,
    /// The vector has an entry for each site of which anything is known, and an addition a sum for
    /// each site where it is not 0. The rule is High.
    Two,
    /// The second, with the rule.
    Three,
}

impl Version {
    /// The byte that names it.
    pub(crate) fn byte(self) -> u8
        ensures { result ≡ version.version_byte self }
    {
        match self {
            Version::One => 1,
            Version::Two => 2,
            Version::Three => 3,
        }
    }

    /// The number of sites that it knows.
    #[tactic(auto, unfolding(zq_model::specs::Sets::SITES, zq_fields::specs::Vectors::DENSE_SITES))]
    pub(crate) fn sites(self) -> u8
        ensures exact { result ≡ version.sites self }
        ensures most { result ≤ sets.SITES }
    {
        match self {
            Version::One => DENSE_SITES,
            Version::Two | Version::Three => SITES as u8,
        }
    }
}

/// Takes the version from the front of the bytes.
pub(crate) fn read_version(bytes: &mut &[u8]) -> Result<Version, StateFault>
    ensures exact { Gives (λ v. (v, bytes.new.now)) result (version_at bytes.old.now) }
    ensures of_bytes { IfErr result IsOfBytes }
    ensures found { IfOk result (λ v. bytes.old.now ≡ version.version_byte v ∷ bytes.new.now) }
{
    let Some((byte, rest)) = read_byte(bytes) else {
        return Err(StateFault::Short);
    };
    *bytes = rest;
    match byte {
        1 => Ok(Version::One),
        2 => Ok(Version::Two),
        3 => Ok(Version::Three),
        _ => Err(StateFault::Version),
    }
}
