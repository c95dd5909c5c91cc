//! Where a walk through the members of a heap stands.

ghost use Rattle.std.specs.Prelude.{IfOk, OnOk, ◌++◌, ◌≡◌};
ghost use Rattle.zq_fields.specs.Reading.{Gives};
ghost use Rattle.zq_links.specs.Steps.{IsSpot, spot_at, spot_bytes};

use crate::numbers::take_u64;
use std::alloc::AllocError;
use zq_fields::{PartFault, write_u64};

/// Where a walk through the members of a heap stands. The walk goes down: from the last key to the
/// first, and in each key from the last member to the first. Still to come are the members of all
/// keys whose places are below `key`, and of the key at the place `key` those members whose places
/// are below `member`. Where both are 0 nothing is still to come.
///
/// Places count from 0, and are those of the heap of the site that walks. They mean nothing in
/// another heap, nor in another life of it.
#[derive(Clone, Copy, Debug, PartialEq, Eq)]
pub struct Spot {
    /// The place of a key.
    pub key: u64,
    /// The place of a member of this key.
    pub member: u64,
}

/// Takes a spot.
#[tactic(auto, unfolding(crate::specs::Steps::spot_at, crate::specs::Steps::spot_bytes))]
pub(crate) fn read_spot(bytes: &mut &[u8]) -> Result<Spot, PartFault>
    ensures exact { Gives (λ x. (x, bytes.new.now)) result (spot_at bytes.old.now) }
    ensures found { IfOk result (λ x. bytes.old.now ≡ spot_bytes x ++ bytes.new.now) }
{
    let key = take_u64(bytes)?;
    let member = take_u64(bytes)?;
    Ok(Spot { key, member })
}

/// Appends a spot.
#[tactic(auto, unfolding(crate::specs::Steps::spot_bytes))]
pub(crate) fn write_spot(out: &mut Vec<u8>, spot: &Spot) -> Result<(), AllocError>
    ensures written { OnOk result (out.new.items ≡ out.old.items ++ spot_bytes spot.now) }
    ensures sound { OnOk result (IsSpot spot.now) }
{
    write_u64(out, spot.key)?;
    write_u64(out, spot.member)
}
