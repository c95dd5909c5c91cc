//! Whether heaps that were read may be adopted.

ghost use Rattle.std.specs.Prelude.{IfErr, IsTrue, OnOk};
ghost use Rattle.zq_adopt.specs.Judged.{AreForeign, IsFit, IsUnfitFor};
ghost use Rattle.zq_model.specs.Sets.{IsHeaps};
ghost use Rattle.zq_recovery.specs.Step.{AreWhole};

use zq_dots::SiteNo;
use zq_keeper::Reader;
use zq_stage::Stage;

/// How many heaps a site has at most.
const MOST_HEAPS: u8 = 16;

/// Why a site of some number may not adopt the heaps of a log.
#[derive(Clone, Copy, Debug, PartialEq, Eq)]
pub enum Unfit {
    /// Pieces of a heap are missing, or no site has so many heaps.
    NotWhole,
    /// They are that site's own.
    OwnNumber,
    /// They have operations of that site.
    UsedNumber,
}

/// Whether a site of this number may adopt the heaps that were read: they are whole, of another site,
/// and have no operation of the number, also none whose member is gone. The first reason why not.
pub fn judge(reader: &Reader, site: SiteNo) -> Result<(), Unfit>
    ensures fit { OnOk result (IsFit reader.now site) }
    ensures unfit { IfErr result (λ why. IsUnfitFor reader.now site why) }
{
    let stages = reader.recovery.stages.as_slice();
    if !are_heaps(reader.recovery.identity.heaps) || !are_whole(stages) {
        return Err(Unfit::NotWhole);
    }
    if reader.recovery.identity.site == site {
        return Err(Unfit::OwnNumber);
    }
    if !are_foreign(stages, site) {
        return Err(Unfit::UsedNumber);
    }
    Ok(())
}

/// Whether a site may have so many heaps.
fn are_heaps(heaps: u8) -> bool
    ensures heaps { IsTrue result → IsHeaps heaps }
    ensures other { IsHeaps heaps → IsTrue result }
{
    1 <= heaps && heaps <= MOST_HEAPS
}

/// Whether all pieces of all heaps came.
fn are_whole(stages: &[Stage]) -> bool
    ensures whole { IsTrue result → AreWhole stages.now }
    ensures other { AreWhole stages.now → IsTrue result }
{
    for stage in stages {
        if !stage.is_whole() {
            return false;
        }
    }
    true
}

/// Whether no heap has an operation of the site.
fn are_foreign(stages: &[Stage], site: SiteNo) -> bool
    ensures foreign { IsTrue result → AreForeign site stages.now }
    ensures other { AreForeign site stages.now → IsTrue result }
{
    for stage in stages {
        if stage.vector().get(site) != 0 {
            return false;
        }
    }
    true
}
