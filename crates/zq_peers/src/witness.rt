//! What is told of frames that were not heard.
ghost use Rattle.zq_peers.specs.Witnesses.{IsReported};

use crate::unheard::Unheard;
use zq_dots::SiteNo;

/// What is told of frames that a link thread dropped.
pub trait Witness {
    ghost use Rattle.std.specs.Prelude.{ℕ};
    ghost use Rattle.zq_peers.specs.declared.unheard.Unheard.{Unheard as Why};

    /// The state before, the site, why its frame was not heard, and the state after.
    ghost tells: { Self → ℕ → Why → Self → Type 0 };

    /// A frame of this site was not heard.
    fn drops(&mut self, from: SiteNo, why: Unheard)
        ensures { tells self.old from why self.new };
}

/// Tells nobody.
#[derive(Clone, Copy, Debug, PartialEq, Eq)]
pub struct Silent;

impl Witness for Silent {
    ghost use Rattle.std.specs.Prelude.{◌≡◌};

    ghost tells = { λ old from why new. new ≡ old };

    fn drops(&mut self, _from: SiteNo, _why: Unheard) {}
}

/// Tells the witness, once, where a frame of this site was not heard.
pub(crate) fn report<T: Witness>(witness: &mut T, from: SiteNo, heard: Result<bool, Unheard>)
    ensures { IsReported T.tells witness.old from heard witness.new }
{
    if let Err(why) = heard {
        witness.drops(from, why);
    }
}
