//! What is done of a link that is up, in its order.

ghost use Rattle.zq_site.specs.Upkeep.{Deed, IsKeptUp};
ghost use Rattle.zq_site.specs.Upkeep.Deed.{Hears, Lowers, Tells, Warns};

use crate::loss::Loss;

/// What can be done of a link.
pub trait Upkeep {
    /// What stands before, the deed, and what stands after.
    ghost does: { Self → Deed → Self → Type 0 };

    /// Has the peers told what the site has.
    fn tell(&mut self)
        ensures { does self.old Tells self.new };

    /// Hears the peer until the link ends, and says why it did.
    fn hear(&mut self) -> Loss
        ensures { does self.old (Hears result) self.new };

    /// Takes the link down, and says whether it was up: another thread or a newer link may have
    /// ended it before.
    fn lower(&mut self) -> bool
        ensures { does self.old (Lowers result) self.new };

    /// Warns of the link's end.
    fn warn(&mut self, loss: Loss)
        ensures { does self.old (Warns loss) self.new };
}

/// Keeps a link that is up until it ends: at once the peers are told what the site has, then the
/// peer is heard. The end is warned of where the link was up until then.
pub fn keep_up<U: Upkeep>(link: &mut U)
    ensures { IsKeptUp U.does link.old link.new }
{
    link.tell();
    let loss = link.hear();
    if link.lower() {
        link.warn(loss);
    }
}
