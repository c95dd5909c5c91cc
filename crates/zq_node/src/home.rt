//! Where a node is at home.
ghost use Rattle.std.specs.Prelude.{◌≡◌, ◌<◌, IfErr, IfSome, OnOk, option_map};
ghost use Rattle.zq_links.specs.Frame.{IsWritable, OfHave, frame_of};
ghost use Rattle.zq_dots.specs.Rule.{rule_of};
ghost use Rattle.zq_node.specs.Hearing.{IsHeapOf, IsNotFor, have_at, own_have};
ghost use Rattle.zq_node.specs.Node.{IsHome};
ghost use Rattle.zq_spread.specs.Calls.{heaps_of};

use crate::faults::NodeFault;
use zq_dots::{Rule, SiteNo, Vector};
use zq_links::{Frame, Have};
use zq_spread::Site;

/// A site, with its number, the number of its heaps and its rule.
#[derive(Clone, Copy)]
pub(crate) struct Home<'a> {
    pub(crate) site: &'a Site,
    pub(crate) number: SiteNo,
    pub(crate) heaps: u8,
    pub(crate) rule: Rule,
}

impl Home<'_> {
    /// The frame that says what the site has of a heap, by its vector.
    pub(crate) fn have(&self, heap: u8, vector: Vector) -> Frame
        requires home { IsHome self.now }
        requires heap { heap < heaps_of self.now.site.now }
        ensures have { frame_of result ≡ OfHave (have_at self.now.site.now heap vector) }
        ensures writable { IsWritable result }
    {
        Frame::Have(Have {
            from: self.number,
            heap,
            heaps: self.heaps,
            rule: self.rule,
            vector,
        })
    }

    /// The same where the site lacks something that a peer of that vector has.
    pub(crate) fn have_if(&self, heap: u8, theirs: &Vector, vector: &Vector) -> Option<Frame>
        requires home { IsHome self.now }
        requires heap { heap < heaps_of self.now.site.now }
        ensures own { option_map frame_of result
            ≡ own_have self.now.site.now heap theirs.now vector.now }
        ensures writable { IfSome result IsWritable }
    {
        if vector.covers(theirs) {
            return None;
        }
        Some(self.have(heap, *vector))
    }

    /// Whether a frame of this heap, this number of heaps and this rule is for the site.
    pub(crate) fn judge(&self, heap: u8, heaps: u8, rule: Rule) -> Result<(), NodeFault>
        requires home { IsHome self.now }
        ensures right { OnOk result (IsHeapOf self.now.site.now heap heaps
            × (rule_of rule ≡ rule_of self.now.site.now.rule)) }
        ensures wrong { IfErr result (IsNotFor self.now.site.now heap heaps (rule_of rule)) }
    {
        if heaps != self.heaps || heap >= heaps {
            return Err(NodeFault::WrongHeap);
        }
        if rule != self.rule {
            return Err(NodeFault::WrongRule);
        }
        Ok(())
    }
}
