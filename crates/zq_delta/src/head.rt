//! The heap and the site.

ghost use Rattle.std.specs.Prelude.{◌≡◌, ◌<◌, ◌∷◌, IfOk};
ghost use Rattle.zq_delta.specs.Fields.{head_at};
ghost use Rattle.zq_delta.specs.Version.{sites};
ghost use Rattle.zq_model.specs.Sets as sets;
ghost use Rattle.zq_fields.specs.Reading.{Gives};

use crate::version::Version;
use zq_dots::SiteNo;
use zq_fields::{HeapNo, PartFault, read_heap, read_site};

#[derive(Clone, Copy, Debug)]
pub(crate) struct Head {
    pub(crate) heap: HeapNo,
    pub(crate) site: SiteNo,
}

#[tactic(auto, unfolding(crate::specs::Fields::head_at))]
pub(crate) fn read_head(
    version: Version,
    whole: usize,
    bytes: &mut &[u8],
) -> Result<Head, PartFault>
    ensures exact { Gives (λ x. (x, bytes.new.now)) result (head_at version whole bytes.old.now) }
    ensures found { IfOk result
        (λ x. bytes.old.now ≡ x.heap.heaps ∷ x.heap.heap ∷ x.site ∷ bytes.new.now) }
    ensures heaps { IfOk result (λ x. sets.IsHeaps x.heap.heaps) }
    ensures heap { IfOk result (λ x. x.heap.heap < x.heap.heaps) }
    ensures site { IfOk result (λ x. x.site < sets.SITES) }
    ensures version { IfOk result (λ x. x.site < sites version) }
{
    let heap = read_heap(whole, bytes)?;
    let site = read_site(whole, bytes, 0, version.sites())?;
    Ok(Head { heap, site })
}
