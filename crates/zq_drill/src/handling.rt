//! What is done with a site's handle.

ghost use Rattle.std.specs.Prelude.{◌≡◌, ◌<◌, IfOk, OnOk};
ghost use Rattle.zq_drill.specs.Limits.{heap_count};
ghost use Rattle.zq_drill.specs.SiteHandles.{site_of};
ghost use Rattle.zq_node.specs.Calls.{Copied, IsCalled as HasCalled, Merged};
ghost use Rattle.zq_resp.specs.Reply.{reply_bytes};
ghost use Rattle.zq_spread.specs.Dispatch.{IsCalled};

use crate::site_handle::SiteHandle;
use std::alloc::Global;
use std::sync::Wait;
use zq_journal::MergeFault;
use zq_resp::Reply;
use zq_shard::Shard;
use zq_spread::ReadFault;
use zq_words::Command;

impl SiteHandle {
    /// The reply of the site to the command. ZPOPNEAR chooses its heaps by the two words.
    pub fn call<R: Wait>(
        &mut self,
        rt: &R,
        alloc: Global,
        command: &Command,
        w1: u64,
        w2: u64,
    ) -> Reply
        ensures drill_site { self.new.drill_site ≡ self.old.drill_site }
        ensures called { IsCalled (site_of self.old) command.now w1 w2
            (reply_bytes result) self.old.pass self.new.pass }
    {
        self.drill_site
            .site
            .call(rt, alloc, &mut self.pass, command, w1, w2)
    }

    /// A copy of a heap, as the site has it.
    pub fn state<R: Wait>(&mut self, rt: &R, alloc: Global, heap: u8) -> Result<Shard, ReadFault>
        requires { heap < heap_count }
        ensures drill_site { self.new.drill_site ≡ self.old.drill_site }
        ensures copied { IfOk result
            (λ shard. HasCalled (site_of self.old) self.old.pass self.new.pass
            (Copied heap shard)) }
    {
        self.drill_site.site.state(rt, alloc, &mut self.pass, heap)
    }

    /// Merges a heap of another site into the site.
    pub fn merge<R: Wait>(&mut self, rt: &R, alloc: Global, shard: &Shard) -> Result<(), MergeFault>
        ensures drill_site { self.new.drill_site ≡ self.old.drill_site }
        ensures merged { OnOk result
            (HasCalled (site_of self.old) self.old.pass self.new.pass (Merged shard.now)) }
    {
        self.drill_site.site.merge(rt, alloc, &mut self.pass, shard)
    }
}
