//! Commands of a site.
ghost use Rattle.std.specs.Prelude.{◌≡◌, ◌<◌, ◌⊎◌, ◌∷◌, [], IfOk, IsTrue, OnErr};
ghost use Rattle.zq_dots.specs.Rule.{rule_of};
ghost use Rattle.zq_resp.specs.Reply.{is_writable, reply_bytes};
ghost use Rattle.zq_spread.specs.Calls.{IsCall, heaps_of};
ghost use Rattle.zq_spread.specs.Commanded.{IsAnswered, short_reply, worn_reply};
ghost use Rattle.zq_spread.specs.Dispatch.{IsWornOut};
ghost use Rattle.zq_spread.specs.Passes.{IsPassOf};
ghost use Rattle.zq_spread.specs.Worn.{IsBusyIn};
ghost use Rattle.zq_words.specs.Heaps as named;
ghost use Rattle.zq_words.specs.declared.heaps.Heaps.TheVariants.{One};

use crate::faults::Busy;
use crate::pass::Pass;
use crate::site::Site;
use std::alloc::Global;
use std::sync::Wait;
use zq_commands::{Stopped, cut_reply};
use zq_resp::Reply;
use zq_ticketlock::TryFault;
use zq_words::Command;

/// The reply where a lock or the stamp is at its last value.
pub(crate) fn worn() -> Reply
    ensures bytes { reply_bytes result ≡ worn_reply }
    ensures writable { IsTrue (is_writable result) }
{
    cut_reply(Stopped::Worn, 0)
}

/// The reply where there is no memory to hold more heaps than one.
pub(crate) fn short() -> Reply
    ensures bytes { reply_bytes result ≡ short_reply }
    ensures writable { IsTrue (is_writable result) }
{
    cut_reply(Stopped::NoMemory, 0)
}

impl Site {
    /// Runs a command in the one heap that it names, such as ZADD of one member. It locks that heap
    /// alone, and takes no memory for locks. Where the heap's lock or the stamp is at its last
    /// value it answers `ERR worn after 0`, and no image, book or stamp has changed. Where memory
    /// is refused, or the site's counter or the book's count is at its last value, the reply says
    /// so, and the call stands at its stamp.
    pub fn call_one<R: Wait>(
        &self,
        rt: &R,
        alloc: Global,
        pass: &mut Pass,
        heap: u8,
        command: &Command,
    ) -> Reply
        requires pass { IsPassOf self.now pass.old }
        requires heap { heap < heaps_of self.now }
        requires one { named.heaps_of command.now (heaps_of self.now) ≡ One heap }
        ensures pass { IsPassOf self.now pass.new }
        ensures called { IsCall
            (IsAnswered (rule_of self.now.rule) self.now.number pass.new.stamp command.now
            (reply_bytes result)) pass.old pass.new (heap ∷ [])
            ⊎ IsWornOut (heap ∷ []) (reply_bytes result) pass.old pass.new }
        ensures writable { IsTrue (is_writable result) }
    {
        let heap = usize::from(heap);
        let Ok((mut held, stamp)) = self.begin_in(rt, pass, heap) else {
            return worn();
        };
        let reply = held.value_mut().answer(alloc, self.number, stamp, command);
        self.end_in(pass, heap, held, stamp);
        reply
    }

    /// The same where nobody holds the heap or waits for it. It never waits: else it is `Busy`, and
    /// no image, book or stamp has changed.
    pub fn try_call_one(
        &self,
        alloc: Global,
        pass: &mut Pass,
        heap: u8,
        command: &Command,
    ) -> Result<Reply, Busy>
        requires pass { IsPassOf self.now pass.old }
        requires heap { heap < heaps_of self.now }
        requires one { named.heaps_of command.now (heaps_of self.now) ≡ One heap }
        ensures pass { IsPassOf self.now pass.new }
        ensures called { IfOk result
            (λ reply. IsCall (IsAnswered
            (rule_of self.now.rule) self.now.number pass.new.stamp command.now (reply_bytes reply))
            pass.old pass.new (heap ∷ [])
            ⊎ IsWornOut (heap ∷ []) (reply_bytes reply) pass.old pass.new) }
        ensures busy { OnErr result (IsBusyIn (heap ∷ []) pass.old pass.new) }
        ensures writable { IfOk result (λ reply. IsTrue (is_writable reply)) }
    {
        let heap = usize::from(heap);
        match self.try_begin_in(pass, heap) {
            Ok((mut held, stamp)) => {
                let reply = held.value_mut().answer(alloc, self.number, stamp, command);
                self.end_in(pass, heap, held, stamp);
                Ok(reply)
            }
            Err(TryFault::Worn) => Ok(worn()),
            Err(TryFault::Busy) => Err(Busy),
        }
    }
}
