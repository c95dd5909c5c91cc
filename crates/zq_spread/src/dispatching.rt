//! Commands of a site, by the heaps that they work in.
ghost use Rattle.std.specs.Prelude.{◌≡◌, [], IfOk, IsOk, IsTrue, OnErr};
ghost use Rattle.zq_resp.specs.Reply.{is_writable, reply_bytes};
ghost use Rattle.zq_spread.specs.Dispatch.{DoesCommand, IsBusyWith, IsCalled};
ghost use Rattle.zq_spread.specs.Calls.{heaps_of};
ghost use Rattle.zq_spread.specs.Passes.{IsPassOf};
ghost use Rattle.zq_words.specs.Heaps as named;
ghost use Rattle.zq_words.specs.declared.heaps.Heaps.TheVariants.{NoHeap};

use crate::faults::Busy;
use crate::pass::Pass;
use crate::site::Site;
use std::alloc::Global;
use std::sync::Wait;
use zq_commands::run;
use zq_journal::Book;
use zq_resp::Reply;
use zq_words::{Command, Heaps, Kind};

impl Site {
    /// The reply of a command that needs no heap, PING. Nothing has changed.
    fn answer_alone(&self, alloc: Global, pass: &Pass, command: &Command) -> Reply
        requires pass { IsPassOf self.now pass.now }
        requires none { named.heaps_of command.now (heaps_of self.now) ≡ NoHeap }
        ensures answered { DoesCommand self.now pass.now.stamp command.now
            (reply_bytes result) [] [] }
        ensures writable { IsTrue (is_writable result) }
    {
        let mut books: Vec<Book> = Vec::new(alloc);
        run(&mut books, alloc, self.number, pass.stamp, command)
    }

    /// Runs a command in the heaps that it works in: none for PING, that of its one member for
    /// ZADD, ZREM and the like, all for a command of whole keys, and for ZPOPNEAR the two that the
    /// words draw where one of them has a member of its key, else all. It locks these heaps in
    /// rising order, and works at one stamp, which is after all that it found there and after the
    /// pass's latest.
    ///
    /// Where a lock or the stamp is at its last value it answers `ERR worn after 0`, and no image,
    /// book or stamp has changed. Where the memory to hold several heaps was refused it answers
    /// `OOM after 0`, and no lock was taken. Where memory is refused later, or the site's counter
    /// or a book's count is at its last value, the reply says so, and the call stands at its stamp.
    pub fn call<R: Wait>(
        &self,
        rt: &R,
        alloc: Global,
        pass: &mut Pass,
        command: &Command,
        w1: u64,
        w2: u64,
    ) -> Reply
        requires pass { IsPassOf self.now pass.old }
        ensures pass { IsPassOf self.now pass.new }
        ensures called { IsCalled self.now command.now w1 w2
            (reply_bytes result) pass.old pass.new }
        ensures writable { IsTrue (is_writable result) }
    {
        match command.heaps(self.slots.len() as u8) {
            Heaps::NoHeap => self.answer_alone(alloc, pass, command),
            Heaps::One(heap) => self.call_one(rt, alloc, pass, heap, command),
            Heaps::Near => match command.kind() {
                Kind::Zpopnear { key } => self.call_near(rt, alloc, pass, key, command, w1, w2),
                _ => unreachable!(),
            },
            Heaps::All => self.call_all(rt, alloc, pass, command),
        }
    }

    /// The same where nobody holds one of the heaps or waits for it. It never waits: else it is
    /// `Busy`, and no image, book or stamp has changed. A command that needs no heap is never
    /// `Busy`.
    pub fn try_call(
        &self,
        alloc: Global,
        pass: &mut Pass,
        command: &Command,
        w1: u64,
        w2: u64,
    ) -> Result<Reply, Busy>
        requires pass { IsPassOf self.now pass.old }
        ensures pass { IsPassOf self.now pass.new }
        ensures called { IfOk result
            (λ reply. IsCalled self.now command.now w1 w2 (reply_bytes reply) pass.old pass.new) }
        ensures busy { OnErr result
            (IsBusyWith (named.heaps_of command.now (heaps_of self.now)) self.now pass.old
            pass.new) }
        ensures free { named.heaps_of command.now (heaps_of self.now) ≡ NoHeap → IsOk result }
        ensures writable { IfOk result (λ reply. IsTrue (is_writable reply)) }
    {
        match command.heaps(self.slots.len() as u8) {
            Heaps::NoHeap => Ok(self.answer_alone(alloc, pass, command)),
            Heaps::One(heap) => self.try_call_one(alloc, pass, heap, command),
            Heaps::Near => match command.kind() {
                Kind::Zpopnear { key } => self.try_call_near(alloc, pass, key, command, w1, w2),
                _ => unreachable!(),
            },
            Heaps::All => self.try_call_all(alloc, pass, command),
        }
    }
}
