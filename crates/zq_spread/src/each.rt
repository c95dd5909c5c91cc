//! Several things that a site is asked, as one call.
ghost use Rattle.std.specs.Prelude.{◌≡◌, ◌≤◌, ◌<◌, ◌+◌, [], All, IfErr, IsErrOf, IsTrue, List, OnErr, OnOk, length, map, max, true, vec_capacity, ℕ};
ghost use Rattle.zq_commands.specs.Arrays.{are_writable};
ghost use Rattle.zq_commands.specs.Calls.{procedures};
ghost use Rattle.zq_commands.specs.Lending.{HasBook};
ghost use Rattle.zq_commands.specs.VecBooks.{lending_of};
ghost use Rattle.zq_journal.specs.Books.{LAST_STAMP};
ghost use Rattle.zq_model.specs.Books.{Book as Books};
ghost use Rattle.zq_resp.specs.Reply.{reply_bytes};
ghost use Rattle.zq_spread.specs.Calls.{greatest_stamp, heaps_of};
ghost use Rattle.zq_spread.specs.Dispatch.{all_heaps};
ghost use Rattle.zq_spread.specs.Each.{HasCalledEach, HasCalledOver};
ghost use Rattle.zq_spread.specs.Passes.{IsPassBut, IsPassOf, IsStopped};
ghost use Rattle.zq_spread.specs.Several.{AreBegunAt, AreBooksAt, AreHeapsOf, IsSameOutside, books_of, helds_of};
ghost use Rattle.zq_spread.specs.Worn.{IsStopOf, IsWornIn};
ghost use Rattle.zq_spread.specs.declared.locked_heap.LockedHeap.{LockedHeap};
ghost use Rattle.zq_spread.specs.declared.pass.Pass.{Pass as Passes};
ghost use Rattle.zq_words.specs.Calls.{IsCallWithinLimits, call_shown};

use crate::calling_all::every;
use crate::faults::EachFault;
use crate::lock_scan::{LockScan, Stop};
use crate::locked_heaps::LockedHeaps;
use crate::pass::Pass;
use crate::site::Site;
use std::alloc::Global;
use std::sync::Wait;
use zq_commands::run_each;
use zq_resp::Reply;
use zq_words::SiteCall;

impl Site {
    /// Runs what is asked in the heaps in which its call has begun, one after the other, and ends
    /// the call. The replies stand behind those that are there, and there is room for them.
    pub(crate) fn work_each(
        &self,
        alloc: Global,
        pass: &mut Pass,
        heaps: &[u8],
        holds: &mut LockedHeaps,
        stamp: u64,
        calls: &[SiteCall],
        replies: &mut Vec<Reply>,
    )
        requires some { 0 < length heaps.now }
        requires heaps { AreHeapsOf self.now heaps.now }
        requires pass { IsPassBut self.now heaps.now pass.old }
        requires last { stamp ≤ LAST_STAMP }
        requires begun { (before : Passes) × (found : List LockedHeap)
            × AreBegunAt self.now before stamp heaps.now (helds_of holds.old) found }
        requires homes { (key member : List ℕ) →
            HasBook key member (lending_of (books_of (helds_of holds.old))) }
        requires limits { All (λ asked. IsCallWithinLimits (call_shown asked)) calls.now }
        requires room { length replies.old.items + length calls.now ≤ vec_capacity replies.old }
        ensures pass { IsPassOf self.now pass.new }
        ensures called { (before : Passes) (found : List LockedHeap) →
            AreBegunAt self.now before stamp heaps.now (helds_of holds.old) found →
            IsSameOutside heaps.now before pass.old →
            stamp ≡ max before.stamp (greatest_stamp found) + 1 →
            HasCalledOver self.now (procedures calls.now) (map reply_bytes replies.old.items)
            (map reply_bytes replies.new.items) before pass.new heaps.now found }
        ensures writable { IsTrue (are_writable replies.old.items) →
            IsTrue (are_writable replies.new.items) }
        ensures empty { helds_of holds.new ≡ [] }
    {
        run_each(holds, alloc, self.number, stamp, calls, replies);
        self.end_all(pass, heaps, holds, stamp);
    }

    /// Runs what is asked in these heaps. After an error no image, book or stamp has changed.
    fn each_in<R: Wait>(
        &self,
        rt: &R,
        alloc: Global,
        pass: &mut Pass,
        heaps: &[u8],
        holds: &mut LockedHeaps,
        calls: &[SiteCall],
        replies: &mut Vec<Reply>,
    ) -> Result<(), Stop>
        requires pass { IsPassOf self.now pass.old }
        requires some { 0 < length heaps.now }
        requires heaps { AreHeapsOf self.now heaps.now }
        requires homes { (books : List Books) → AreBooksAt self.now heaps.now books →
            (key member : List ℕ) → HasBook key member (lending_of books) }
        requires limits { All (λ asked. IsCallWithinLimits (call_shown asked)) calls.now }
        requires empty { helds_of holds.old ≡ [] }
        requires room { length heaps.now ≤ vec_capacity holds.old.helds }
        requires places { length replies.old.items + length calls.now ≤ vec_capacity replies.old }
        ensures pass { IsPassOf self.now pass.new }
        ensures called { OnOk result (HasCalledEach self.now (procedures calls.now)
            (map reply_bytes replies.old.items) (map reply_bytes replies.new.items)
            pass.old pass.new heaps.now) }
        ensures stopped { OnErr result (IsStopped pass.old pass.new) }
        ensures kept { OnErr result (replies.new ≡ replies.old) }
        ensures why { IfErr result (IsStopOf pass.old.stamp true heaps.now [] pass.old pass.new) }
        ensures waits { IsErrOf result Stop.Busy → ⊥ }
        ensures writable { IsTrue (are_writable replies.old.items) →
            IsTrue (are_writable replies.new.items) }
        ensures empty { helds_of holds.new ≡ [] }
    {
        let scan = LockScan {
            stamp: pass.stamp,
            is_enough: true,
        };
        match self.begin_all(rt, pass, heaps, &[], scan, holds) {
            Ok(stamp) => {
                self.work_each(alloc, pass, heaps, holds, stamp, calls, replies);
                Ok(())
            }
            Err(stop) => Err(stop),
        }
    }

    /// Runs what is asked in all heaps.
    fn answer_each<R: Wait>(
        &self,
        rt: &R,
        alloc: Global,
        pass: &mut Pass,
        holds: &mut LockedHeaps,
        calls: &[SiteCall],
        replies: &mut Vec<Reply>,
    ) -> Result<(), EachFault>
        requires pass { IsPassOf self.now pass.old }
        requires limits { All (λ asked. IsCallWithinLimits (call_shown asked)) calls.now }
        requires empty { helds_of holds.old ≡ [] }
        requires room { heaps_of self.now ≤ vec_capacity holds.old.helds }
        requires places { length replies.old.items + length calls.now ≤ vec_capacity replies.old }
        ensures pass { IsPassOf self.now pass.new }
        ensures called { OnOk result (HasCalledEach self.now (procedures calls.now)
            (map reply_bytes replies.old.items) (map reply_bytes replies.new.items)
            pass.old pass.new (all_heaps self.now)) }
        ensures worn { OnErr result (IsWornIn (all_heaps self.now) pass.old pass.new) }
        ensures only { IsErrOf result EachFault.NoMemory → ⊥ }
        ensures kept { OnErr result (replies.new ≡ replies.old) }
        ensures writable { IsTrue (are_writable replies.old.items) →
            IsTrue (are_writable replies.new.items) }
        ensures empty { helds_of holds.new ≡ [] }
    {
        let heaps = every(self.slots.len());
        match self.each_in(rt, alloc, pass, heaps, holds, calls, replies) {
            Ok(()) => Ok(()),
            Err(Stop::Worn) => Err(EachFault::Worn),
            // A call that waits is never busy, and one over all heaps needs no member.
            Err(Stop::Busy | Stop::Nothing) => unreachable!(),
        }
    }

    /// Runs what is asked as one call: it locks all heaps in rising order, takes one stamp, and runs
    /// one after the other, with nothing of other threads in between. Their replies are put behind
    /// those that are there. Whoever makes what is asked keeps its limits.
    ///
    /// `Worn` where a lock or the stamp is at its last value, and then no image, book or stamp has
    /// changed. `NoMemory` where there was none to hold the heaps or the replies, and then no lock
    /// was taken. In both cases no reply was added. Where memory is refused later, or the site's
    /// counter or a book's count is at its last value, the reply of that which was cut says so, and
    /// what comes behind it is run.
    pub fn call_each<R: Wait>(
        &self,
        rt: &R,
        alloc: Global,
        pass: &mut Pass,
        calls: &[SiteCall],
        replies: &mut Vec<Reply>,
    ) -> Result<(), EachFault>
        requires pass { IsPassOf self.now pass.old }
        requires limits { All (λ asked. IsCallWithinLimits (call_shown asked)) calls.now }
        ensures pass { IsPassOf self.now pass.new }
        ensures called { OnOk result (HasCalledEach self.now (procedures calls.now)
            (map reply_bytes replies.old.items) (map reply_bytes replies.new.items)
            pass.old pass.new (all_heaps self.now)) }
        ensures worn { IsErrOf result EachFault.Worn →
            IsWornIn (all_heaps self.now) pass.old pass.new }
        ensures short { IsErrOf result EachFault.NoMemory → pass.new ≡ pass.old }
        ensures kept { OnErr result (replies.new.items ≡ replies.old.items) }
        ensures writable { IsTrue (are_writable replies.old.items) →
            IsTrue (are_writable replies.new.items) }
    {
        if replies.reserve(calls.len()).is_err() {
            return Err(EachFault::NoMemory);
        }
        let Ok(mut holds) = LockedHeaps::with_room(alloc, self.slots.len()) else {
            return Err(EachFault::NoMemory);
        };
        let called = self.answer_each(rt, alloc, pass, &mut holds, calls, replies);
        holds.end();
        called
    }
}
