//! What a site is asked only where nothing that is watched was changed.
ghost use Rattle.std.specs.Prelude.{◌≡◌, ◌≤◌, ◌<◌, ◌+◌, ◌∷◌, [], All, IfErr, IfOk, IsErrOf, IsTrue, List, None, OnErr, OnOk, false, length, map, max, true, vec_capacity, ℕ};
ghost use Rattle.zq_commands.specs.Arrays.{are_writable};
ghost use Rattle.zq_commands.specs.Calls.{procedures};
ghost use Rattle.zq_commands.specs.Lending.{HasBook};
ghost use Rattle.zq_commands.specs.VecBooks.{lending_of};
ghost use Rattle.zq_journal.specs.Books.{LAST_STAMP};
ghost use Rattle.zq_journal.specs.Untouched.{keys_of};
ghost use Rattle.zq_model.specs.Books.{Book as Books};
ghost use Rattle.zq_resp.specs.Reply.{reply_bytes};
ghost use Rattle.zq_spread.specs.Calls.{greatest_stamp, heaps_of};
ghost use Rattle.zq_spread.specs.Dispatch.{all_heaps};
ghost use Rattle.zq_spread.specs.Passes.{IsPassBut, IsPassOf, IsStopped};
ghost use Rattle.zq_spread.specs.Several.{AreBegunAt, AreBooksAt, AreHeapsOf, IsSameOutside, books_of, helds_of};
ghost use Rattle.zq_spread.specs.Watching as wanted;
ghost use Rattle.zq_spread.specs.Watching.{AreShown, AreWatched, HaveRun, HaveRunIf, IsIdleOver};
ghost use Rattle.zq_spread.specs.Worn.{IsStopOf, IsWornIn};
ghost use Rattle.zq_spread.specs.declared.locked_heap.LockedHeap.{LockedHeap};
ghost use Rattle.zq_spread.specs.declared.pass.Pass.{Pass as Passes};
ghost use Rattle.zq_words.specs.Calls.{IsCallWithinLimits, call_shown};

use crate::calling_all::every;
use crate::faults::{ReadFault, WatchFault};
use crate::lending_all::book_at;
use crate::lock_scan::{LockScan, Stop};
use crate::locked_heaps::LockedHeaps;
use crate::pass::Pass;
use crate::site::Site;
use crate::watched::Watched;
use std::alloc::Global;
use std::sync::Wait;
use zq_resp::Reply;
use zq_words::SiteCall;

impl LockedHeaps {
    /// Whether the books of the heaps that are held say, each of its own, that none of the keys was
    /// changed.
    fn are_untouched(&self, watched: &Watched) -> bool
        ensures { result ≡ wanted.are_untouched watched.now.vectors watched.now.keys
            (books_of (helds_of self.now)) }
    {
        for place in 0..self.helds.as_slice().len() {
            let Some(vector) = watched.vectors.get(place) else {
                return false;
            };
            if !book_at(self, place).is_untouched(vector, &watched.keys) {
                return false;
            }
        }
        true
    }
}

impl Site {
    /// Watches these keys from now on: it notes which operations of each heap the site has taken,
    /// one heap after the other. What is changed in a heap after that is a change.
    ///
    /// `NoMemory` where there was none for the vectors, and then no lock was taken; else `Worn` where a
    /// heap's lock or the stamp is at its last value, and then the heaps before it have shown theirs.
    /// In both cases nothing is watched, and no image has changed.
    pub fn watch<R: Wait>(
        &self,
        rt: &R,
        alloc: Global,
        pass: &mut Pass,
        keys: Vec<Vec<u8>>,
    ) -> Result<Watched, ReadFault>
        requires pass { IsPassOf self.now pass.old }
        ensures pass { IsPassOf self.now pass.new }
        ensures shown { IfOk result (λ watched. AreShown pass.old 0 watched.vectors pass.new) }
        ensures all { IfOk result (λ watched. length watched.vectors ≡ heaps_of self.now) }
        ensures keys { IfOk result (λ watched. watched.keys ≡ keys_of keys.items) }
        ensures worn { IsErrOf result ReadFault.Worn → (shown : List (List ℕ)) × (mid : Passes)
            × AreShown pass.old 0 shown mid
            × IsWornIn (length shown ∷ []) mid pass.new }
        ensures short { IsErrOf result ReadFault.NoMemory → pass.new ≡ pass.old }
    {
        let Ok(mut vectors) = Vec::with_capacity(alloc, self.slots.len()) else {
            return Err(ReadFault::NoMemory);
        };
        for heap in 0..self.heaps() {
            let Ok(vector) = self.vector(rt, pass, heap) else {
                return Err(ReadFault::Worn);
            };
            vectors.push_reserved(vector);
        }
        Ok(Watched { vectors, keys })
    }

    /// Ends a call in the heaps in which it has begun, and made nothing.
    fn end_idle(&self, pass: &mut Pass, heaps: &[u8], holds: &mut LockedHeaps, stamp: u64)
        requires heaps { AreHeapsOf self.now heaps.now }
        requires pass { IsPassBut self.now heaps.now pass.old }
        requires last { stamp ≤ LAST_STAMP }
        requires begun { (before : Passes) × (found : List LockedHeap)
            × AreBegunAt self.now before stamp heaps.now (helds_of holds.old) found }
        ensures pass { IsPassOf self.now pass.new }
        ensures called { (before : Passes) (found : List LockedHeap) →
            AreBegunAt self.now before stamp heaps.now (helds_of holds.old) found →
            IsSameOutside heaps.now before pass.old →
            stamp ≡ max before.stamp (greatest_stamp found) + 1 →
            IsIdleOver before pass.new heaps.now found }
        ensures stamp { pass.new.stamp ≡ stamp }
        ensures empty { helds_of holds.new ≡ [] }
    {
        self.end_all(pass, heaps, holds, stamp);
    }

    /// Runs what is asked in the heaps in which its call has begun, where nothing that is watched
    /// was changed, and ends the call. Whether it ran.
    fn work_watched(
        &self,
        alloc: Global,
        pass: &mut Pass,
        heaps: &[u8],
        holds: &mut LockedHeaps,
        stamp: u64,
        watched: &Watched,
        calls: &[SiteCall],
        replies: &mut Vec<Reply>,
    ) -> bool
        requires some { 0 < length heaps.now }
        requires heaps { AreHeapsOf self.now heaps.now }
        requires pass { IsPassBut self.now heaps.now pass.old }
        requires last { stamp ≤ LAST_STAMP }
        requires begun { (before : Passes) × (found : List LockedHeap)
            × AreBegunAt self.now before stamp heaps.now (helds_of holds.old) found }
        requires homes { (key member : List ℕ) →
            HasBook key member (lending_of (books_of (helds_of holds.old))) }
        requires limits { All (λ asked. IsCallWithinLimits (call_shown asked)) calls.now }
        requires room { length replies.old.items + length calls.now ≤ vec_capacity replies.old }
        ensures pass { IsPassOf self.now pass.new }
        ensures called { (before : Passes) (found : List LockedHeap) →
            AreBegunAt self.now before stamp heaps.now (helds_of holds.old) found →
            IsSameOutside heaps.now before pass.old →
            stamp ≡ max before.stamp (greatest_stamp found) + 1 →
            HaveRunIf result self.now watched.now (procedures calls.now)
            (map reply_bytes replies.old.items) (map reply_bytes replies.new.items) before pass.new
            heaps.now }
        ensures kept { result ≡ false → replies.new ≡ replies.old }
        ensures writable { IsTrue (are_writable replies.old.items) →
            IsTrue (are_writable replies.new.items) }
        ensures empty { helds_of holds.new ≡ [] }
    {
        if !holds.are_untouched(watched) {
            self.end_idle(pass, heaps, holds, stamp);
            return false;
        }
        self.work_each(alloc, pass, heaps, holds, stamp, calls, replies);
        true
    }

    /// Runs what is asked in these heaps, where nothing that is watched was changed. Whether it ran.
    /// After an error no image, book or stamp has changed.
    fn watched_in<R: Wait>(
        &self,
        rt: &R,
        alloc: Global,
        pass: &mut Pass,
        heaps: &[u8],
        holds: &mut LockedHeaps,
        watched: &Watched,
        calls: &[SiteCall],
        replies: &mut Vec<Reply>,
    ) -> Result<bool, Stop>
        requires pass { IsPassOf self.now pass.old }
        requires some { 0 < length heaps.now }
        requires heaps { AreHeapsOf self.now heaps.now }
        requires homes { (books : List Books) → AreBooksAt self.now heaps.now books →
            (key member : List ℕ) → HasBook key member (lending_of books) }
        requires limits { All (λ asked. IsCallWithinLimits (call_shown asked)) calls.now }
        requires empty { helds_of holds.old ≡ [] }
        requires room { length heaps.now ≤ vec_capacity holds.old.helds }
        requires places { length replies.old.items + length calls.now ≤ vec_capacity replies.old }
        ensures pass { IsPassOf self.now pass.new }
        ensures called { IfOk result (λ ran. HaveRunIf ran self.now watched.now
            (procedures calls.now) (map reply_bytes replies.old.items)
            (map reply_bytes replies.new.items) pass.old pass.new heaps.now) }
        ensures idle { IfOk result (λ ran. ran ≡ false → replies.new ≡ replies.old) }
        ensures stopped { OnErr result (IsStopped pass.old pass.new) }
        ensures kept { OnErr result (replies.new ≡ replies.old) }
        ensures why { IfErr result (IsStopOf pass.old.stamp true heaps.now [] pass.old pass.new) }
        ensures waits { IsErrOf result Stop.Busy → ⊥ }
        ensures writable { IsTrue (are_writable replies.old.items) →
            IsTrue (are_writable replies.new.items) }
        ensures empty { helds_of holds.new ≡ [] }
    {
        let scan = LockScan {
            stamp: pass.stamp,
            is_enough: true,
        };
        match self.begin_all(rt, pass, heaps, &[], scan, holds) {
            Ok(stamp) => {
                let ran = self.work_watched(
                    alloc, pass, heaps, holds, stamp, watched, calls, replies,
                );
                Ok(ran)
            }
            Err(stop) => Err(stop),
        }
    }

    /// Runs what is asked in all heaps, where nothing that is watched was changed.
    fn answer_watched<R: Wait>(
        &self,
        rt: &R,
        alloc: Global,
        pass: &mut Pass,
        holds: &mut LockedHeaps,
        watched: &Watched,
        calls: &[SiteCall],
        replies: &mut Vec<Reply>,
    ) -> Result<(), WatchFault>
        requires pass { IsPassOf self.now pass.old }
        requires limits { All (λ asked. IsCallWithinLimits (call_shown asked)) calls.now }
        requires empty { helds_of holds.old ≡ [] }
        requires room { heaps_of self.now ≤ vec_capacity holds.old.helds }
        requires places { length replies.old.items + length calls.now ≤ vec_capacity replies.old }
        ensures pass { IsPassOf self.now pass.new }
        ensures called { OnOk result (HaveRun self.now watched.now (procedures calls.now)
            (map reply_bytes replies.old.items) (map reply_bytes replies.new.items)
            pass.old pass.new (all_heaps self.now)) }
        ensures touched { IsErrOf result WatchFault.Touched → AreWatched self.now watched.now
            (procedures calls.now) None pass.old pass.new (all_heaps self.now) }
        ensures worn { IsErrOf result WatchFault.Worn →
            IsWornIn (all_heaps self.now) pass.old pass.new }
        ensures only { IsErrOf result WatchFault.NoMemory → ⊥ }
        ensures kept { OnErr result (replies.new ≡ replies.old) }
        ensures writable { IsTrue (are_writable replies.old.items) →
            IsTrue (are_writable replies.new.items) }
        ensures empty { helds_of holds.new ≡ [] }
    {
        let heaps = every(self.slots.len());
        match self.watched_in(rt, alloc, pass, heaps, holds, watched, calls, replies) {
            Ok(true) => Ok(()),
            Ok(false) => Err(WatchFault::Touched),
            Err(Stop::Worn) => Err(WatchFault::Worn),
            // A call that waits is never busy, and one over all heaps needs no member.
            Err(Stop::Busy | Stop::Nothing) => unreachable!(),
        }
    }

    /// Runs what is asked as [`Site::call_each`] does, where nothing that is watched was changed
    /// since it is: with all locks held, each book is asked whether it says so.
    ///
    /// `Touched` where one of them does not: then the call stands at its stamp, and nothing was
    /// done. That is so after each operation on a watched key, also one that left its member as it
    /// was; and where a book cannot say, after a merge that brought something, or where records were
    /// cut that came after. `Worn` and `NoMemory` are as there. In all these cases no reply was
    /// added.
    pub fn call_watched<R: Wait>(
        &self,
        rt: &R,
        alloc: Global,
        pass: &mut Pass,
        watched: &Watched,
        calls: &[SiteCall],
        replies: &mut Vec<Reply>,
    ) -> Result<(), WatchFault>
        requires pass { IsPassOf self.now pass.old }
        requires limits { All (λ asked. IsCallWithinLimits (call_shown asked)) calls.now }
        ensures pass { IsPassOf self.now pass.new }
        ensures called { OnOk result (HaveRun self.now watched.now (procedures calls.now)
            (map reply_bytes replies.old.items) (map reply_bytes replies.new.items)
            pass.old pass.new (all_heaps self.now)) }
        ensures touched { IsErrOf result WatchFault.Touched → AreWatched self.now watched.now
            (procedures calls.now) None pass.old pass.new (all_heaps self.now) }
        ensures worn { IsErrOf result WatchFault.Worn →
            IsWornIn (all_heaps self.now) pass.old pass.new }
        ensures short { IsErrOf result WatchFault.NoMemory → pass.new ≡ pass.old }
        ensures kept { OnErr result (replies.new.items ≡ replies.old.items) }
        ensures writable { IsTrue (are_writable replies.old.items) →
            IsTrue (are_writable replies.new.items) }
    {
        if replies.reserve(calls.len()).is_err() {
            return Err(WatchFault::NoMemory);
        }
        let Ok(mut holds) = LockedHeaps::with_room(alloc, self.slots.len()) else {
            return Err(WatchFault::NoMemory);
        };
        let called = self.answer_watched(rt, alloc, pass, &mut holds, watched, calls, replies);
        holds.end();
        called
    }
}
