//! Commands over several heaps.
ghost use Rattle.std.specs.Prelude.{◌≡◌, ◌≤◌, ◌<◌, ◌+◌, [], IsTrue, List, length, max, ℕ};
ghost use Rattle.zq_commands.specs.Commands.{HasBooks};
ghost use Rattle.zq_commands.specs.Lending.{IsLending};
ghost use Rattle.zq_commands.specs.VecBooks.{lending_of};
ghost use Rattle.zq_journal.specs.Books.{LAST_STAMP};
ghost use Rattle.zq_resp.specs.Reply.{is_writable, reply_bytes};
ghost use Rattle.zq_spread.specs.Calls.{greatest_stamp};
ghost use Rattle.zq_spread.specs.Dispatch.{IsCommandOver};
ghost use Rattle.zq_spread.specs.Passes.{IsPassBut, IsPassOf};
ghost use Rattle.zq_spread.specs.Several.{AreBegunAt, AreHeapsOf, IsSameOutside, books_of, helds_of};
ghost use Rattle.zq_spread.specs.declared.locked_heap.LockedHeap.{LockedHeap};
ghost use Rattle.zq_spread.specs.declared.pass.Pass.{Pass as Passes};

use crate::locked_heaps::LockedHeaps;
use crate::pass::Pass;
use crate::site::Site;
use std::alloc::Global;
use zq_commands::run;
use zq_resp::Reply;
use zq_words::Command;

impl Site {
    /// Runs a command in the heaps in which its call has begun, and ends the call.
    pub(crate) fn work_all(
        &self,
        alloc: Global,
        pass: &mut Pass,
        heaps: &[u8],
        holds: &mut LockedHeaps,
        stamp: u64,
        command: &Command,
    ) -> Reply
        requires some { 0 < length heaps.now }
        requires heaps { AreHeapsOf self.now heaps.now }
        requires pass { IsPassBut self.now heaps.now pass.old }
        requires last { stamp ≤ LAST_STAMP }
        requires begun { (before : Passes) × (found : List LockedHeap)
            × AreBegunAt self.now before stamp heaps.now (helds_of holds.old) found }
        requires homes { HasBooks command.now (lending_of (books_of (helds_of holds.old))) }
        ensures pass { IsPassOf self.now pass.new }
        ensures called { (before : Passes) (found : List LockedHeap) →
            AreBegunAt self.now before stamp heaps.now (helds_of holds.old) found →
            IsSameOutside heaps.now before pass.old →
            stamp ≡ max before.stamp (greatest_stamp found) + 1 →
            IsCommandOver self.now command.now
            (reply_bytes result) before pass.new heaps.now found }
        ensures writable { IsTrue (is_writable result) }
        ensures empty { helds_of holds.new ≡ [] }
    {
        let reply = run(holds, alloc, self.number, stamp, command);
        self.end_all(pass, heaps, holds, stamp);
        reply
    }
}
