//! Commands that work in several heaps of a site, and wait for nobody.
ghost use Rattle.std.specs.Prelude.{◌≡◌, ◌<◌, ◌≤◌, ◌⊎◌, [], IfErr, IfOk, IsTrue, List, OnErr, length, vec_capacity};
ghost use Rattle.zq_commands.specs.Commands.{HasBooks};
ghost use Rattle.zq_commands.specs.VecBooks.{lending_of};
ghost use Rattle.zq_model.specs.Books.{Book as Books};
ghost use Rattle.zq_resp.specs.Reply.{is_writable, reply_bytes};
ghost use Rattle.zq_semantics.specs.Doing.{drawn};
ghost use Rattle.zq_spread.specs.Calls.{heaps_of};
ghost use Rattle.zq_spread.specs.Dispatch.{HasAnswered, HasHeldEach, IsCommand, IsNear, IsTurnedAway, IsWornOut, all_heaps};
ghost use Rattle.zq_spread.specs.Passes.{IsPassOf, IsStopped};
ghost use Rattle.zq_spread.specs.Several.{AreBooksAt, AreHeapsOf, helds_of};
ghost use Rattle.zq_spread.specs.Worn.{IsBusyIn, IsStopOf};
ghost use Rattle.zq_words.specs.Command.{Zpopnear};

use crate::calling::{short, worn};
use crate::calling_all::every;
use crate::faults::Busy;
use crate::lock_scan::{LockScan, Stop};
use crate::locked_heaps::LockedHeaps;
use crate::pass::Pass;
use crate::site::Site;
use std::alloc::Global;
use zq_resp::Reply;
use zq_words::Command;

impl Site {
    /// The same where nobody holds one of the heaps or waits for it. It never waits.
    fn try_call_in(
        &self,
        alloc: Global,
        pass: &mut Pass,
        heaps: &[u8],
        key: &[u8],
        is_enough: bool,
        holds: &mut LockedHeaps,
        command: &Command,
    ) -> Result<Reply, Stop>
        requires pass { IsPassOf self.now pass.old }
        requires some { 0 < length heaps.now }
        requires heaps { AreHeapsOf self.now heaps.now }
        requires homes { (books : List Books) → AreBooksAt self.now heaps.now books →
            HasBooks command.now (lending_of books) }
        requires empty { helds_of holds.old ≡ [] }
        requires room { length heaps.now ≤ vec_capacity holds.old.helds }
        ensures pass { IsPassOf self.now pass.new }
        ensures called { IfOk result
            (λ reply. HasAnswered self.now command.now key.now is_enough
            (reply_bytes reply) pass.old pass.new heaps.now) }
        ensures stopped { OnErr result (IsStopped pass.old pass.new) }
        ensures why { IfErr result
            (IsStopOf pass.old.stamp is_enough heaps.now key.now pass.old pass.new) }
        ensures writable { IfOk result (λ reply. IsTrue (is_writable reply)) }
        ensures empty { helds_of holds.new ≡ [] }
        ensures stays { OnErr result (vec_capacity holds.new.helds ≡ vec_capacity holds.old.helds) }
    {
        let scan = LockScan {
            stamp: pass.stamp,
            is_enough,
        };
        match self.try_begin_all(pass, heaps, key, scan, holds) {
            Ok(stamp) => Ok(self.work_all(alloc, pass, heaps, holds, stamp, command)),
            Err(stop) => Err(stop),
        }
    }

    /// Runs a command in all heaps.
    fn try_answer_all(
        &self,
        alloc: Global,
        pass: &mut Pass,
        holds: &mut LockedHeaps,
        command: &Command,
    ) -> Result<Reply, Busy>
        requires pass { IsPassOf self.now pass.old }
        requires empty { helds_of holds.old ≡ [] }
        requires room { heaps_of self.now ≤ vec_capacity holds.old.helds }
        ensures pass { IsPassOf self.now pass.new }
        ensures called { IfOk result
            (λ reply. (IsCommand self.now command.now (reply_bytes reply) pass.old pass.new
            (all_heaps self.now) × HasHeldEach pass.old pass.new (all_heaps self.now))
            ⊎ IsWornOut (all_heaps self.now) (reply_bytes reply) pass.old pass.new) }
        ensures busy { OnErr result (IsBusyIn (all_heaps self.now) pass.old pass.new) }
        ensures writable { IfOk result (λ reply. IsTrue (is_writable reply)) }
        ensures empty { helds_of holds.new ≡ [] }
    {
        let heaps = every(self.slots.len());
        match self.try_call_in(alloc, pass, heaps, &[], true, holds, command) {
            Ok(reply) => Ok(reply),
            Err(Stop::Busy) => Err(Busy),
            Err(Stop::Worn) => Ok(worn()),
            // A command over all heaps needs no member.
            Err(Stop::Nothing) => unreachable!(),
        }
    }

    /// Runs ZPOPNEAR in two heaps that were drawn, the lower one first, where one of them has a
    /// member of the key, and else in all heaps.
    fn try_answer_near(
        &self,
        alloc: Global,
        pass: &mut Pass,
        drawn: &[u8],
        key: &[u8],
        holds: &mut LockedHeaps,
        command: &Command,
    ) -> Result<Reply, Busy>
        requires pass { IsPassOf self.now pass.old }
        requires some { 0 < length drawn.now }
        requires drawn { AreHeapsOf self.now drawn.now }
        requires few { length drawn.now ≤ heaps_of self.now }
        requires near { command.now ≡ Zpopnear key.now }
        requires empty { helds_of holds.old ≡ [] }
        requires room { heaps_of self.now ≤ vec_capacity holds.old.helds }
        ensures pass { IsPassOf self.now pass.new }
        ensures called { IfOk result
            (λ reply. IsNear self.now command.now (reply_bytes reply) pass.old pass.new drawn.now) }
        ensures busy { OnErr result (IsBusyIn (all_heaps self.now) pass.old pass.new) }
        ensures writable { IfOk result (λ reply. IsTrue (is_writable reply)) }
        ensures empty { helds_of holds.new ≡ [] }
    {
        match self.try_call_in(alloc, pass, drawn, key, false, holds, command) {
            Ok(reply) => Ok(reply),
            Err(Stop::Nothing) => self.try_answer_all(alloc, pass, holds, command),
            Err(Stop::Busy) => Err(Busy),
            Err(Stop::Worn) => Ok(worn()),
        }
    }

    /// Runs a command in all heaps, which it locks in rising order. Where memory to hold them was
    /// refused, it answers `OOM after 0`, and no lock was taken.
    pub(crate) fn try_call_all(
        &self,
        alloc: Global,
        pass: &mut Pass,
        command: &Command,
    ) -> Result<Reply, Busy>
        requires pass { IsPassOf self.now pass.old }
        ensures pass { IsPassOf self.now pass.new }
        ensures called { IfOk result
            (λ reply. IsCommand self.now command.now (reply_bytes reply) pass.old pass.new
            (all_heaps self.now) ⊎ IsTurnedAway (all_heaps self.now)
            (reply_bytes reply) pass.old pass.new) }
        ensures busy { OnErr result (IsBusyIn (all_heaps self.now) pass.old pass.new) }
        ensures writable { IfOk result (λ reply. IsTrue (is_writable reply)) }
    {
        let Ok(mut holds) = LockedHeaps::with_room(alloc, self.slots.len()) else {
            return Ok(short());
        };
        let reply = self.try_answer_all(alloc, pass, &mut holds, command);
        holds.end();
        reply
    }

    /// Runs ZPOPNEAR of this key by two words.
    pub(crate) fn try_call_near(
        &self,
        alloc: Global,
        pass: &mut Pass,
        key: &[u8],
        command: &Command,
        w1: u64,
        w2: u64,
    ) -> Result<Reply, Busy>
        requires pass { IsPassOf self.now pass.old }
        requires near { command.now ≡ Zpopnear key.now }
        ensures pass { IsPassOf self.now pass.new }
        ensures called { IfOk result
            (λ reply. IsNear self.now command.now (reply_bytes reply) pass.old pass.new
            (drawn (heaps_of self.now) w1 w2)) }
        ensures busy { OnErr result (IsBusyIn (all_heaps self.now) pass.old pass.new) }
        ensures writable { IfOk result (λ reply. IsTrue (is_writable reply)) }
    {
        let Ok(mut holds) = LockedHeaps::with_room(alloc, self.slots.len()) else {
            return Ok(short());
        };
        let (low, high) = self.draw(w1, w2);
        let reply = self.try_answer_near(alloc, pass, &[low, high], key, &mut holds, command);
        holds.end();
        reply
    }
}
