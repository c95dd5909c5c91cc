//! A server of a site that threads share.

ghost use Rattle.std.specs.Prelude.{All, IfOk, IsErrOf, IsTrue, List, [], length, map, option_copied, ℕ, ◌∷◌, ◌≡◌};
ghost use Rattle.zq_commands.specs.Arrays.{are_writable};
ghost use Rattle.zq_commands.specs.Calls.{procedures};
ghost use Rattle.zq_resp.specs.Reply.{is_writable, reply_bytes};
ghost use Rattle.zq_journal.specs.Untouched.{keys_of};
ghost use Rattle.zq_session.specs.Asking.{AreAskedOf};
ghost use Rattle.zq_session.specs.Calling.{IsAskedOf};
ghost use Rattle.zq_session.specs.Passing.{IsPassedOn, draws_after, passed_by, words_for};
ghost use Rattle.zq_spread.specs.Watching.{AreShown};
ghost use Rattle.zq_spread.specs.Worn.{IsWornIn};
ghost use Rattle.zq_spread.specs.declared.pass.Pass.{Pass as Passes};
ghost use Rattle.zq_words.specs.Calls.{IsCallWithinLimits, call_shown};

use crate::serving::Answers;
use crate::site_pass::SitePass;
use std::alloc::Global;
use std::sync::Wait;
use zq_resp::{Reply, Request};
use zq_spread::{Draws, ReadFault, WatchFault, Watched};
use zq_words::{Command, Kind, SiteCall};

/// A server of a site, which answers requests by one pass. Other threads may work at the site at
/// the same time, each by a pass of its own, so a request may wait for another thread.
///
/// A request is one call of the site. ZPOPNEAR draws its heaps by the next two words of the draws;
/// no other command takes any. What is no command changes nothing and takes no words.
#[derive(Drop)]
pub struct Passing<'b, 'a, R: Wait> {
    rt: &'b R,
    own: &'b mut SitePass<'a>,
    draws: Draws,
}

impl<'b, 'a, R: Wait> Passing<'b, 'a, R> {
    /// A server of a site, by this pass of it.
    pub fn new(rt: &'b R, own: &'b mut SitePass<'a>, draws: Draws) -> Passing<'b, 'a, R>
        ensures { passed_by result.own.now result.draws ≡ passed_by own.old draws }
    {
        Passing { rt, own, draws }
    }

    /// The reply to a command, by a call of the site.
    pub(crate) fn run(&mut self, alloc: Global, command: &Command) -> Reply
        ensures ran { IsPassedOn (passed_by self.old.own.now self.old.draws) command.now
            (passed_by self.new.own.now self.new.draws) (reply_bytes result) }
        ensures writable { IsTrue (is_writable result) }
    {
        let words = draw(&mut self.draws, command);
        self.own.call(self.rt, alloc, command, words)
    }

    /// The reply to what is asked alone, by a call of the site in all heaps.
    pub(crate) fn ask(&mut self, alloc: Global, asked: SiteCall) -> Reply
        requires { IsCallWithinLimits (call_shown asked) }
        ensures asked { IsAskedOf (passed_by self.old.own.now self.old.draws)
            (call_shown asked.entry) (passed_by self.new.own.now self.new.draws)
            (reply_bytes result) }
        ensures writable { IsTrue (is_writable result) }
    {
        self.own.ask(self.rt, alloc, asked)
    }

    /// Asks the site several things at once, where nothing that is watched was changed.
    pub(crate) fn ask_all(
        &mut self,
        alloc: Global,
        calls: &[SiteCall],
        watched: Option<&Watched>,
        replies: &mut Vec<Reply>,
    ) -> Result<(), WatchFault>
        requires { All (λ asked. IsCallWithinLimits (call_shown asked)) calls.now }
        ensures site { self.new.own.now.site.now ≡ self.old.own.now.site.now }
        ensures draws { self.new.draws ≡ self.old.draws }
        ensures asked { AreAskedOf self.old.own.now.site.now (option_copied watched.entry)
            (procedures calls.now) (map reply_bytes replies.old.items)
            (map reply_bytes replies.new.items) result self.old.own.now.pass
            self.new.own.now.pass }
        ensures writable { IsTrue (are_writable replies.old.items) →
            IsTrue (are_writable replies.new.items) }
    {
        self.own.ask_all(self.rt, alloc, calls, watched, replies)
    }

    /// Watches these keys of the site from now on.
    pub(crate) fn watch(&mut self, alloc: Global, keys: Vec<Vec<u8>>) -> Result<Watched, ReadFault>
        ensures site { self.new.own.now.site.now ≡ self.old.own.now.site.now }
        ensures draws { self.new.draws ≡ self.old.draws }
        ensures shown { IfOk result (λ watched. AreShown self.old.own.now.pass 0 watched.vectors
            self.new.own.now.pass) }
        ensures keys { IfOk result (λ watched. watched.keys ≡ keys_of keys.items) }
        ensures worn { IsErrOf result ReadFault.Worn → (shown : List (List ℕ)) × (mid : Passes)
            × AreShown self.old.own.now.pass 0 shown mid × IsWornIn (length shown ∷ []) mid
            self.new.own.now.pass }
        ensures short { IsErrOf result ReadFault.NoMemory →
            self.new.own.now.pass ≡ self.old.own.now.pass }
    {
        self.own.watch(self.rt, alloc, keys)
    }
}

/// The words that a command is called with.
fn draw(draws: &mut Draws, command: &Command) -> (u64, u64)
    ensures words { result ≡ words_for command.now draws.old }
    ensures goes_on { draws.new ≡ draws_after command.now draws.old }
{
    match command.kind() {
        Kind::Zpopnear { .. } => draws.next(),
        _ => (0, 0),
    }
}

impl<'b, 'a, R: Wait> Answers for Passing<'b, 'a, R> {
    ghost use Rattle.zq_session.specs.Among.{AnyRequest};
    ghost use Rattle.zq_session.specs.Passing.{AnswersByCall, passed_by};

    ghost answers = { λ old words reply new.
        AnswersByCall (passed_by old.own.now old.draws) words reply
        (passed_by new.own.now new.draws) };

    ghost others = { λ old new.
        AnyRequest AnswersByCall (passed_by old.own.now old.draws)
        (passed_by new.own.now new.draws) };

    fn answer(&mut self, alloc: Global, request: &Request) -> Reply {
        match Command::read(alloc, request) {
            Ok(command) => self.run(alloc, &command),
            Err(refused) => refused.reply(),
        }
    }
}
