//! A pass with its site.

ghost use Rattle.std.specs.Prelude.{[], length, ◌∷◌, ◌≡◌};
ghost use Rattle.zq_session.specs.PassFacts.{pass_fact};
ghost use Rattle.zq_spread.specs.Passes.{IsPassOf};

use std::alloc::Global;
use std::sync::Wait;
use zq_commands::{Stopped, cut_reply};
use zq_resp::Reply;
use zq_spread::{EachFault, Pass, ReadFault, Site, WatchFault, Watched};
use zq_words::{Command, SiteCall};

/// One of a site's passes, with the site.
#[derive(Drop)]
pub struct SitePass<'a> {
    pub site: &'a Site,
    pub pass: Pass,
    pub ghost own: { IsPassOf site.now pass } by { pass_fact site.now pass },
}

impl<'a> SitePass<'a> {
    ghost use Rattle.std.specs.Prelude.{IsTrue, Some, ◌≡◌};
    ghost use Rattle.zq_resp.specs.Reply.{is_writable, reply_bytes};
    ghost use Rattle.zq_session.specs.Calling.{IsAsked};
    ghost use Rattle.zq_session.specs.LentSites.{IsBack};
    ghost use Rattle.zq_spread.specs.Dispatch.{IsCalled};
    ghost use Rattle.zq_words.specs.Calls.{IsCallWithinLimits, call_shown};

    /// A pass that the site was made with.
    pub fn new(site: &'a Site, pass: Pass) -> SitePass<'a>
        requires { IsPassOf site.now pass }
        ensures site { result.site.now ≡ site.now }
        ensures pass { result.pass ≡ pass }
    {
        SitePass { site, pass }
    }

    /// Puts a pass that was taken out back.
    pub fn put_back(place: &mut Option<SitePass<'a>>, site: &'a Site, pass: Pass)
        requires { IsPassOf site.now pass }
        ensures { IsBack site.now pass place.new }
    {
        *place = Some(SitePass { site, pass });
    }

    /// Calls the site, as [`Site::call`] says.
    pub fn call<R: Wait>(
        &mut self,
        rt: &R,
        alloc: Global,
        command: &Command,
        words: (u64, u64),
    ) -> Reply
        ensures site { self.new.site.now ≡ self.old.site.now }
        ensures called { IsCalled self.old.site.now command.now words.0 words.1
            (reply_bytes result) self.old.pass self.new.pass }
        ensures writable { IsTrue (is_writable result) }
    {
        let (w1, w2) = words;
        self.site.call(rt, alloc, &mut self.pass, command, w1, w2)
    }

    /// Asks the site one thing, as [`Site::call_each`] says of several.
    pub fn ask<R: Wait>(&mut self, rt: &R, alloc: Global, asked: SiteCall) -> Reply
        requires { IsCallWithinLimits (call_shown asked) }
        ensures site { self.new.site.now ≡ self.old.site.now }
        ensures asked { IsAsked self.old.site.now (call_shown asked.entry) (reply_bytes result)
            self.old.pass self.new.pass }
        ensures writable { IsTrue (is_writable result) }
    {
        let mut replies = Vec::new(alloc);
        let calls = [asked];
        match self
            .site
            .call_each(rt, alloc, &mut self.pass, &calls, &mut replies)
        {
            Ok(()) => only(replies),
            Err(EachFault::Worn) => cut_reply(Stopped::Worn, 0),
            Err(EachFault::NoMemory) => cut_reply(Stopped::NoMemory, 0),
        }
    }
}

impl<'a> SitePass<'a> {
    ghost use Rattle.std.specs.Prelude.{All, IfOk, IsErrOf, IsTrue, List, [], length, map, option_copied, ℕ, ◌∷◌, ◌≡◌};
    ghost use Rattle.zq_commands.specs.Arrays.{are_writable};
    ghost use Rattle.zq_commands.specs.Calls.{procedures};
    ghost use Rattle.zq_journal.specs.Untouched.{keys_of};
    ghost use Rattle.zq_resp.specs.Reply.{reply_bytes};
    ghost use Rattle.zq_session.specs.Asking.{AreAskedOf};
    ghost use Rattle.zq_spread.specs.Watching.{AreShown};
    ghost use Rattle.zq_spread.specs.Worn.{IsWornIn};
    ghost use Rattle.zq_spread.specs.declared.pass.Pass.{Pass as Passes};
    ghost use Rattle.zq_words.specs.Calls.{IsCallWithinLimits, call_shown};

    /// Asks the site several things at once, where nothing that is watched was changed, as
    /// [`Site::call_each`] and [`Site::call_watched`] say.
    pub fn ask_all<R: Wait>(
        &mut self,
        rt: &R,
        alloc: Global,
        calls: &[SiteCall],
        watched: Option<&Watched>,
        replies: &mut Vec<Reply>,
    ) -> Result<(), WatchFault>
        requires { All (λ asked. IsCallWithinLimits (call_shown asked)) calls.now }
        ensures site { self.new.site.now ≡ self.old.site.now }
        ensures asked { AreAskedOf self.old.site.now (option_copied watched.entry)
            (procedures calls.now) (map reply_bytes replies.old.items)
            (map reply_bytes replies.new.items) result self.old.pass self.new.pass }
        ensures writable { IsTrue (are_writable replies.old.items) →
            IsTrue (are_writable replies.new.items) }
    {
        let pass = &mut self.pass;
        match watched {
            Some(watched) => self
                .site
                .call_watched(rt, alloc, pass, watched, calls, replies),
            None => match self.site.call_each(rt, alloc, pass, calls, replies) {
                Ok(()) => Ok(()),
                Err(EachFault::Worn) => Err(WatchFault::Worn),
                Err(EachFault::NoMemory) => Err(WatchFault::NoMemory),
            },
        }
    }

    /// Watches these keys of the site from now on, as [`Site::watch`] says.
    pub fn watch<R: Wait>(
        &mut self,
        rt: &R,
        alloc: Global,
        keys: Vec<Vec<u8>>,
    ) -> Result<Watched, ReadFault>
        ensures site { self.new.site.now ≡ self.old.site.now }
        ensures shown { IfOk result (λ watched. AreShown self.old.pass 0 watched.vectors
            self.new.pass) }
        ensures keys { IfOk result (λ watched. watched.keys ≡ keys_of keys.items) }
        ensures worn { IsErrOf result ReadFault.Worn → (shown : List (List ℕ)) × (mid : Passes)
            × AreShown self.old.pass 0 shown mid × IsWornIn (length shown ∷ []) mid
            self.new.pass }
        ensures short { IsErrOf result ReadFault.NoMemory → self.new.pass ≡ self.old.pass }
    {
        self.site.watch(rt, alloc, &mut self.pass, keys)
    }
}

/// The only one of the replies.
fn only(replies: Vec<Reply>) -> Reply
    requires { length replies.items ≡ 1 }
    ensures { replies.items ≡ result ∷ [] }
{
    let mut replies = replies;
    match replies.pop() {
        Some(reply) => reply,
        None => unreachable!(),
    }
}
