//! A server of a site that answers further requests on keys too.

ghost use Rattle.std.specs.Prelude.{Err, IsTrue, ◌≡◌};
ghost use Rattle.zq_resp.specs.Reply.{is_writable};
ghost use Rattle.zq_session.specs.Calling.{AnswersFurther};
ghost use Rattle.zq_session.specs.Passing.{passed_by};
ghost use Rattle.zq_words.specs.Command.{command_of};
ghost use Rattle.zq_words.specs.Shown.{IsRefusal};
ghost use Rattle.zq_words.specs.declared.refused.Refused.TheVariants as why;

use crate::passing::Passing;
use crate::serving::Answers;
use crate::site_pass::SitePass;
use std::alloc::Global;
use std::sync::Wait;
use zq_dialect::read_call;
use zq_resp::{Reply, Request};
use zq_spread::Draws;
use zq_words::{Command, Refused};

/// A server of a site as [`Passing`] is, which may answer further requests on keys too: ZMSCORE,
/// EXISTS, TYPE, ZPOPMAX, ZREMRANGEBYSCORE and ZREMRANGEBYRANK.
///
/// Such a request is one call of the site in all of its heaps, as [`zq_spread::Site::call_each`]
/// says, and takes no words of the draws. It is answered `-ERR worn after 0` where a lock or the
/// stamp is at its last value, and `-OOM after 0` where there was no memory to hold the heaps or
/// the reply, as a command of all heaps is. Commands, and all requests where no further ones are
/// taken, are answered as [`Passing`] answers them.
#[derive(Drop)]
pub struct Calling<'b, 'a, R: Wait> {
    pub(crate) commands: Passing<'b, 'a, R>,
    pub(crate) takes_further: bool,
}

impl<'b, 'a, R: Wait> Calling<'b, 'a, R> {
    /// A server of a site, by this pass of it, and whether it takes further requests.
    pub fn new(
        rt: &'b R,
        own: &'b mut SitePass<'a>,
        draws: Draws,
        takes_further: bool,
    ) -> Calling<'b, 'a, R>
        ensures server { passed_by result.commands.own.now result.commands.draws
            ≡ passed_by own.old draws }
        ensures further { result.takes_further ≡ takes_further }
    {
        let commands = Passing::new(rt, own, draws);
        Calling {
            commands,
            takes_further,
        }
    }

    /// The reply to a request that is no command.
    fn answer_further(&mut self, alloc: Global, request: &Request) -> Reply
        requires { command_of request.now ≡ Err why.Unknown }
        ensures answered { AnswersFurther
            (passed_by self.old.commands.own.now self.old.commands.draws) request.now result
            (passed_by self.new.commands.own.now self.new.commands.draws) }
        ensures further { self.new.takes_further ≡ self.old.takes_further }
        ensures writable { IsTrue (is_writable result) }
    {
        match read_call(request) {
            Ok(Some(call)) => self.commands.ask(alloc, call),
            Ok(None) => Refused::Unknown.reply(),
            Err(refused) => refused.reply(),
        }
    }

    /// The reply to a request that was refused as a command. What has an unknown name may be a
    /// further one.
    fn answer_refused(&mut self, alloc: Global, request: &Request, refused: Refused) -> Reply
        requires { IsRefusal refused (command_of request.now) }
        ensures answered { AnswersFurther
            (passed_by self.old.commands.own.now self.old.commands.draws) request.now result
            (passed_by self.new.commands.own.now self.new.commands.draws) }
        ensures further { self.new.takes_further ≡ self.old.takes_further }
        ensures writable { IsTrue (is_writable result) }
    {
        match refused {
            Refused::Unknown => self.answer_further(alloc, request),
            _ => refused.reply(),
        }
    }

    /// The reply to a request, where further ones are taken.
    fn answer_each(&mut self, alloc: Global, request: &Request) -> Reply
        ensures answered { AnswersFurther
            (passed_by self.old.commands.own.now self.old.commands.draws) request.now result
            (passed_by self.new.commands.own.now self.new.commands.draws) }
        ensures further { self.new.takes_further ≡ self.old.takes_further }
        ensures writable { IsTrue (is_writable result) }
    {
        match Command::read(alloc, request) {
            Ok(command) => self.commands.run(alloc, &command),
            Err(refused) => self.answer_refused(alloc, request, refused),
        }
    }
}

impl<'b, 'a, R: Wait> Answers for Calling<'b, 'a, R> {
    ghost use Rattle.zq_session.specs.Among.{AnyRequest};
    ghost use Rattle.zq_session.specs.Calling.{AnswersAs};
    ghost use Rattle.zq_session.specs.Passing.{passed_by};

    ghost answers = { λ old words reply new. (new.takes_further ≡ old.takes_further)
        × AnswersAs old.takes_further (passed_by old.commands.own.now old.commands.draws) words
        reply (passed_by new.commands.own.now new.commands.draws) };

    ghost others = { λ old new. (new.takes_further ≡ old.takes_further)
        × AnyRequest (AnswersAs old.takes_further)
        (passed_by old.commands.own.now old.commands.draws)
        (passed_by new.commands.own.now new.commands.draws) };

    fn answer(&mut self, alloc: Global, request: &Request) -> Reply {
        if self.takes_further {
            self.answer_each(alloc, request)
        } else {
            self.commands.answer(alloc, request)
        }
    }
}
