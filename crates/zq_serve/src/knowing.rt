//! What answers connections, some of their requests by what they have of their own.

ghost use Rattle.std.specs.Option.{option_copied};
ghost use Rattle.std.specs.Prelude.{IsTrue, ◌≡◌};
ghost use Rattle.zq_resp.specs.Reply.{is_writable};
ghost use Rattle.zq_serve.specs.Desks.{AnswersAtDesk, HasBegun, IsAskedOf};
ghost use Rattle.zq_serve.specs.Desks as desks;
ghost use Rattle.zq_serve.specs.Preparing.{inside};
ghost use Rattle.zq_words.specs.Words.{views};

use crate::caller::CallerState;
use crate::control::{Control, control_of, ends_all, is_reset};
use crate::desk::Desk;
use std::alloc::Global;
use std::time::Clock;
use zq_client::{Moment, asks_for_moment};
use zq_loop::{Attends, Port};
use zq_metrics::{Command, Counters};
use zq_resp::{Reply, Request};
use zq_session::{Answers, Transacts};

/// All that is counted.
const COMMANDS: [Command; 14] = [
    Command::Ping,
    Command::Zadd,
    Command::Zincrby,
    Command::Zrem,
    Command::Zscore,
    Command::Zcard,
    Command::Zcount,
    Command::Zrank,
    Command::Zrevrank,
    Command::Zrange,
    Command::Zpopmin,
    Command::Zpopnear,
    Command::Del,
    Command::Other,
];

/// Answers as the answerer inside; where there is a desk, a connection answers first what is its
/// own, keeps what is to be answered as one until it is complete, and the answerer inside is asked
/// for what is left. So who has to show the password, and has not, does not reach it.
#[derive(Drop)]
pub struct Knowing<'b, A: Answers, R: Clock> {
    pub(crate) answerer: A,
    pub(crate) rt: &'b R,
    pub(crate) desk: Option<&'b Desk>,
    pub(crate) port: &'b Port,
    pub(crate) counters: Option<&'b Counters>,
}

/// How a request of a connection is answered.
#[derive(Clone, Copy)]
pub enum Way {
    /// By the connection itself, or by the answerer inside.
    Ask,
    /// It waits.
    PutOff,
    /// It begins, ends or guards what is answered as one.
    Control(Control),
}

/// How a request of these words is answered by a connection that has this. Who has yet to show the
/// password, or ends, has nothing answered as one.
fn way_of(caller: &CallerState, words: &[Vec<u8>]) -> Way
    ensures { result ≡ desks.way_of caller.now (views words.now) }
{
    if !caller.client.is_known() || caller.client.is_over() {
        return Way::Ask;
    }
    match (caller.is_idle(), control_of(words)) {
        (true, Some(control)) => Way::Control(control),
        (true, None) => Way::Ask,
        (false, Some(Control::Unwatch | Control::Shutdown)) => Way::PutOff,
        (false, Some(control)) => Way::Control(control),
        (false, None) if ends_all(words) => Way::Ask,
        (false, None) => Way::PutOff,
    }
}

impl<A: Answers + Transacts, R: Clock> Knowing<'_, A, R> {
    /// The answer of a connection that has this, at the desk.
    fn attend_at(
        &mut self,
        desk: &Desk,
        own: &mut Option<CallerState>,
        alloc: Global,
        request: &Request,
    ) -> Reply
        ensures related { AnswersAtDesk (inside A.answers A.prepares A.transacts A.watches)
            desk.now.profile self.old.answerer own.old request.now result
            self.new.answerer own.new }
        ensures writable { IsTrue (is_writable result) }
        ensures desk { option_copied self.new.desk ≡ option_copied self.old.desk }
    {
        let mut caller = caller_of(desk, own, alloc);
        let reply = match way_of(&caller, request.words()) {
            Way::Ask => self.ask(desk, &mut caller, alloc, request),
            Way::PutOff => self.put_off(&mut caller, alloc, request),
            Way::Control(control) => self.obey(desk, &mut caller, alloc, control, request),
        };
        *own = Some(caller);
        reply
    }

    /// The connection answers itself, or the answerer inside is asked.
    fn ask(
        &mut self,
        desk: &Desk,
        caller: &mut CallerState,
        alloc: Global,
        request: &Request,
    ) -> Reply
        ensures related { IsAskedOf (inside A.answers A.prepares A.transacts A.watches)
            desk.now.profile self.old.answerer caller.old request.now result
            self.new.answerer caller.new }
        ensures writable { IsTrue (is_writable result) }
        ensures desk { option_copied self.new.desk ≡ option_copied self.old.desk }
    {
        let moment = self.moment(desk, request);
        let answered = caller.client.answer(alloc, &desk.profile, &moment, request);
        caller.forget(is_reset(request.words()));
        match answered {
            Some(reply) => reply,
            None => self.answerer.answer(alloc, request),
        }
    }
}

impl<A: Answers, R: Clock> Knowing<'_, A, R> {
    /// The moment, where the request asks for it.
    pub(crate) fn moment(&self, desk: &Desk, request: &Request) -> Moment {
        if !asks_for_moment(request.words()) {
            return Moment::NONE;
        }
        let requests = match self.counters {
            Some(counters) => answered_by(counters),
            None => 0,
        };
        desk.moment(self.rt, self.port.figures(), requests)
    }
}

/// How many requests were answered.
fn answered_by(counters: &Counters) -> u64 {
    let counts = counters.counts();
    let mut all = 0u64;
    for command in COMMANDS {
        all = all.wrapping_add(counts.answered(command));
    }
    all
}

/// What a connection has before a request: what its last request left, and what it begins with
/// where there was none.
fn caller_of(desk: &Desk, own: &mut Option<CallerState>, alloc: Global) -> CallerState
    ensures { HasBegun desk.now.profile own.old result }
{
    match own.take() {
        Some(caller) => caller,
        None => CallerState::new(desk.begin(alloc)),
    }
}

impl<A: Answers + Transacts, R: Clock> Attends<CallerState> for Knowing<'_, A, R> {
    ghost use Rattle.std.specs.Option.{option_copied};
    ghost use Rattle.std.specs.Prelude.{◌≡◌};
    ghost use Rattle.zq_loop.specs.Attending.{AnyAsked};
    ghost use Rattle.zq_serve.specs.Desks.{AnswersBy};
    ghost use Rattle.zq_serve.specs.Preparing.{inside};

    ghost answers = { λ old own words reply new own_new.
        (option_copied new.desk ≡ option_copied old.desk)
        × AnswersBy (inside A.answers A.prepares A.transacts A.watches) (option_copied old.desk)
        old.answerer own words reply new.answerer own_new };

    ghost others = { λ old new. (option_copied new.desk ≡ option_copied old.desk)
        × AnyAsked (AnswersBy (inside A.answers A.prepares A.transacts A.watches)
        (option_copied old.desk)) old.answerer new.answerer };

    fn attend(&mut self, own: &mut Option<CallerState>, alloc: Global, request: &Request) -> Reply {
        match self.desk {
            Some(desk) => self.attend_at(desk, own, alloc, request),
            None => self.answerer.answer(alloc, request),
        }
    }

    fn is_over(&self, own: &Option<CallerState>) -> bool {
        match own {
            Some(caller) => caller.client.is_over(),
            None => false,
        }
    }

    fn is_stranger(&self, own: &Option<CallerState>) -> bool {
        match (self.desk, own) {
            (Some(_), Some(caller)) => !caller.client.is_known(),
            (Some(desk), None) => desk.profile.password.is_some(),
            (None, _) => false,
        }
    }
}
