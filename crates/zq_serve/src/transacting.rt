//! How a connection has several requests answered as one.

ghost use Rattle.std.specs.Option.{option_copied};
ghost use Rattle.std.specs.Prelude.{IfErr, IfOk, IsTrue, Ok, OnOk, if◌then◌else◌, length, ◌+◌, ◌++◌, ◌≡◌, ◌≤◌};
ghost use Rattle.zq_client.specs.Texts.{OK};
ghost use Rattle.zq_commands.specs.Arrays.{are_writable};
ghost use Rattle.zq_journal.specs.Untouched.{keys_of};
ghost use Rattle.zq_resp.specs.Reply.{is_writable, reply_bytes};
ghost use Rattle.zq_resp.specs.declared.reply.Reply.{Array};
ghost use Rattle.zq_serve.specs.Callers as callers;
ghost use Rattle.zq_serve.specs.Controls as controls;
ghost use Rattle.zq_serve.specs.Denials.{denied};
ghost use Rattle.zq_serve.specs.Queues.{weight_of};
ghost use Rattle.zq_session.specs.Transacting.{refused_bytes};
ghost use Rattle.zq_serve.specs.declared.denial.Denial.TheVariants as denial;
ghost use Rattle.zq_serve.specs.Transactions.{AreFilled, IsAnsweredTogether, IsDiscarded, IsExecuted, IsFilledAt, IsKept, IsObeyed, IsObeyedAlone, IsOpened, IsOwnReadBy, IsOwnReply, IsPutOffBy, IsReadAs, IsRun, IsWatched, IsWatchedAnew, IsWatchedBeside, spoiled_by, unwatched};
ghost use Rattle.zq_serve.specs.Preparing.{inside};
ghost use Rattle.zq_words.specs.Words.{views};

use crate::caller::{CallerState, Watching};
use crate::control::{Control, are_shutdown_options, control_of, is_own_at_end, is_whole};
use crate::denial::Denial;
use crate::desk::Desk;
use crate::knowing::Knowing;
use crate::queue::{MOST_BYTES, Queue, weight_of};
use std::alloc::{AllocError, Global};
use std::time::Clock;
use zq_client::{ClientState, is_own};
use zq_resp::{Reply, Request};
use zq_session::{Answers, Queued, Transacted, Transacts, copy_request};
use zq_spread::Watched;
use zq_words::Refused;

impl<A: Answers + Transacts, R: Clock> Knowing<'_, A, R> {
    /// A request waits, or is refused; then none of those that wait will be answered.
    pub(crate) fn put_off(
        &mut self,
        caller: &mut CallerState,
        alloc: Global,
        request: &Request,
    ) -> Reply
        ensures related { IsPutOffBy A.prepares self.old.answerer caller.old request.now result
            caller.new }
        ensures inside { self.new.answerer ≡ self.old.answerer }
        ensures writable { IsTrue (is_writable result) }
        ensures desk { option_copied self.new.desk ≡ option_copied self.old.desk }
    {
        match self.queued(alloc, request) {
            Ok(queued) => caller.put_off(queued, weight_of(request.words())),
            Err(reply) => {
                caller.spoil();
                reply
            }
        }
    }

    /// What waits for a request. A reply where it cannot wait.
    fn queued(&self, alloc: Global, request: &Request) -> Result<Queued, Reply>
        ensures read { IsReadAs A.prepares self.now.answerer request.now result }
        ensures writable { IfErr result (λ reply. IsTrue (is_writable reply)) }
    {
        let words = request.words();
        if is_own_at_end(words) {
            return queue_own(alloc, request);
        }
        if is_own(words) || control_of(words).is_some() {
            return Err(Denial::Inside.reply());
        }
        self.answerer.prepare(alloc, request)
    }

    /// A request that begins, ends or guards what is answered as one.
    pub(crate) fn obey(
        &mut self,
        desk: &Desk,
        caller: &mut CallerState,
        alloc: Global,
        control: Control,
        request: &Request,
    ) -> Reply
        ensures related { IsObeyed (inside A.answers A.prepares A.transacts A.watches)
            desk.now.profile control self.old.answerer caller.old request.now result
            self.new.answerer caller.new }
        ensures writable { IsTrue (is_writable result) }
        ensures desk { option_copied self.new.desk ≡ option_copied self.old.desk }
    {
        match request.words() {
            [] => refuse(caller, control, Refused::Words),
            [_] => self.obey_alone(desk, caller, alloc, control),
            [_, keys @ ..] => match control {
                Control::Watch => self.watch(caller, alloc, keys),
                Control::Shutdown if are_shutdown_options(keys) => self.shut(desk),
                Control::Shutdown => refuse(caller, control, Refused::Syntax),
                _ => refuse(caller, control, Refused::Words),
            },
        }
    }

    /// The same, with no word behind the name.
    fn obey_alone(
        &mut self,
        desk: &Desk,
        caller: &mut CallerState,
        alloc: Global,
        control: Control,
    ) -> Reply
        ensures related { IsObeyedAlone (inside A.answers A.prepares A.transacts A.watches)
            desk.now.profile control self.old.answerer caller.old result self.new.answerer
            caller.new }
        ensures writable { IsTrue (is_writable result) }
        ensures desk { option_copied self.new.desk ≡ option_copied self.old.desk }
    {
        match control {
            Control::Multi => open(caller, alloc),
            Control::Exec => self.execute(desk, caller, alloc),
            Control::Discard => discard(caller),
            Control::Watch => refuse(caller, control, Refused::Words),
            Control::Unwatch => unwatch(caller),
            Control::Shutdown => self.shut(desk),
        }
    }

    /// SHUTDOWN: the site ends, where this connection may have it end.
    fn shut(&self, desk: &Desk) -> Reply
        ensures told { reply_bytes result
            ≡ (if desk.now.may_end then OK else denied denial.Shutdown) }
        ensures writable { IsTrue (is_writable result) }
    {
        if !desk.may_end() {
            return Denial::Shutdown.reply();
        }
        desk.end();
        self.port.stop();
        Reply::Simple("OK")
    }

    /// EXEC: those that wait are answered as one, and nothing is watched any more.
    fn execute(&mut self, desk: &Desk, caller: &mut CallerState, alloc: Global) -> Reply
        ensures related { IsExecuted A.transacts desk.now.profile self.old.answerer caller.old
            result self.new.answerer caller.new }
        ensures writable { IsTrue (is_writable result) }
        ensures desk { option_copied self.new.desk ≡ option_copied self.old.desk }
    {
        if caller.is_idle() {
            return Denial::ExecAlone.reply();
        }
        let (watching, queue) = caller.take();
        match queue {
            Queue::Idle | Queue::Broken => Denial::Aborted.reply(),
            Queue::Open(requests, _) => {
                self.run(desk, &mut caller.client, alloc, &requests, watching)
            }
        }
    }

    /// Those that waited are answered as one where nothing is watched, or what is was not changed.
    fn run(
        &mut self,
        desk: &Desk,
        client: &mut ClientState,
        alloc: Global,
        requests: &[Queued],
        watching: Watching,
    ) -> Reply
        ensures related { IsRun A.transacts desk.now.profile self.old.answerer client.old
            requests.now watching result self.new.answerer client.new }
        ensures writable { IsTrue (is_writable result) }
        ensures desk { option_copied self.new.desk ≡ option_copied self.old.desk }
    {
        match watching {
            Watching::Touched => Reply::NullArray,
            Watching::Nothing => self.answer_together(desk, client, alloc, requests, None),
            Watching::Keys(watched) => {
                self.answer_together(desk, client, alloc, requests, Some(&watched))
            }
        }
    }

    /// Requests are answered as one, where nothing that is watched was changed.
    fn answer_together(
        &mut self,
        desk: &Desk,
        client: &mut ClientState,
        alloc: Global,
        requests: &[Queued],
        watched: Option<&Watched>,
    ) -> Reply
        ensures related { IsAnsweredTogether A.transacts desk.now.profile self.old.answerer
            client.old requests.now (option_copied watched.entry) result
            self.new.answerer client.new }
        ensures writable { IsTrue (is_writable result) }
        ensures desk { option_copied self.new.desk ≡ option_copied self.old.desk }
    {
        match self.answerer.transact(alloc, requests, watched) {
            Transacted::Ran(mut replies) => {
                self.fill(desk, client, alloc, requests, &mut replies);
                array(replies)
            }
            Transacted::Touched => Reply::NullArray,
            Transacted::TurnedAway(reply) => reply,
        }
    }

    /// The connection answers those that are its own, at their places.
    fn fill(
        &self,
        desk: &Desk,
        client: &mut ClientState,
        alloc: Global,
        requests: &[Queued],
        replies: &mut [Reply],
    )
        ensures filled { AreFilled desk.now.profile client.old requests.now replies.old
            replies.new client.new }
        ensures number { length replies.new ≡ length replies.old }
        ensures writable { IsTrue (are_writable replies.old) → IsTrue (are_writable replies.new) }
    {
        for place in 0..requests.len() {
            if place >= replies.len() {
                return;
            }
            self.fill_at(desk, client, alloc, &requests[place], &mut replies[place]);
        }
    }

    /// The same at a place.
    fn fill_at(
        &self,
        desk: &Desk,
        client: &mut ClientState,
        alloc: Global,
        queued: &Queued,
        reply: &mut Reply,
    )
        ensures filled { IsFilledAt desk.now.profile client.old queued.now reply.old reply.new
            client.new }
        ensures writable { IsTrue (is_writable reply.old) → IsTrue (is_writable reply.new) }
    {
        if let Queued::Own(request) = queued {
            *reply = self.own_reply(desk, client, alloc, request);
        }
    }

    /// What the connection answers itself to a request that waited.
    fn own_reply(
        &self,
        desk: &Desk,
        client: &mut ClientState,
        alloc: Global,
        request: &Request,
    ) -> Reply
        ensures own { IsOwnReply desk.now.profile client.old request.now result
            client.new }
        ensures writable { IsTrue (is_writable result) }
    {
        let moment = self.moment(desk, request);
        match client.answer(alloc, &desk.profile, &moment, request) {
            Some(reply) => reply,
            None => Reply::NullArray,
        }
    }

    /// WATCH: these keys are watched from now on, and those that were go on to be.
    fn watch(&mut self, caller: &mut CallerState, alloc: Global, keys: &[Vec<u8>]) -> Reply
        ensures related { IsWatched A.transacts A.watches self.old.answerer caller.old
            (views keys.now) result self.new.answerer caller.new }
        ensures writable { IsTrue (is_writable result) }
        ensures desk { option_copied self.new.desk ≡ option_copied self.old.desk }
    {
        if !caller.is_idle() {
            return Denial::WatchInside.reply();
        }
        match self.watched_beside(alloc, caller.watching(), keys) {
            Ok(watching) => keep(caller, alloc, watching),
            Err(reply) => reply,
        }
    }

    /// What is watched from now on, beside what was. Those that were watched are asked for once
    /// they are watched anew, so that no change goes by in between.
    fn watched_beside(
        &mut self,
        alloc: Global,
        watching: Option<&Watching>,
        keys: &[Vec<u8>],
    ) -> Result<Watching, Reply>
        ensures related { IsWatchedBeside A.transacts A.watches self.old.answerer
            (callers.watching_or (option_copied watching.entry)) (views keys.now) result
            self.new.answerer }
        ensures writable { IfErr result (λ reply. IsTrue (is_writable reply)) }
        ensures desk { option_copied self.new.desk ≡ option_copied self.old.desk }
    {
        match watching {
            None | Some(Watching::Nothing) => self.watched_anew(alloc, &[], keys),
            Some(Watching::Touched) => Ok(Watching::Touched),
            Some(Watching::Keys(had)) => {
                let next = self.watched_anew(alloc, had.keys(), keys)?;
                match self.answerer.transact(alloc, &[], Some(had)) {
                    Transacted::Ran(_) => Ok(next),
                    Transacted::Touched => Ok(Watching::Touched),
                    Transacted::TurnedAway(reply) => Err(reply),
                }
            }
        }
    }

    /// These keys are watched from now on, and with them those that were.
    fn watched_anew(
        &mut self,
        alloc: Global,
        had: &[Vec<u8>],
        keys: &[Vec<u8>],
    ) -> Result<Watching, Reply>
        ensures related { IsWatchedAnew A.watches self.old.answerer (views had.now)
            (views keys.now) result self.new.answerer }
        ensures writable { IfErr result (λ reply. IsTrue (is_writable reply)) }
        ensures limit { OnOk result
            (weight_of (views had.now) + weight_of (views keys.now) ≤ 16777216) }
        ensures desk { option_copied self.new.desk ≡ option_copied self.old.desk }
    {
        if weight_of(had).saturating_add(weight_of(keys)) > MOST_BYTES {
            return Err(Denial::TooLarge.reply());
        }
        let Ok(all) = joined(alloc, had, keys) else {
            return Err(Refused::NoMemory.reply());
        };
        let watched = self.answerer.watch(alloc, all)?;
        Ok(Watching::Keys(watched))
    }
}

/// An array of these replies.
fn array(replies: Vec<Reply>) -> Reply
    ensures array { result ≡ Array replies }
    ensures writable { IsTrue (are_writable replies.items) → IsTrue (is_writable result) }
{
    Reply::Array(replies)
}

/// A request waits that the connection answers itself, once the others are answered.
fn queue_own(alloc: Global, request: &Request) -> Result<Queued, Reply>
    ensures read { IsOwnReadBy request.now result (controls.is_whole request.now) }
    ensures writable { IfErr result (λ reply. IsTrue (is_writable reply)) }
{
    if !is_whole(request.words()) {
        return Err(Refused::Words.reply());
    }
    match copy_request(alloc, request) {
        Ok(copied) => Ok(Queued::Own(copied)),
        Err(AllocError) => Err(Refused::NoMemory.reply()),
    }
}

/// Copies of these keys, and of others behind them.
fn joined(alloc: Global, first: &[Vec<u8>], others: &[Vec<u8>]) -> Result<Vec<Vec<u8>>, AllocError>
    ensures { IfOk result (λ keys. keys_of keys.items ≡ views first.now ++ views others.now) }
{
    let mut keys = Vec::new(alloc);
    copy_all(alloc, &mut keys, first)?;
    copy_all(alloc, &mut keys, others)?;
    Ok(keys)
}

/// Appends copies of these words.
fn copy_all(alloc: Global, to: &mut Vec<Vec<u8>>, words: &[Vec<u8>]) -> Result<(), AllocError>
    ensures { OnOk result (views to.new.items ≡ views to.old.items ++ views words.now) }
{
    for word in words {
        to.push(Vec::from_slice(alloc, word)?)?;
    }
    Ok(())
}

/// A request that begins, ends or guards what is answered as one is refused. Then nothing of what
/// waits will be answered, but where it is EXEC.
fn refuse(caller: &mut CallerState, control: Control, why: Refused) -> Reply
    ensures refused { reply_bytes result ≡ refused_bytes why }
    ensures spoiled { caller.new ≡ spoiled_by control caller.old }
    ensures writable { IsTrue (is_writable result) }
{
    if !matches!(control, Control::Exec) {
        caller.spoil();
    }
    why.reply()
}

/// MULTI: requests wait from now on.
fn open(caller: &mut CallerState, alloc: Global) -> Reply
    ensures opened { IsOpened caller.old.queue caller.old result caller.new }
    ensures writable { IsTrue (is_writable result) }
{
    if !caller.is_idle() {
        return Denial::Nested.reply();
    }
    match caller.open(alloc) {
        Ok(()) => Reply::Simple("OK"),
        Err(AllocError) => Refused::NoMemory.reply(),
    }
}

/// DISCARD: nothing waits any more, and nothing is watched.
fn discard(caller: &mut CallerState) -> Reply
    ensures discarded { IsDiscarded caller.old.queue caller.old result caller.new }
    ensures writable { IsTrue (is_writable result) }
{
    if caller.is_idle() {
        return Denial::DiscardAlone.reply();
    }
    caller.clear();
    Reply::Simple("OK")
}

/// UNWATCH: nothing is watched any more.
fn unwatch(caller: &mut CallerState) -> Reply
    ensures told { reply_bytes result ≡ OK }
    ensures unwatched { caller.new ≡ unwatched caller.old }
    ensures writable { IsTrue (is_writable result) }
{
    if caller.is_idle() {
        caller.clear();
    }
    Reply::Simple("OK")
}

/// This is watched from now on, where there is memory for that.
fn keep(caller: &mut CallerState, alloc: Global, watching: Watching) -> Reply
    ensures kept { IsKept caller.old (Ok watching) result caller.new }
    ensures writable { IsTrue (is_writable result) }
{
    match caller.watch(alloc, watching) {
        Ok(()) => Reply::Simple("OK"),
        Err(AllocError) => Refused::NoMemory.reply(),
    }
}
