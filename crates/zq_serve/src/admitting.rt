//! What answers the commands that a site admits.

ghost use Rattle.std.specs.Prelude.{IfSome, IsNone, IsTrue, map, option_copied, true, ◌≡◌, ◌⊎◌, Some};
ghost use Rattle.zq_resp.specs.Reply.{is_writable};
ghost use Rattle.zq_serve.specs.Admission.{AreHeldBack, IsHeldBack, adds, are_admitted, is_addition, is_admitted, is_ping, is_write, writes};
ghost use Rattle.zq_serve.specs.declared.admission.Admission.{Admission as Asked};
ghost use Rattle.zq_serve.specs.declared.admission.Admits.{Admits as Choice};
ghost use Rattle.zq_words.specs.Words as words;

use crate::admission::{Admission, Admits};
use crate::loading::loading_text;
use std::alloc::Global;
use zq_dots::SiteNo;
use zq_resp::{Reply, Request};
use zq_session::{Answers, Queued, Transacted, Transacts};
use zq_spread::Watched;

/// Answers as the answerer inside, where the site admits the command; else the command is refused,
/// and the answerer inside is not asked. Where there is no admission all is admitted.
#[derive(Drop)]
pub struct Admitting<'b, A: Answers> {
    pub(crate) answerer: A,
    pub(crate) admission: Option<&'b Admission>,
}

impl<A: Answers> Answers for Admitting<'_, A> {
    ghost answers = { λ old words reply new.
        (option_copied new.admission ≡ option_copied old.admission)
        × (A.answers old.answerer words reply new.answerer
        ⊎ ((new.answerer ≡ old.answerer) × (asked : Asked) × (admits : Choice)
        × (option_copied old.admission ≡ Some asked)
        × IsHeldBack asked.site admits words reply)) };

    ghost others = { λ old new.
        A.others old.answerer new.answerer ⊎ (new.answerer ≡ old.answerer) };

    fn answer(&mut self, alloc: Global, request: &Request) -> Reply {
        if let Some(admission) = self.admission
            && let Some(reply) = held_back(admission.site, admission.admits(), request.words())
        {
            return reply;
        }
        self.answerer.answer(alloc, request)
    }
}

impl<A: Answers + Transacts> Transacts for Admitting<'_, A> {
    ghost use Rattle.std.specs.Prelude.{Err, Some, option_copied, ◌≡◌, ◌⊎◌};
    ghost use Rattle.zq_resp.specs.declared.reply.Reply.{Reply as Replies};
    ghost use Rattle.zq_serve.specs.Admission.{AreHeldBack, IsHeldBack};
    ghost use Rattle.zq_serve.specs.declared.admission.Admission.{Admission as Asked};
    ghost use Rattle.zq_serve.specs.declared.admission.Admits.{Admits as Choice};
    ghost use Rattle.zq_session.specs.declared.queued.Transacted.TheVariants.{TurnedAway as Turned};

    ghost prepares = { λ state words result.
        A.prepares state.answerer words result
        ⊎ ((asked : Asked) × (admits : Choice) × (why : Replies)
        × (option_copied state.admission ≡ Some asked) × (result ≡ Err why)
        × IsHeldBack asked.site admits words why) };

    ghost transacts = { λ old queue watch result new.
        (option_copied new.admission ≡ option_copied old.admission)
        × (A.transacts old.answerer queue watch result new.answerer
        ⊎ ((new.answerer ≡ old.answerer) × (asked : Asked) × (admits : Choice) × (why : Replies)
        × (option_copied old.admission ≡ Some asked) × (result ≡ Turned why)
        × AreHeldBack asked.site admits queue why)) };

    ghost watches = { λ old keys result new.
        (option_copied new.admission ≡ option_copied old.admission)
        × A.watches old.answerer keys result new.answerer };

    fn prepare(&self, alloc: Global, request: &Request) -> Result<Queued, Reply> {
        if let Some(admission) = self.admission
            && let Some(reply) = held_back(admission.site, admission.admits(), request.words())
        {
            return Err(reply);
        }
        self.answerer.prepare(alloc, request)
    }

    fn transact(
        &mut self,
        alloc: Global,
        queue: &[Queued],
        watched: Option<&Watched>,
    ) -> Transacted {
        if let Some(admission) = self.admission
            && let Some(reply) = first_held_back(admission.site, admission.admits(), queue)
        {
            return Transacted::TurnedAway(reply);
        }
        self.answerer.transact(alloc, queue, watched)
    }

    fn watch(&mut self, alloc: Global, keys: Vec<Vec<u8>>) -> Result<Watched, Reply> {
        self.answerer.watch(alloc, keys)
    }
}

/// What the first of these requests is answered that a site does not admit any more, and `None`
/// where it admits all.
fn first_held_back(site: SiteNo, admits: Admits, queue: &[Queued]) -> Option<Reply>
    ensures refused { IfSome result (AreHeldBack site admits queue.now) }
    ensures writable { IfSome result (λ reply. IsTrue (is_writable reply)) }
    ensures admitted { IsNone result → IsTrue (are_admitted admits queue.now) }
{
    for queued in queue {
        if let Queued::Asked(request) = queued
            && let Some(reply) = held_back(site, admits, request.words())
        {
            return Some(reply);
        }
    }
    None
}

/// What a command is answered that a site does not admit, and `None` where it does.
fn held_back(site: SiteNo, admits: Admits, words: &[Vec<u8>]) -> Option<Reply>
    ensures refused { IfSome result
        (IsHeldBack site admits (map (λ w. w.items) words.now)) }
    ensures writable { IfSome result (λ reply. IsTrue (is_writable reply)) }
    ensures admitted { IsNone result → is_admitted admits (map (λ w. w.items) words.now) ≡ true }
{
    match admits {
        Admits::Readings if is_write(words) => Some(Reply::Error {
            text: loading_text(site),
            after: None,
        }),
        Admits::NoChanges if is_write(words) => Some(Reply::Error {
            text: "MISCONF the disk of this site is full",
            after: None,
        }),
        Admits::NoAdditions if is_addition(words) => Some(Reply::Error {
            text: "OOM command not allowed when used memory > 'maxmemory'.",
            after: None,
        }),
        Admits::Pings if !is_ping(words) => Some(Reply::Error {
            text: "ERR this site number was used by another run",
            after: None,
        }),
        _ => None,
    }
}

/// Whether the first word names one of the nine requests that write.
fn is_write(words: &[Vec<u8>]) -> bool
    ensures { result ≡ is_write (map (λ w. w.items) words.now) }
{
    match words {
        [name, ..] => writes(name),
        [] => false,
    }
}

/// Whether a request of this name writes.
fn writes(name: &[u8]) -> bool
    ensures { result ≡ writes name.now }
{
    is(name, b"ZADD")
        || is(name, b"ZINCRBY")
        || is(name, b"ZREM")
        || is(name, b"ZPOPMIN")
        || is(name, b"ZPOPNEAR")
        || is(name, b"DEL")
        || is(name, b"ZPOPMAX")
        || is(name, b"ZREMRANGEBYSCORE")
        || is(name, b"ZREMRANGEBYRANK")
}

/// Whether the first word names one of the two commands that add.
fn is_addition(words: &[Vec<u8>]) -> bool
    ensures { result ≡ is_addition (map (λ w. w.items) words.now) }
{
    match words {
        [name, ..] => adds(name),
        [] => false,
    }
}

/// Whether a command of this name adds.
fn adds(name: &[u8]) -> bool
    ensures { result ≡ adds name.now }
{
    is(name, b"ZADD") || is(name, b"ZINCRBY")
}

/// Whether the first word names PING.
fn is_ping(words: &[Vec<u8>]) -> bool
    ensures { result ≡ is_ping (map (λ w. w.items) words.now) }
{
    match words {
        [name, ..] => is(name, b"PING"),
        [] => false,
    }
}

/// Whether a word is this name, in any ASCII case.
fn is(word: &[u8], name: &[u8]) -> bool
    ensures { result ≡ words.is word.now name.now }
{
    word.eq_ignore_ascii_case(name)
}
