//! How a server of a site answers several requests as one.

ghost use Rattle.std.specs.Prelude.{All, Err, IfErr, IfOk, IsTrue, List, MatchResult, Ok, OnOk, [], length, map, ◌++◌, ◌+◌, ◌<◌, ◌≡◌, ◌≤◌, ◌⊎◌};
ghost use Rattle.std.specs.Vec.Iter.{into_iter_items, into_iter_len};
ghost use Rattle.std.specs.Vec.{vec_capacity, vec_len};
ghost use Rattle.zq_commands.specs.Arrays.{are_writable};
ghost use Rattle.zq_resp.specs.Reply.{is_writable, reply_bytes};
ghost use Rattle.zq_session.specs.Places.{ArePlacesOf, IsPlaceOf, IsProgramOf, IsReplyAt};
ghost use Rattle.zq_session.specs.Transacting.{IsShort, PreparesAs, PreparesRefused, asked_of, calls_in, place_of, with_call, woven};
ghost use Rattle.zq_session.specs.declared.queued.Queued.{Queued as Waiting};
ghost use Rattle.zq_words.specs.Calls.{IsCallWithinLimits, call_shown};
ghost use Rattle.zq_words.specs.declared.refused.Refused.TheVariants as why;

use crate::calling::Calling;
use crate::queued::{Queued, Transacted};
use crate::transacts::Transacts;
use std::alloc::{AllocError, Global};
use std::sync::Wait;
use std::vec::IntoIter;
use zq_commands::{Stopped, cut_reply};
use zq_dialect::read_call;
use zq_resp::{Reply, Request};
use zq_spread::{ReadFault, WatchFault, Watched};
use zq_words::{Command, Refused, SiteCall};

/// What a request asks of a site: a command, or a further request on keys. It copies nothing; a
/// command with several pairs takes memory for these.
fn read_asked(alloc: Global, request: &Request) -> Result<SiteCall<'_>, Refused>
    ensures asked { MatchResult result
        (λ call. asked_of request.now ≡ Ok (call_shown call))
        (λ refused. (asked_of request.now ≡ Err refused) ⊎ (refused ≡ why.NoMemory)) }
    ensures limits { IfOk result (λ call. IsCallWithinLimits (call_shown call)) }
{
    match Command::read(alloc, request) {
        Ok(command) => Ok(SiteCall::Command(command)),
        Err(Refused::Unknown) => match read_call(request)? {
            Some(call) => Ok(call),
            None => Err(Refused::Unknown),
        },
        Err(refused) => Err(refused),
    }
}

/// A copy of a request.
pub fn copy_request(alloc: Global, request: &Request) -> Result<Request, AllocError>
    ensures { IfOk result (λ copied. copied ≡ request.now) }
{
    let words = request.words();
    let mut copied = Vec::with_capacity(alloc, words.len())?;
    for word in words {
        copied.push_reserved(Vec::from_slice(alloc, word)?);
    }
    Ok(Request::new(copied))
}

/// What is queued for a request that was read, or the reply by which it is refused at once.
fn prepared(
    alloc: Global,
    request: &Request,
    asked: Result<SiteCall, Refused>,
) -> Result<Queued, Reply>
    requires { MatchResult asked
        (λ call. asked_of request.now ≡ Ok (call_shown call))
        (λ refused. (asked_of request.now ≡ Err refused) ⊎ (refused ≡ why.NoMemory)) }
    ensures prepared { PreparesAs (asked_of request.now) request.now result ⊎ IsShort result }
    ensures writable { IfErr result (λ reply. IsTrue (is_writable reply)) }
{
    match asked {
        Ok(_) => match copy_request(alloc, request) {
            Ok(copied) => Ok(Queued::Asked(copied)),
            Err(AllocError) => Err(Refused::NoMemory.reply()),
        },
        Err(refused) => prepare_refused(refused),
    }
}

/// What is queued for a request that is refused, or the reply where it is refused at once: nothing
/// has its name, it does not take its number of words, or there was no memory for it.
pub fn prepare_refused(refused: Refused) -> Result<Queued, Reply>
    ensures prepared { PreparesRefused refused result }
    ensures writable { IfErr result (λ reply. IsTrue (is_writable reply)) }
{
    match refused {
        Refused::Unknown | Refused::Words | Refused::NoMemory => Err(refused.reply()),
        other => Ok(Queued::Refused(other)),
    }
}

/// What has the place of a queued request that is no call.
#[derive(Clone, Copy)]
enum Place {
    /// The reply to a call.
    Call,
    /// The error for this reason.
    Refused(Refused),
    /// The null array, until the connection answers.
    Own,
}

/// What is called, what has each place, and room for the replies at all of them.
struct Program<'a> {
    calls: Vec<SiteCall<'a>>,
    places: Vec<Place>,
    room: Vec<Reply>,
}

/// Reads what is queued. `AllocError` where there is no memory for that, or for the replies.
fn read_program(alloc: Global, queue: &[Queued]) -> Result<Program<'_>, AllocError>
    ensures { IfOk result (λ program. IsProgramOf program.calls.items program.places.items
        program.room queue.now) }
{
    let room = Vec::with_capacity(alloc, queue.len())?;
    let mut calls = Vec::with_capacity(alloc, queue.len())?;
    let mut places = Vec::with_capacity(alloc, queue.len())?;
    for queued in queue {
        let place = read_place(alloc, queued, &mut calls)?;
        places.push_reserved(place);
    }
    Ok(Program {
        calls,
        places,
        room,
    })
}

/// What has the place of a queued request. Where that is a call, it is put behind those that are
/// there, and there is room for it.
fn read_place<'a>(
    alloc: Global,
    queued: &'a Queued,
    calls: &mut Vec<SiteCall<'a>>,
) -> Result<Place, AllocError>
    requires { vec_len calls.old < vec_capacity calls.old }
    ensures place { IfOk result (λ place. IsPlaceOf place queued.now) }
    ensures calls { OnOk result (map call_shown calls.new.items
        ≡ map call_shown calls.old.items ++ with_call (place_of queued.now) []) }
    ensures limits { OnOk result
        (All (λ asked. IsCallWithinLimits (call_shown asked)) calls.old.items →
        All (λ asked. IsCallWithinLimits (call_shown asked)) calls.new.items) }
    ensures room { vec_capacity calls.new ≡ vec_capacity calls.old }
{
    match queued {
        Queued::Asked(request) => match read_asked(alloc, request) {
            Ok(call) => {
                calls.push_reserved(call);
                Ok(Place::Call)
            }
            Err(Refused::NoMemory) => Err(AllocError),
            Err(refused) => Ok(Place::Refused(refused)),
        },
        Queued::Refused(refused) => Ok(Place::Refused(*refused)),
        Queued::Own(_) => Ok(Place::Own),
    }
}

/// Puts the replies to the calls into the room for all, with the other answers at their places.
fn weave(room: &mut Vec<Reply>, places: &[Place], replies: Vec<Reply>)
    requires room { vec_len room.old + length places.now ≤ vec_capacity room.old }
    ensures woven { (queue : List Waiting) → ArePlacesOf places.now queue →
        length (calls_in queue) ≡ length replies.items →
        map reply_bytes room.new.items ≡ map reply_bytes room.old.items
        ++ woven queue (map reply_bytes replies.items) }
    ensures writable { IsTrue (are_writable room.old.items) → IsTrue (are_writable replies.items) →
        IsTrue (are_writable room.new.items) }
{
    let mut left = replies.into_iter();
    for place in places {
        let reply = reply_at(*place, &mut left);
        room.push_reserved(reply);
    }
}

/// The reply at a place: at that of a call the next of the replies, and else one of its own.
fn reply_at(place: Place, replies: &mut IntoIter<Reply, Global>) -> Reply
    requires { into_iter_len replies.old ≡ length (into_iter_items replies.old) }
    ensures reply { IsReplyAt place (into_iter_items replies.old) result
        (into_iter_items replies.new) }
    ensures count { into_iter_len replies.new ≡ length (into_iter_items replies.new) }
    ensures writable { IsTrue (are_writable (into_iter_items replies.old)) →
        IsTrue (is_writable result) × IsTrue (are_writable (into_iter_items replies.new)) }
{
    match place {
        Place::Call => match replies.next() {
            Some(reply) => reply,
            // There is a reply to each call.
            None => Reply::NullArray,
        },
        Place::Refused(refused) => refused.reply(),
        Place::Own => Reply::NullArray,
    }
}

impl<'b, 'a, R: Wait> Transacts for Calling<'b, 'a, R> {
    ghost use Rattle.std.specs.Prelude.{◌≡◌, ◌⊎◌};
    ghost use Rattle.zq_session.specs.Passing.{passed_by};
    ghost use Rattle.zq_session.specs.Transacting.{IsShort, PreparesAs, TransactsBy, WatchesBy, asked_of};

    ghost prepares = { λ state words result.
        PreparesAs (asked_of words) words result ⊎ IsShort result };

    ghost transacts = { λ old queue watch result new. (new.takes_further ≡ old.takes_further)
        × TransactsBy (passed_by old.commands.own.now old.commands.draws) queue watch result
        (passed_by new.commands.own.now new.commands.draws) };

    ghost watches = { λ old keys result new. (new.takes_further ≡ old.takes_further)
        × WatchesBy (passed_by old.commands.own.now old.commands.draws) keys result
        (passed_by new.commands.own.now new.commands.draws) };

    fn prepare(&self, alloc: Global, request: &Request) -> Result<Queued, Reply> {
        prepared(alloc, request, read_asked(alloc, request))
    }

    fn transact(
        &mut self,
        alloc: Global,
        queue: &[Queued],
        watched: Option<&Watched>,
    ) -> Transacted {
        let Ok(program) = read_program(alloc, queue) else {
            return Transacted::TurnedAway(cut_reply(Stopped::NoMemory, 0));
        };
        let Program {
            calls,
            places,
            mut room,
        } = program;
        let mut replies = Vec::new(alloc);
        match self.commands.ask_all(alloc, &calls, watched, &mut replies) {
            Ok(()) => {
                weave(&mut room, &places, replies);
                Transacted::Ran(room)
            }
            Err(WatchFault::Touched) => Transacted::Touched,
            Err(WatchFault::Worn) => Transacted::TurnedAway(cut_reply(Stopped::Worn, 0)),
            Err(WatchFault::NoMemory) => Transacted::TurnedAway(cut_reply(Stopped::NoMemory, 0)),
        }
    }

    fn watch(&mut self, alloc: Global, keys: Vec<Vec<u8>>) -> Result<Watched, Reply> {
        match self.commands.watch(alloc, keys) {
            Ok(watched) => Ok(watched),
            Err(ReadFault::Worn) => Err(cut_reply(Stopped::Worn, 0)),
            Err(ReadFault::NoMemory) => Err(cut_reply(Stopped::NoMemory, 0)),
        }
    }
}
