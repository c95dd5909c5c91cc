//! The answers of a connection itself.

ghost use Rattle.std.specs.Prelude.{IfSome, IsTrue, OnErr, Some, not, ◌&&◌, ◌≡◌};
ghost use Rattle.zq_client.specs.Answered as answered;
ghost use Rattle.zq_client.specs.Answered.{AnswersItself};
ghost use Rattle.zq_client.specs.Names.{is_open};
ghost use Rattle.zq_client.specs.Outcomes.{Comes, IsTold};
ghost use Rattle.zq_resp.specs.Reply.{is_writable};
ghost use Rattle.zq_words.specs.Words.{views};

use crate::auth::auth;
use crate::client::client_request;
use crate::client_state::ClientState;
use crate::config::config;
use crate::hello::hello;
use crate::info::info;
use crate::moment::Moment;
use crate::name::Name;
use crate::named::{is_open, named};
use crate::profile::Profile;
use crate::server::{command, echo, select, time};
use crate::texts::ok_reply;
use crate::why::Why;
use std::alloc::{AllocError, Global};
use zq_resp::{Reply, Request};
use zq_words::Refused;

impl ClientState {
    /// What the connection answers itself to a request; `None` where the request is for the site
    /// to answer, and then the connection stays as it is.
    ///
    /// Once the connection is over, each request is answered by the error that it ends. Before it
    /// is known, all but AUTH, HELLO, QUIT and RESET is answered by the error for that. Where an
    /// answer finds no memory, it is `OOM after 0`, and the connection stays as it is.
    pub fn answer(
        &mut self,
        alloc: Global,
        profile: &Profile,
        moment: &Moment,
        request: &Request,
    ) -> Option<Reply>
        ensures answers { AnswersItself profile.now moment.now self.old request.now result
            self.new }
        ensures writable { IfSome result (λ reply. IsTrue (is_writable reply)) }
    {
        match answer_words(alloc, self, profile, moment, request.words()) {
            Ok(reply) => reply,
            Err(AllocError) => Some(Refused::NoMemory.reply()),
        }
    }
}

/// The same, with whether memory was refused.
fn answer_words(
    alloc: Global,
    client: &mut ClientState,
    profile: &Profile,
    moment: &Moment,
    words: &[Vec<u8>],
) -> Result<Option<Reply>, AllocError>
    ensures { answered.MayCome
        (answered.answered profile.now moment.now client.old (views words.now))
        (answered.takes_memory (views words.now)) client.old result client.new }
{
    if client.is_over() {
        client.end();
        return Ok(Some(Why::Over.reply()));
    }
    let name = named(words);
    if is_turned_away(client, name) {
        return Ok(Some(Why::Unknown.reply()));
    }
    answer_own(alloc, client, profile, moment, name, words)
}

/// Whether the connection is not known, and this is not for such a one to ask.
fn is_turned_away(client: &ClientState, name: Option<Name>) -> bool
    ensures { result ≡ (not client.now.is_known && not (is_open name)) }
{
    !client.is_known() && !is_open(name)
}

/// The answer of a connection that may ask, where the words name a request that is its own.
fn answer_own(
    alloc: Global,
    client: &mut ClientState,
    profile: &Profile,
    moment: &Moment,
    name: Option<Name>,
    words: &[Vec<u8>],
) -> Result<Option<Reply>, AllocError>
    ensures { answered.MayCome
        (answered.answered_by profile.now moment.now client.old name (views words.now))
        (not (answered.takes_none name)) client.old result client.new }
{
    let Some(name) = name else {
        return Ok(None);
    };
    match words {
        [] => Ok(None),
        [_, others @ ..] => {
            let reply = answer_named(alloc, client, profile, moment, name, others)?;
            Ok(Some(reply))
        }
    }
}

/// The answer to a request of this name, with these words behind it.
fn answer_named(
    alloc: Global,
    client: &mut ClientState,
    profile: &Profile,
    moment: &Moment,
    name: Name,
    words: &[Vec<u8>],
) -> Result<Reply, AllocError>
    ensures comes { Comes (answered.answer_named profile.now moment.now client.old name
        (views words.now)) client.old result client.new }
    ensures memory { OnErr result (IsTrue (not (answered.takes_none (Some name)))) }
{
    match name {
        Name::Auth => Ok(auth(client, profile, words)),
        Name::Hello => hello(alloc, client, profile, words),
        Name::Quit => Ok(quit(client)),
        Name::Reset => Ok(reset(client, profile, words)),
        Name::Select => Ok(select(words)),
        Name::Client => client_request(alloc, client, words),
        Name::Echo => echo(alloc, words),
        Name::Time => time(alloc, moment, words),
        Name::Info => info(alloc, profile, moment, words),
        Name::Config => config(alloc, profile, words),
        Name::Command => Ok(command(alloc, profile, words)),
    }
}

/// QUIT, whatever stands behind it: the connection ends.
fn quit(client: &mut ClientState) -> Reply
    ensures { IsTold (answered.quit client.old) client.new result }
{
    client.end();
    ok_reply()
}

/// RESET, with these words behind it: the connection is as it began, but for the wrong passwords
/// that it has shown.
fn reset(client: &mut ClientState, profile: &Profile, words: &[Vec<u8>]) -> Reply
    ensures { IsTold (answered.reset profile.now.password client.old (views words.now)) client.new
        result }
{
    match words {
        [] => {
            client.begin(profile);
            Reply::Simple("RESET")
        }
        _ => Refused::Words.reply(),
    }
}
