//! HELLO.

ghost use Rattle.std.specs.Prelude.{IfOk, ◌≡◌};
ghost use Rattle.zq_client.specs.Hello as hello;
ghost use Rattle.zq_client.specs.OptionsRead.{shown};
ghost use Rattle.zq_client.specs.Outcomes.{Comes, IsReply};
ghost use Rattle.zq_words.specs.Words.{views};

use crate::auth::{is_right, refuse};
use crate::client::is_name;
use crate::client_state::ClientState;
use crate::number::parse_whole;
use crate::options::{Options, read_options};
use crate::profile::Profile;
use crate::texts::{array_reply, bulk_reply, push_pair, push_texts};
use crate::why::Why;
use std::alloc::{AllocError, Global};
use zq_resp::Reply;

/// HELLO, with these words behind it: nothing, or the version 2 of the protocol and options.
pub fn hello(
    alloc: Global,
    client: &mut ClientState,
    profile: &Profile,
    words: &[Vec<u8>],
) -> Result<Reply, AllocError>
    ensures { Comes (hello.hello profile.now client.old (views words.now)) client.old result
        client.new }
{
    match words {
        [] => greet(alloc, client, profile, None),
        [version, options @ ..] => match parse_whole(version) {
            None => Ok(Why::Version.reply()),
            Some(2) => hello_options(alloc, client, profile, options),
            Some(_) => Ok(Why::Protocol.reply()),
        },
    }
}

/// The options behind the version.
fn hello_options(
    alloc: Global,
    client: &mut ClientState,
    profile: &Profile,
    words: &[Vec<u8>],
) -> Result<Reply, AllocError>
    ensures { Comes (hello.hello_options profile.now client.old (views words.now)) client.old
        result client.new }
{
    match read_options(words) {
        None => Ok(Why::Hello.reply()),
        Some(options) => enter(alloc, client, profile, &options),
    }
}

/// A connection that shows a password enters by it, and each is greeted.
fn enter(
    alloc: Global,
    client: &mut ClientState,
    profile: &Profile,
    options: &Options<'_>,
) -> Result<Reply, AllocError>
    ensures { Comes (hello.entered profile.now client.old (shown options.now)) client.old result
        client.new }
{
    match options.entry {
        None => greet(alloc, client, profile, options.name),
        Some((user, password)) => {
            if is_right(&profile.password, user, password) {
                welcome(alloc, client, profile, options.name)
            } else {
                Ok(refuse(client, profile))
            }
        }
    }
}

/// A connection that is known is welcome.
fn greet(
    alloc: Global,
    client: &mut ClientState,
    profile: &Profile,
    name: Option<&[u8]>,
) -> Result<Reply, AllocError>
    ensures { Comes (hello.greet profile.now client.old (hello.lent_name name.entry)) client.old
        result client.new }
{
    if client.is_known() {
        welcome(alloc, client, profile, name)
    } else {
        Ok(Why::UnknownHello.reply())
    }
}

/// A connection is known now, has this name, if there is one, and is told of the server. One whose
/// name is none is known, and is told that alone.
fn welcome(
    alloc: Global,
    client: &mut ClientState,
    profile: &Profile,
    name: Option<&[u8]>,
) -> Result<Reply, AllocError>
    ensures { Comes (hello.welcome profile.now client.old (hello.lent_name name.entry)) client.old
        result client.new }
{
    let Some(name) = name else {
        let reply = server_reply(alloc, client.number(), profile)?;
        client.know();
        return Ok(reply);
    };
    if !is_name(name) {
        client.know();
        return Ok(Why::Name.reply());
    }
    let reply = server_reply(alloc, client.number(), profile)?;
    let name = Vec::from_slice(alloc, name)?;
    client.know();
    client.call(name);
    Ok(reply)
}

/// The fourteen parts that tell of the server.
fn server_reply(alloc: Global, number: i64, profile: &Profile) -> Result<Reply, AllocError>
    ensures { IfOk result (IsReply (hello.server_bytes profile.now.version.now number)) }
{
    let mut parts = Vec::new(alloc);
    push_texts(alloc, &mut parts, b"server", b"zqueue")?;
    push_texts(alloc, &mut parts, b"version", profile.version.as_bytes())?;
    push_pair(alloc, &mut parts, b"proto", Reply::Integer(2))?;
    push_pair(alloc, &mut parts, b"id", Reply::Integer(number))?;
    push_texts(alloc, &mut parts, b"mode", b"standalone")?;
    push_texts(alloc, &mut parts, b"role", b"master")?;
    push_pair(alloc, &mut parts, b"modules", array_reply(Vec::new(alloc)))?;
    Ok(array_reply(parts))
}
