//! CLIENT.

ghost use Rattle.std.specs.Char.{is_ascii_graphic};
ghost use Rattle.std.specs.List.{list_all};
ghost use Rattle.std.specs.Prelude.{◌≡◌};
ghost use Rattle.zq_client.specs.Asked as asked;
ghost use Rattle.zq_client.specs.Outcomes.{Comes};
ghost use Rattle.zq_client.specs.Texts as texts;
ghost use Rattle.zq_words.specs.Words.{views};

use crate::client_state::ClientState;
use crate::name::{Part, find_part};
use crate::texts::{bulk_reply, ok_reply};
use crate::why::Why;
use std::alloc::{AllocError, Global};
use zq_resp::Reply;
use zq_words::Refused;

/// The most bytes of a name.
const LONGEST_NAME: usize = 256;

/// CLIENT, with these words behind it.
pub fn client_request(
    alloc: Global,
    client: &mut ClientState,
    words: &[Vec<u8>],
) -> Result<Reply, AllocError>
    ensures { Comes (asked.client client.old (views words.now)) client.old result client.new }
{
    match words {
        [] => Ok(Refused::Words.reply()),
        [part, others @ ..] => match find_part(part) {
            None => Ok(Why::Subcommand.reply()),
            Some(part) => client_part(alloc, client, part, others),
        },
    }
}

fn client_part(
    alloc: Global,
    client: &mut ClientState,
    part: Part,
    words: &[Vec<u8>],
) -> Result<Reply, AllocError>
    ensures { Comes (asked.client_part client.old part (views words.now)) client.old result
        client.new }
{
    match (part, words) {
        (Part::Id, []) => Ok(Reply::Integer(client.number())),
        (Part::GetName, []) => name_reply(alloc, client),
        (Part::SetName, [name]) => set_name(alloc, client, name),
        (Part::SetInfo, [_, _]) => Ok(ok_reply()),
        _ => Ok(Refused::Words.reply()),
    }
}

/// The name of the connection, and the null bulk where it has none.
fn name_reply(alloc: Global, client: &mut ClientState) -> Result<Reply, AllocError>
    ensures { Comes (asked.get_name client.old) client.old result client.new }
{
    if client.name().is_empty() {
        Ok(Reply::NullBulk)
    } else {
        bulk_reply(alloc, client.name())
    }
}

/// Gives the connection a name; an empty one takes it away.
fn set_name(alloc: Global, client: &mut ClientState, name: &[u8]) -> Result<Reply, AllocError>
    ensures { Comes (asked.set_name client.old name.now) client.old result client.new }
{
    if !is_name(name) {
        return Ok(Why::Name.reply());
    }
    let name = Vec::from_slice(alloc, name)?;
    client.call(name);
    Ok(ok_reply())
}

/// Whether this may be the name of a connection: at most 256 bytes of ASCII, each of which can be
/// seen.
pub fn is_name(name: &[u8]) -> bool
    ensures { result ≡ texts.is_name name.now }
{
    name.len() <= LONGEST_NAME && are_graphic(name)
}

fn are_graphic(name: &[u8]) -> bool
    ensures { result ≡ list_all is_ascii_graphic name.now }
{
    name.iter().all(|byte| byte.is_ascii_graphic())
}
