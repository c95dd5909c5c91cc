//! SELECT, ECHO, TIME and COMMAND.

ghost use Rattle.std.specs.Prelude.{◌≡◌};
ghost use Rattle.zq_client.specs.Asked as asked;
ghost use Rattle.zq_client.specs.Outcomes.{Answers, IsReply};
ghost use Rattle.zq_words.specs.Words.{views};

use crate::moment::Moment;
use crate::name::is_word;
use crate::number::parse_whole;
use crate::profile::Profile;
use crate::texts::{array_reply, bulk_reply, digits_reply, ok_reply, push_part};
use crate::why::Why;
use std::alloc::{AllocError, Global};
use zq_resp::Reply;
use zq_words::Refused;

/// Millionths of a second in a second.
const SECOND: u64 = 1_000_000;

/// SELECT, with these words behind it. There is one database.
pub fn select(words: &[Vec<u8>]) -> Reply
    ensures { IsReply (asked.select (views words.now)) result }
{
    match words {
        [index] => match parse_whole(index) {
            None => Refused::Whole.reply(),
            Some(0) => ok_reply(),
            Some(_) => Why::Index.reply(),
        },
        _ => Refused::Words.reply(),
    }
}

/// ECHO, with these words behind it.
pub fn echo(alloc: Global, words: &[Vec<u8>]) -> Result<Reply, AllocError>
    ensures { Answers (asked.echo (views words.now)) result }
{
    match words {
        [message] => bulk_reply(alloc, message),
        _ => Ok(Refused::Words.reply()),
    }
}

/// TIME, with these words behind it.
pub fn time(alloc: Global, moment: &Moment, words: &[Vec<u8>]) -> Result<Reply, AllocError>
    ensures { Answers (asked.time moment.now.time (views words.now)) result }
{
    match words {
        [] => clock_reply(alloc, moment.time),
        _ => Ok(Refused::Words.reply()),
    }
}

/// Seconds, and microseconds of the next one.
fn clock_reply(alloc: Global, time: u64) -> Result<Reply, AllocError>
    ensures { Answers (asked.clock time) result }
{
    let mut parts = Vec::new(alloc);
    push_part(&mut parts, digits_reply(time / SECOND))?;
    push_part(&mut parts, digits_reply(time % SECOND))?;
    Ok(array_reply(parts))
}

/// COMMAND, with these words behind it: how many commands there are, and that nothing is told of
/// them.
pub fn command(alloc: Global, profile: &Profile, words: &[Vec<u8>]) -> Reply
    ensures { IsReply (asked.command profile.now.commands (views words.now)) result }
{
    match words {
        [part, others @ ..] if is_word(part, b"COUNT") => count(profile, others),
        [part, ..] if is_word(part, b"DOCS") => array_reply(Vec::new(alloc)),
        _ => Why::Subcommand.reply(),
    }
}

/// COMMAND COUNT, with these words behind it.
fn count(profile: &Profile, words: &[Vec<u8>]) -> Reply
    ensures { IsReply (asked.count profile.now.commands (views words.now)) result }
{
    match words {
        [] => Reply::Integer(i64::from(profile.commands)),
        _ => Refused::Words.reply(),
    }
}
