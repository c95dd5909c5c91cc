//! CONFIG GET.

ghost use Rattle.std.specs.Prelude.{IsTrue, OnOk, map, ◌++◌, ◌≡◌};
ghost use Rattle.zq_client.specs.Config as config;
ghost use Rattle.zq_client.specs.Outcomes.{Answers};
ghost use Rattle.zq_client.specs.Texts.{are_writable};
ghost use Rattle.zq_resp.specs.Reply.{is_writable, reply_bytes};
ghost use Rattle.zq_words.specs.Words.{has, views};

use crate::name::is_word;
use crate::profile::Profile;
use crate::texts::{array_reply, bulk_reply, digits_reply, push_pair};
use crate::why::Why;
use std::alloc::{AllocError, Global};
use zq_resp::Reply;
use zq_words::Refused;

/// CONFIG, with these words behind it: GET and names. Of a name that is none nothing is told.
pub fn config(alloc: Global, profile: &Profile, words: &[Vec<u8>]) -> Result<Reply, AllocError>
    ensures { Answers (config.config profile.now (views words.now)) result }
{
    match words {
        [] => Ok(Refused::Words.reply()),
        [part, names @ ..] if is_word(part, b"GET") && !names.is_empty() => {
            get(alloc, profile, names)
        }
        _ => Ok(Why::Subcommand.reply()),
    }
}

/// The parameters that are named, in the order of their names, each with its value behind it.
fn get(alloc: Global, profile: &Profile, names: &[Vec<u8>]) -> Result<Reply, AllocError>
    ensures { Answers (config.get profile.now (views names.now)) result }
{
    let mut parts = Vec::new(alloc);
    push_asked(
        alloc,
        &mut parts,
        names,
        b"appendonly",
        bulk_reply(alloc, b"no")?,
    )?;
    push_asked(alloc, &mut parts, names, b"databases", digits_reply(1))?;
    push_asked(
        alloc,
        &mut parts,
        names,
        b"maxmemory",
        digits_reply(profile.max_memory),
    )?;
    push_asked(alloc, &mut parts, names, b"save", bulk_reply(alloc, b"")?)?;
    push_asked(
        alloc,
        &mut parts,
        names,
        b"timeout",
        digits_reply(profile.timeout),
    )?;
    Ok(array_reply(parts))
}

/// Puts a parameter and its value behind the parts, where it is named.
fn push_asked(
    alloc: Global,
    parts: &mut Vec<Reply>,
    names: &[Vec<u8>],
    name: &[u8],
    value: Reply,
) -> Result<(), AllocError>
    requires { IsTrue (is_writable value) }
    ensures parts { OnOk result (map reply_bytes parts.new.items ≡ map reply_bytes parts.old.items
        ++ config.asked (views names.now) name.now (reply_bytes value)) }
    ensures writable { IsTrue (are_writable parts.old.items) →
        IsTrue (are_writable parts.new.items) }
{
    if has_word(names, name) || has_word(names, b"*") {
        push_pair(alloc, parts, name, value)
    } else {
        Ok(())
    }
}

/// Whether one of the words is this one, in any ASCII case.
pub fn has_word(words: &[Vec<u8>], name: &[u8]) -> bool
    ensures { result ≡ has name.now (views words.now) }
{
    let mut rest = words;
    while let [first, others @ ..] = rest {
        if is_word(first, name) {
            return true;
        }
        rest = others;
    }
    false
}
