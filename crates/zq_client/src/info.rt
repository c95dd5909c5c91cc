//! INFO.

ghost use Rattle.std.specs.Prelude.{OnOk, codes, ◌++◌, ◌≡◌};
ghost use Rattle.zq_client.specs.Info as info;
ghost use Rattle.zq_client.specs.Outcomes.{Answers};
ghost use Rattle.zq_words.specs.Words.{views};

use crate::config::has_word;
use crate::moment::Moment;
use crate::profile::Profile;
use crate::texts::bulk_reply;
use itoa::Buffer;
use std::alloc::{AllocError, Global};
use zq_resp::Reply;

/// INFO, with these words behind it: the sections that they name, or all where they name none. Of a
/// section that is none nothing is told.
pub fn info(
    alloc: Global,
    profile: &Profile,
    moment: &Moment,
    words: &[Vec<u8>],
) -> Result<Reply, AllocError>
    ensures { Answers (info.info profile.now.version.now moment.now (views words.now)) result }
{
    let mut text = Vec::new(alloc);
    add_server(&mut text, words, profile.version.as_bytes(), moment)?;
    add_clients(&mut text, words, moment)?;
    add_persistence(&mut text, words)?;
    add_stats(&mut text, words, moment)?;
    add_replication(&mut text, words)?;
    bulk_reply(alloc, &text)
}

/// Whether a section is asked for: by its name, or where all are.
fn is_asked(words: &[Vec<u8>], name: &[u8]) -> bool
    ensures { result ≡ info.is_asked (views words.now) name.now }
{
    words.is_empty() || asks_for_all(words) || has_word(words, name)
}

fn asks_for_all(words: &[Vec<u8>]) -> bool
    ensures { result ≡ info.asks_for_all (views words.now) }
{
    has_word(words, b"default") || has_word(words, b"all") || has_word(words, b"everything")
}

fn add_server(
    text: &mut Vec<u8>,
    words: &[Vec<u8>],
    version: &[u8],
    moment: &Moment,
) -> Result<(), AllocError>
    ensures { OnOk result (text.new.items ≡ info.with_section (views words.now)
        (codes "server") (info.server version.now moment.now) text.old.items) }
{
    if is_asked(words, b"server") {
        put_server(text, version, moment)
    } else {
        Ok(())
    }
}

fn add_clients(text: &mut Vec<u8>, words: &[Vec<u8>], moment: &Moment) -> Result<(), AllocError>
    ensures { OnOk result (text.new.items ≡ info.with_section (views words.now)
        (codes "clients") (info.clients moment.now) text.old.items) }
{
    if is_asked(words, b"clients") {
        put_clients(text, moment)
    } else {
        Ok(())
    }
}

fn add_persistence(text: &mut Vec<u8>, words: &[Vec<u8>]) -> Result<(), AllocError>
    ensures { OnOk result (text.new.items ≡ info.with_section (views words.now)
        (codes "persistence") info.persistence text.old.items) }
{
    if is_asked(words, b"persistence") {
        put_persistence(text)
    } else {
        Ok(())
    }
}

fn add_stats(text: &mut Vec<u8>, words: &[Vec<u8>], moment: &Moment) -> Result<(), AllocError>
    ensures { OnOk result (text.new.items ≡ info.with_section (views words.now)
        (codes "stats") (info.stats moment.now) text.old.items) }
{
    if is_asked(words, b"stats") {
        put_stats(text, moment)
    } else {
        Ok(())
    }
}

fn add_replication(text: &mut Vec<u8>, words: &[Vec<u8>]) -> Result<(), AllocError>
    ensures { OnOk result (text.new.items ≡ info.with_section (views words.now)
        (codes "replication") info.replication text.old.items) }
{
    if is_asked(words, b"replication") {
        put_replication(text)
    } else {
        Ok(())
    }
}

fn put_server(text: &mut Vec<u8>, version: &[u8], moment: &Moment) -> Result<(), AllocError>
    ensures { OnOk result
        (text.new.items ≡ info.behind text.old.items (info.server version.now moment.now)) }
{
    put_gap(text)?;
    put(text, b"# Server\r\nredis_version:7.0.0\r\nzqueue_version:")?;
    put(text, version)?;
    put(text, b"\r\nredis_mode:standalone\r\nuptime_in_seconds:")?;
    put_number(text, moment.uptime)
}

fn put_clients(text: &mut Vec<u8>, moment: &Moment) -> Result<(), AllocError>
    ensures { OnOk result
        (text.new.items ≡ info.behind text.old.items (info.clients moment.now)) }
{
    put_gap(text)?;
    put(text, b"# Clients\r\nconnected_clients:")?;
    put_number(text, moment.clients)?;
    put(text, b"blocked_clients:0\r\n")
}

fn put_persistence(text: &mut Vec<u8>) -> Result<(), AllocError>
    ensures { OnOk result (text.new.items ≡ info.behind text.old.items info.persistence) }
{
    put_gap(text)?;
    put(text, b"# Persistence\r\nloading:0\r\n")
}

fn put_stats(text: &mut Vec<u8>, moment: &Moment) -> Result<(), AllocError>
    ensures { OnOk result
        (text.new.items ≡ info.behind text.old.items (info.stats moment.now)) }
{
    put_gap(text)?;
    put_count(
        text,
        b"# Stats\r\ntotal_connections_received:",
        moment.connections,
    )?;
    put_count(text, b"total_commands_processed:", moment.requests)
}

fn put_replication(text: &mut Vec<u8>) -> Result<(), AllocError>
    ensures { OnOk result (text.new.items ≡ info.behind text.old.items info.replication) }
{
    put_gap(text)?;
    put(
        text,
        b"# Replication\r\nrole:master\r\nconnected_slaves:0\r\n",
    )
}

/// An empty line, where something stands before it.
fn put_gap(text: &mut Vec<u8>) -> Result<(), AllocError>
    ensures { OnOk result (text.new.items ≡ text.old.items ++ info.gap text.old.items) }
{
    if text.is_empty() {
        Ok(())
    } else {
        put(text, b"\r\n")
    }
}

/// What a number is of, and the number.
fn put_count(text: &mut Vec<u8>, label: &[u8], number: u64) -> Result<(), AllocError>
    ensures { OnOk result
        (text.new.items ≡ text.old.items ++ (label.now ++ info.number number)) }
{
    put(text, label)?;
    put_number(text, number)
}

/// A number, and the end of its line.
fn put_number(text: &mut Vec<u8>, number: u64) -> Result<(), AllocError>
    ensures { OnOk result (text.new.items ≡ text.old.items ++ info.number number) }
{
    put(text, Buffer::new().format(number).as_bytes())?;
    put(text, b"\r\n")
}

fn put(text: &mut Vec<u8>, bytes: &[u8]) -> Result<(), AllocError>
    ensures { OnOk result (text.new.items ≡ text.old.items ++ bytes.now) }
{
    text.extend_from_slice(bytes)
}
