//! Sites that are asked a request.

ghost use Rattle.std.specs.Prelude.{IfErr, IfOk, IsTrue, OnOk, length, ◌<◌, ◌≡◌};
ghost use Rattle.zq_resp.specs.Reply.{is_writable, reply_bytes};
ghost use Rattle.zq_semantics.specs.Doing.{done, done_command, queues_for};
ghost use Rattle.zq_semantics.specs.Events as runs;
ghost use Rattle.zq_words.specs.Command.{command_of};
ghost use Rattle.zq_world.specs.Play.{Holds, IsDone, Played, after, run_of};

use crate::answer::Answer;
use crate::faults::PlayFault;
use crate::outcome::Outcome;
use crate::player::Player;
use crate::running::{read_over, run_by};
use crate::stamps::{greatest_stamp, look_at};
use std::alloc::Global;
use std::mem;
use zq_commands::{Stopped, cut_reply};
use zq_dots::SiteNo;
use zq_journal::LAST_COUNT;
use zq_resp::{Reply, Request, write_reply};
use zq_words::{Command, Kind, Refused};

/// Asks a site a request, with two words drawn for it. It fails only where memory is refused.
pub(crate) fn ask(
    alloc: Global,
    player: &mut Player,
    site: u8,
    request: &Request,
    words: (u64, u64),
) -> Result<(), PlayFault>
    requires held { (played : Played) × Holds played player.old }
    requires inside { site < length player.old.sites.items }
    ensures memory { IfErr result (λ fault. fault ≡ PlayFault.NoMemory) }
    ensures held { OnOk result ((played : Played) → Holds played player.old →
        Holds (after played (runs.Do site request.now words.0 words.1)) player.new) }
{
    // For the proof: the words are those of a request.
    let _words = request.words();
    let reply = reply_to(alloc, player, site, request, words)?;
    let mut bytes = Vec::new(alloc);
    write_reply(&mut bytes, &reply)?;
    player.answers.reserve(1)?;
    player.answers.push_reserved(Answer::Replied(bytes));
    Ok(())
}

/// Does what a request asks of a site, and gives the reply.
fn reply_to(
    alloc: Global,
    player: &mut Player,
    site: u8,
    request: &Request,
    words: (u64, u64),
) -> Result<Reply, PlayFault>
    requires held { (played : Played) × Holds played player.old }
    requires inside { site < length player.old.sites.items }
    ensures memory { IfErr result (λ fault. fault ≡ PlayFault.NoMemory) }
    ensures done { IfOk result (λ reply. (played : Played) → Holds played player.old →
        IsDone played (done played.rule played.heaps site words.0 words.1 (run_of played).now
        (command_of request.now)) player.new reply) }
    ensures answers { OnOk result (player.new.answers.items ≡ player.old.answers.items) }
    ensures writable { IfOk result (λ reply. IsTrue (is_writable reply)) }
{
    match Command::read(alloc, request) {
        Ok(command) => do_command(alloc, player, site, &command, words),
        Err(Refused::NoMemory) => Err(PlayFault::NoMemory),
        Err(refused) => Ok(refused.reply()),
    }
}

/// Does a command at a site.
fn do_command(
    alloc: Global,
    player: &mut Player,
    site: u8,
    command: &Command,
    words: (u64, u64),
) -> Result<Reply, PlayFault>
    requires held { (played : Played) × Holds played player.old }
    requires inside { site < length player.old.sites.items }
    ensures memory { IfErr result (λ fault. fault ≡ PlayFault.NoMemory) }
    ensures done { IfOk result (λ reply. (played : Played) → Holds played player.old →
        IsDone played (done_command played.rule played.heaps site words.0 words.1
        (run_of played).now command.now
        (queues_for played.rule played.heaps
        ((run_of played).now.sets site) words.0 words.1 command.now)) player.new reply) }
    ensures answers { OnOk result (player.new.answers.items ≡ player.old.answers.items) }
    ensures writable { IfOk result (λ reply. IsTrue (is_writable reply)) }
{
    let place = site as usize;
    if let Kind::Ping(_) = command.kind() {
        return Ok(read_over(alloc, &player.sites[place], command)?);
    }
    let stamp = greatest_stamp(&player.sites[place]);
    if stamp == LAST_COUNT {
        return Ok(cut_reply(Stopped::Worn, 0));
    }
    let Some(site) = SiteNo::new(site) else {
        unreachable!();
    };
    let books = mem::replace(&mut player.sites[place], Vec::new(alloc));
    let made = mem::replace(&mut player.made, Vec::new(alloc));
    let left = run_by(alloc, books, made, site, stamp + 1, command, words)?;
    look_at(&left.books);
    let Outcome { books, made, reply } = left;
    player.sites[place] = books;
    player.made = made;
    Ok(reply)
}
