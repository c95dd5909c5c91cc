//! Commands over the books that are lent to them.

ghost use Rattle.std.specs.Prelude.{IsTrue, None, false, true, ◌≡◌};
ghost use Rattle.zq_commands.specs.Commands.{HasBooks, IsRunOver, is_reading};
ghost use Rattle.zq_commands.specs.Lending.{IsDated, IsLending, queues_in};
ghost use Rattle.zq_commands.specs.Running.{IsReadAs};
ghost use Rattle.zq_semantics.specs.Plan.{plan_of};
ghost use Rattle.zq_semantics.specs.Replies.{bytes_of};
ghost use Rattle.zq_semantics.specs.Run.{IsRun, popped_of, takes_of};
ghost use Rattle.zq_resp.specs.Reply.{is_writable, reply_bytes};
ghost use Rattle.zq_words.specs.Limits.{IsWithinLimits};
ghost use Rattle.zq_words.specs.Shown.{shown};

use crate::books::Books;
use crate::call::Call;
use crate::del::clear_keys;
use crate::indexing::make_index;
use crate::ran::{Outcome, Ran};
use crate::range_section::from_zero;
use crate::reading::{read_count, read_rank, read_score, read_turned_rank, read_within};
use crate::replies::answer_message;
use crate::zadd::put_pairs;
use crate::zincrby::{raise, raise_if};
use crate::zpopmin::pop;
use crate::zrange::read_range;
use crate::zrem::drop_members;
use std::alloc::Global;
use zq_dots::SiteNo;
use zq_resp::Reply;
use zq_words::{Command, Kind};

/// Runs a command over the books that are lent, as a site and at a stamp that is no less than
/// theirs: it makes what the command plans over their queues, and gives the reply. The heap of each
/// member that the command names is lent. Where a book's number is at its last value, or memory is
/// refused, the moves before stand, and the reply says how many.
pub fn run<B: Books>(
    books: &mut B,
    alloc: Global,
    site: SiteNo,
    stamp: u64,
    command: &Command,
) -> Reply
    requires lent { IsLending (B.lent books.old) }
    requires dated { IsDated stamp (B.lent books.old) }
    requires homes { HasBooks command.now (B.lent books.old) }
    ensures ran { IsRun (B.lent books.old).rule site stamp command.now (B.lent books.old).books
        (B.lent books.new).books (reply_bytes result) }
    ensures rule { (B.lent books.new).rule ≡ (B.lent books.old).rule }
    ensures heaps { (B.lent books.new).heaps ≡ (B.lent books.old).heaps }
    ensures told { IsRunOver site stamp command.now (B.lent books.old) (B.lent books.new)
        (reply_bytes result) true }
    ensures lent { IsLending (B.lent books.new) }
    ensures dated { IsDated stamp (B.lent books.new) }
    ensures keeps { B.keeps books.old books.new }
    ensures writable { IsTrue (is_writable result) }
{
    let kind = command.kind();
    make_index(books, alloc, kind);
    let call = Call { alloc, site, stamp };
    run_kind(books, &call, kind)
}

/// The same, with whether memory was refused. What it made is told in the order of its moves, where
/// the holder of the books keeps a list.
pub fn run_told<B: Books>(
    books: &mut B,
    alloc: Global,
    site: SiteNo,
    stamp: u64,
    command: &Command,
) -> Ran
    requires lent { IsLending (B.lent books.old) }
    requires dated { IsDated stamp (B.lent books.old) }
    requires homes { HasBooks command.now (B.lent books.old) }
    ensures ran { IsRunOver site stamp command.now (B.lent books.old) (B.lent books.new)
        (reply_bytes result.reply) result.is_short }
    ensures lent { IsLending (B.lent books.new) }
    ensures dated { IsDated stamp (B.lent books.new) }
    ensures keeps { B.keeps books.old books.new }
    ensures writable { IsTrue (is_writable result.reply) }
{
    let kind = command.kind();
    make_index(books, alloc, kind);
    let call = Call { alloc, site, stamp };
    run_kind(books, &call, kind)
}

/// The same of what a command asks for. Only a pop is short without an error.
fn run_kind<B: Books, O: Outcome>(books: &mut B, call: &Call, kind: &Kind) -> O
    requires lent { IsLending (B.lent books.old) }
    requires dated { IsDated call.now.stamp (B.lent books.old) }
    requires homes { HasBooks (shown kind.now) (B.lent books.old) }
    requires limits { IsWithinLimits (shown kind.now) }
    ensures ran { IsRunOver call.now.site call.now.stamp (shown kind.now) (B.lent books.old)
        (B.lent books.new) (reply_bytes (O.reply result)) (O.is_short result) }
    ensures lent { IsLending (B.lent books.new) }
    ensures dated { IsDated call.now.stamp (B.lent books.new) }
    ensures keeps { B.keeps books.old books.new }
    ensures writable { IsTrue (is_writable (O.reply result)) }
{
    match kind {
        Kind::Zpopmin { key, count } => {
            let count = from_zero(*count) as u64;
            O::of_ran(pop(books, call, key, count))
        }
        Kind::Zpopnear { key } => O::of_ran(pop(books, call, key, 1)),
        _ => reply_to(books, call, kind),
    }
}

/// The reply to what a command asks for that pops nothing.
#[inline(always)]
fn reply_to<B: Books, O: Outcome>(books: &mut B, call: &Call, kind: &Kind) -> O
    requires lent { IsLending (B.lent books.old) }
    requires dated { IsDated call.now.stamp (B.lent books.old) }
    requires homes { HasBooks (shown kind.now) (B.lent books.old) }
    requires limits { IsWithinLimits (shown kind.now) }
    requires other { popped_of (shown kind.now) ≡ None }
    ensures ran { IsRunOver call.now.site call.now.stamp (shown kind.now) (B.lent books.old)
        (B.lent books.new) (reply_bytes (O.reply result)) (O.is_short result) }
    ensures lent { IsLending (B.lent books.new) }
    ensures dated { IsDated call.now.stamp (B.lent books.new) }
    ensures keeps { B.keeps books.old books.new }
    ensures writable { IsTrue (is_writable (O.reply result)) }
{
    match kind {
        Kind::Zadd { key, pairs, flags } => {
            put_pairs(books, call, key, *flags, pairs.as_slice())
        }
        Kind::ZaddIncr { key, pair, flags } => raise_if(books, call, key, *flags, pair),
        Kind::Zincrby { key, pair } => raise(books, call, key, pair),
        Kind::Zrem { key, members } => drop_members(books, call, key, members),
        Kind::Del { keys } => clear_keys(books, call, keys),
        reading => read(books, call.alloc, reading),
    }
}

/// The reply of a command that makes nothing, and whether memory was refused.
pub fn read_told<B: Books>(books: &B, alloc: Global, command: &Command) -> Ran
    requires lent { IsLending (B.lent books.now) }
    requires homes { HasBooks command.now (B.lent books.now) }
    requires reads { IsTrue (is_reading command.now) }
    ensures read { result.is_short ≡ false →
        reply_bytes result.reply
        ≡ bytes_of (plan_of command.now (queues_in (B.lent books.now))).reply }
    ensures writable { IsTrue (is_writable result.reply) }
{
    read(books, alloc, command.kind())
}

/// The same reply, or an error for want of memory.
fn read<B: Books, O: Outcome>(books: &B, alloc: Global, kind: &Kind) -> O
    requires lent { IsLending (B.lent books.now) }
    requires homes { HasBooks (shown kind.now) (B.lent books.now) }
    requires limits { IsWithinLimits (shown kind.now) }
    requires reads { IsTrue (is_reading (shown kind.now)) }
    ensures read { IsReadAs (takes_of (shown kind.now) (queues_in (B.lent books.now)))
        (plan_of (shown kind.now) (queues_in (B.lent books.now))).reply
        (reply_bytes (O.reply result)) (O.is_short result) }
    ensures writable { IsTrue (is_writable (O.reply result)) }
{
    match kind {
        Kind::Ping(message) => answer_message(alloc, *message),
        Kind::Zscore { key, member } => read_score(books, key, member),
        Kind::Zcard { key } => read_count(books, key),
        Kind::Zcount { key, min, max } => read_within(books, key, min, max),
        Kind::Zrank { key, member } => read_rank(books, key, member),
        Kind::Zrevrank { key, member } => read_turned_rank(books, key, member),
        Kind::Zrange {
            key,
            range,
            is_turned,
            with_scores,
        } => read_range(books, alloc, key, range, *is_turned, *with_scores),
        _ => unreachable!(),
    }
}
