//! Commands over the books of a site, as a player runs them.

ghost use Rattle.std.specs.Prelude.{IfErr, IfOk, IsTrue, [], length, ◌<◌, ◌∷◌, ◌≡◌, ◌≤◌};
ghost use Rattle.zq_commands.specs.Commands.{HasBooks, is_reading};
ghost use Rattle.zq_commands.specs.Lending.{IsDated, IsLending};
ghost use Rattle.zq_commands.specs.VecBooks.{lending_of, rule_in};
ghost use Rattle.zq_model.specs.Lent.{queues_of};
ghost use Rattle.zq_semantics.specs.Plan.{plan_of};
ghost use Rattle.zq_semantics.specs.Replies.{bytes_of};
ghost use Rattle.zq_resp.specs.Reply.{is_writable, reply_bytes};
ghost use Rattle.zq_words.specs.Command as words;
ghost use Rattle.zq_world.specs.Outcomes.{Ran, RanBy, RanNear};

use crate::faults::PlayFault;
use crate::holder::Holder;
use crate::near::nearest;
use crate::outcome::Outcome;
use std::alloc::{AllocError, Global};
use std::mem;
use zq_commands::{read_told, run_told};
use zq_dots::{Op, Rule, SiteNo};
use zq_journal::Book;
use zq_posheap::Seeded;
use zq_resp::Reply;
use zq_shard::Shard;
use zq_words::{Command, Kind};

/// Runs a command over the books of a site, and lists what it makes: ZPOPNEAR over the one book
/// that it pops by two words, and any other command over all. It fails only where memory is
/// refused.
pub(crate) fn run_by(
    alloc: Global,
    books: Vec<Book>,
    made: Vec<Op>,
    site: SiteNo,
    stamp: u64,
    command: &Command,
    drawn: (u64, u64),
) -> Result<Outcome, PlayFault>
    requires lent { IsLending (lending_of books.items) }
    requires dated { IsDated stamp (lending_of books.items) }
    requires homes { HasBooks command.now (lending_of books.items) }
    requires some { 2 ≤ length books.items }
    requires few { length books.items ≤ 16 }
    ensures memory { IfErr result (λ fault. fault ≡ PlayFault.NoMemory) }
    ensures ran { IfOk result
        (λ left. RanBy site stamp command.now drawn.0 drawn.1 books.items made.items left) }
    ensures writable { IfOk result (λ left. IsTrue (is_writable left.reply)) }
{
    match command.kind() {
        Kind::Zpopnear { key } => run_near(alloc, books, made, site, stamp, command, key, drawn),
        _ => run_over(alloc, books, made, site, stamp, command),
    }
}

/// Runs a command over books, and lists what it makes. It fails only where memory is refused.
fn run_over(
    alloc: Global,
    books: Vec<Book>,
    made: Vec<Op>,
    site: SiteNo,
    stamp: u64,
    command: &Command,
) -> Result<Outcome, PlayFault>
    requires lent { IsLending (lending_of books.items) }
    requires dated { IsDated stamp (lending_of books.items) }
    requires homes { HasBooks command.now (lending_of books.items) }
    ensures memory { IfErr result (λ fault. fault ≡ PlayFault.NoMemory) }
    ensures ran { IfOk result (λ left. Ran site stamp command.now books.items made.items left) }
    ensures writable { IfOk result (λ left. IsTrue (is_writable left.reply)) }
{
    let mut holder = Holder { books, made };
    let ran = run_told(&mut holder, alloc, site, stamp, command);
    if ran.is_short {
        drop(ran);
        drop(holder);
        return Err(PlayFault::NoMemory);
    }
    let Holder { books, made } = holder;
    Ok(Outcome {
        books,
        made,
        reply: ran.reply,
    })
}

/// The reply of a command that only reads, over books.
pub(crate) fn read_over(
    alloc: Global,
    books: &Vec<Book>,
    command: &Command,
) -> Result<Reply, AllocError>
    requires lent { IsLending (lending_of books.now.items) }
    requires homes { HasBooks command.now (lending_of books.now.items) }
    requires reads { IsTrue (is_reading command.now) }
    ensures read { IfOk result (λ reply. reply_bytes reply
        ≡ bytes_of (plan_of command.now
        (queues_of (rule_in books.now.items) books.now.items)).reply) }
    ensures writable { IfOk result (λ reply. IsTrue (is_writable reply)) }
{
    let ran = read_told(books, alloc, command);
    if ran.is_short {
        drop(ran);
        return Err(AllocError);
    }
    Ok(ran.reply)
}

/// Runs ZPOPNEAR over the one book that it pops by two words, in place of all. It fails only where
/// memory is refused.
fn run_near(
    alloc: Global,
    books: Vec<Book>,
    made: Vec<Op>,
    site: SiteNo,
    stamp: u64,
    command: &Command,
    key: &[u8],
    drawn: (u64, u64),
) -> Result<Outcome, PlayFault>
    requires lent { IsLending (lending_of books.items) }
    requires dated { IsDated stamp (lending_of books.items) }
    requires near { command.now ≡ words.Zpopnear key.now }
    requires some { 2 ≤ length books.items }
    requires few { length books.items ≤ 16 }
    ensures memory { IfErr result (λ fault. fault ≡ PlayFault.NoMemory) }
    ensures ran { IfOk result
        (λ left. RanNear site stamp command.now key.now drawn.0 drawn.1 books.items made.items
        left) }
    ensures writable { IfOk result (λ left. IsTrue (is_writable left.reply)) }
{
    let mut books = books;
    let place = nearest(&books, key, drawn.0, drawn.1);
    let mut near = Vec::new(alloc);
    near.reserve(1)?;
    near.push_reserved(mem::replace(&mut books[place], blank(alloc)));
    let mut left = run_over(alloc, near, made, site, stamp, command)?;
    let Some(book) = left.books.pop() else {
        unreachable!();
    };
    books[place] = book;
    Ok(Outcome { books, ..left })
}

/// A book to stand in for one that is lent.
fn blank(alloc: Global) -> Book {
    Book::new(
        alloc,
        Shard::new_ruled(alloc, 0, 1, Rule::High, Seeded::new(0)),
    )
}
