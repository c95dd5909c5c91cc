//! A server of a site that one session alone uses.

ghost use Rattle.std.specs.Prelude.{IfOk, IsTrue, ◌≡◌};
ghost use Rattle.zq_resp.specs.Reply.{is_writable, reply_bytes};
ghost use Rattle.zq_model.specs.Sets.{IsHeaps};
ghost use Rattle.zq_session.specs.Plain.{AreRuledGreatest, RunsCommand, SITE, no_keys};

use crate::serving::Answers;
use std::alloc::{AllocError, Global};
use std::marker::Model;
use zq_commands::{SiteBooks, Stopped, cut_reply, message_reply};
use zq_dots::{Rule, SiteNo};
use zq_journal::Book;
use zq_posheap::Seeded;
use zq_resp::{Reply, Request};
use zq_words::{Command, Kind};

/// A server of a site that one session alone uses: it locks nothing. It keeps what it is given in
/// memory alone. A member's score is the greatest of its additions'.
///
/// Every command but PING runs at the stamp after the greatest of its books', and is answered `-ERR
/// worn after 0` where there is none. It begins all books: a tail of 4,096 records or more is cut
/// to its newest 2,048. ZPOPNEAR takes the first pair of all heaps, as ZPOPMIN does.
#[derive(Drop)]
pub struct Plain {
    pub(crate) books: SiteBooks,
}

impl Model for Plain {
    ghost use Rattle.std.specs.Prelude.{List};
    ghost use Rattle.zq_commands.specs.SiteBooks.{books_code};
    ghost use Rattle.zq_model.specs.Books.{Book};
    ghost use Rattle.zq_session.specs.Plain.{AreRuledGreatest};

    ghost Value = { List Book };

    ghost coded = { books_code };

    ghost view = { λ server. server.books };

    ghost invariant = { λ server. AreRuledGreatest server.books };
}

impl Plain {
    /// A server with no keys over so many heaps, 1 to 16, and `Err` where there was no memory for
    /// their books.
    pub fn new(alloc: Global, heaps: u8) -> Result<Plain, AllocError>
        requires { IsHeaps heaps }
        ensures { IfOk result (λ server. server ≡ no_keys heaps) }
    {
        let books = SiteBooks::new(alloc, heaps, Rule::High, Seeded::new(0))?;
        Ok(Plain { books })
    }

    /// A server of these books, in which the greatest of a member's scores counts.
    pub fn of_books(books: SiteBooks) -> Plain
        requires { AreRuledGreatest books }
        ensures { result ≡ books }
    {
        Plain { books }
    }

    /// The books, by heap.
    pub fn books(&self) -> &[Book]
        ensures { result.now ≡ self.now }
    {
        self.books.books()
    }

    /// The reply to a command, and what it changes.
    fn run(&mut self, alloc: Global, command: &Command) -> Reply
        ensures ran { RunsCommand self.old command.now self.new (reply_bytes result) }
        ensures writable { IsTrue (is_writable result) }
    {
        if let Kind::Ping(message) = command.kind() {
            return message_reply(alloc, *message);
        }
        let stamp = match self.books.next_stamp() {
            Some(stamp) => stamp,
            None => {
                // For the proof: it is in range, and no book's stamp is past it.
                let _last = self.books.stamp();
                return cut_reply(Stopped::Worn, 0);
            }
        };
        self.books.begin(stamp);
        self.books.run(alloc, site(), stamp, command)
    }
}

impl Answers for Plain {
    ghost use Rattle.zq_session.specs.Among.{AnyRequest};
    ghost use Rattle.zq_session.specs.Plain.{AnswersByPlan};

    ghost answers = { AnswersByPlan };

    ghost others = { AnyRequest AnswersByPlan };

    fn answer(&mut self, alloc: Global, request: &Request) -> Reply {
        match Command::read(alloc, request) {
            Ok(command) => self.run(alloc, &command),
            Err(refused) => refused.reply(),
        }
    }
}

/// The site's number.
fn site() -> SiteNo
    ensures { result ≡ SITE }
{
    match SiteNo::new(0) {
        Some(site) => site,
        None => unreachable!(),
    }
}
