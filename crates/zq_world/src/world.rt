//! Worlds that were played.

ghost use Rattle.std.specs.Prelude.{IfErr, IfOk, IsErrOf, List, Some, false, length, option_map, slice_get, true, ◌<◌, ◌↔◌, ◌≡◌, ◌≤◌, ℕ};
ghost use Rattle.zq_commands.specs.SiteBooks.{AreOfSite};
ghost use Rattle.zq_model.specs.Books.{Book as history};
ghost use Rattle.zq_commands.specs.VecBooks.{rule_in};
ghost use Rattle.zq_model.specs.Rule.{Rule};
ghost use Rattle.zq_model.specs.Lent.{queues_of};
ghost use Rattle.zq_semantics.specs.Books.{AreBooksOf};
ghost use Rattle.zq_semantics.specs.Reading as reading;
ghost use Rattle.zq_semantics.specs.State.{State};
ghost use Rattle.zq_shard.specs.Taken.{answer_of};
ghost use Rattle.zq_words.specs.Command.{command_of};
ghost use Rattle.zq_world.specs.World.{book_in, reply_to, taken_by};

use crate::answer::Answer;
use crate::faults::AnswerFault;
use crate::question::is_question;
use crate::running::read_over;
use std::alloc::Global;
use std::marker::Model;
use zq_dots::Op;
use zq_journal::Book;
use zq_resp::{Request, write_reply};
use zq_shard::Taken;
use zq_words::{Command, Refused};

/// A world that has played a list of events: what its sites have, which operations they made, and
/// what each event was answered.
#[derive(Drop)]
pub struct World {
    pub(crate) sites: Vec<Vec<Book>>,
    pub(crate) made: Vec<Op>,
    pub(crate) answers: Vec<Answer>,
}

impl Model for World {
    ghost use Rattle.std.specs.Prelude.{Some, Vec, map, slice_get, ℕ, ◌≡◌};
    ghost use Rattle.std.specs.declared.alloc.Global.{Global};
    ghost use Rattle.zq_commands.specs.SiteBooks.{AreOfSite};
    ghost use Rattle.zq_model.specs.Books.{Book};
    ghost use Rattle.zq_world.specs.Play.{answer_in};
    ghost use Rattle.zq_world.specs.World.{Left, left_code};

    ghost Value = { Left };

    ghost coded = { left_code };

    ghost view = { λ w. record { books = map (λ books. books.items) w.sites.items; made = w.made.items; answers = map answer_in w.answers.items } };

    ghost invariant = { λ w. (site : ℕ) (books : Vec Book Global) →
        slice_get w.sites.items site ≡ Some books → AreOfSite books.items };
}

impl World {
    /// The operations that the sites made, the oldest first.
    pub fn operations(&self) -> &[Op]
        ensures { result.now ≡ self.now.made }
    {
        &self.made
    }

    /// The bytes that the event at this place was answered. `None` where it asked no request, and
    /// past the last event.
    pub fn reply(&self, event: usize) -> Option<&[u8]>
        ensures { option_map (λ reply. reply.now) result
            ≡ reply_to (slice_get self.now.answers event) }
    {
        match self.answers.get(event) {
            Some(Answer::Replied(reply)) => Some(reply),
            _ => None,
        }
    }

    /// What became of the operation that the event at this place handed over. `None` where it
    /// handed none over, where a number that its site needs was at its last value, and past the
    /// last event.
    pub fn taken(&self, event: usize) -> Option<Taken>
        ensures { option_map answer_of result ≡ taken_by (slice_get self.now.answers event) }
    {
        match self.answers.get(event) {
            Some(Answer::Handed(taken)) => *taken,
            _ => None,
        }
    }

    /// The book of a heap of a site, and `None` where there is none.
    pub fn book(&self, site: u8, heap: u8) -> Option<&Book>
        ensures { option_map (λ book. book.now) result ≡ book_in self.now.books site heap }
    {
        self.sites.get(site as usize)?.get(heap as usize)
    }

    /// The bytes that a site answers to a request that only reads, a refused one too.
    ///
    /// `NoSuch` where there is no such site, else `NotReading` where the first word names none of
    /// ZSCORE, ZCARD, ZCOUNT, ZRANK, ZREVRANK and ZRANGE, else `NoMemory` where memory was refused.
    pub fn answer(&self, alloc: Global, site: u8, request: &Request) -> Result<Vec<u8>, AnswerFault>
        ensures no_such { IsErrOf result AnswerFault.NoSuch ↔ (length self.now.books ≤ site) }
        ensures not_reading { IsErrOf result AnswerFault.NotReading
            ↔ ((site < length self.now.books) × (reading.is_question request.now ≡ false)) }
        ensures answer { IfOk result
            (λ bytes. (books : List history) (rule : Rule) (K : ℕ) (st : State) →
            slice_get self.now.books site ≡ Some books →
            AreBooksOf rule K st site books →
            bytes.items ≡ reading.answer_of rule K (st.sets site) request.now) }
    {
        let Some(books) = self.sites.get(site as usize) else {
            return Err(AnswerFault::NoSuch);
        };
        if !is_question(request.words()) {
            return Err(AnswerFault::NotReading);
        }
        answer_over(alloc, books, request)
    }
}

/// The bytes that books answer to a request that only reads.
fn answer_over(alloc: Global, books: &Vec<Book>, request: &Request) -> Result<Vec<u8>, AnswerFault>
    requires site { AreOfSite books.now.items }
    requires question { reading.is_question request.now ≡ true }
    ensures memory { IfErr result (λ fault. fault ≡ AnswerFault.NoMemory) }
    ensures answer { IfOk result
        (λ bytes. bytes.items ≡ reading.answer_over
        (queues_of (rule_in books.now.items) books.now.items) (command_of request.now)) }
{
    let reply = match Command::read(alloc, request) {
        Ok(command) => read_over(alloc, books, &command)?,
        Err(Refused::NoMemory) => return Err(AnswerFault::NoMemory),
        Err(refused) => refused.reply(),
    };
    let mut bytes = Vec::new(alloc);
    write_reply(&mut bytes, &reply)?;
    Ok(bytes)
}
