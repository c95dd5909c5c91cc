//! What answers several requests as one.

ghost use Rattle.std.specs.Prelude.{IfErr, IsTrue, option_copied};
ghost use Rattle.zq_journal.specs.Untouched.{keys_of};
ghost use Rattle.zq_resp.specs.Reply.{is_writable};
ghost use Rattle.zq_session.specs.Writable.{AreAllWritable};

use crate::queued::{Queued, Transacted};
use std::alloc::Global;
use zq_resp::{Reply, Request};
use zq_spread::Watched;

/// What answers several requests as one, and says whether keys were changed meanwhile.
pub trait Transacts {
    ghost use Rattle.std.specs.Prelude.{List, Option, Result, ℕ};
    ghost use Rattle.zq_resp.specs.declared.reply.Reply.{Reply as Replies};
    ghost use Rattle.zq_session.specs.declared.queued.Queued.{Queued as Waiting};
    ghost use Rattle.zq_session.specs.declared.queued.Transacted.{Transacted as Ended};
    ghost use Rattle.zq_spread.specs.Watches.{Watch};

    /// The state, a request's words, and what is queued for it, or the reply by which it is refused.
    ghost prepares: { Self → List (List ℕ) → Result Waiting Replies → Type 0 };

    /// The state before, what is queued and what is watched, what came of it, and the state after.
    ghost transacts: { Self → List Waiting → Option Watch → Ended → Self → Type 0 };

    /// The state before, the keys, what is watched from now on or why not, and the state after.
    ghost watches: { Self → List (List ℕ) → Result Watch Replies → Self → Type 0 };

    /// Reads a request that is to be answered with others, later. A reply where it is refused at
    /// once: no request has its name, it does not take its number of words, it is not admitted now,
    /// or there was no memory for it.
    fn prepare(&self, alloc: Global, request: &Request) -> Result<Queued, Reply>
        ensures prepared { prepares self.now request.now result }
        ensures writable { IfErr result (λ reply. IsTrue (is_writable reply)) };

    /// Answers requests as one, where nothing that is watched was changed.
    fn transact(&mut self, alloc: Global, queue: &[Queued], watched: Option<&Watched>) -> Transacted
        ensures transacted { transacts self.old queue.now (option_copied watched.entry) result
            self.new }
        ensures writable { AreAllWritable result };

    /// Watches these keys from now on. A reply where there is no memory, or a lock or the stamp is at
    /// its last value.
    fn watch(&mut self, alloc: Global, keys: Vec<Vec<u8>>) -> Result<Watched, Reply>
        ensures watched { watches self.old (keys_of keys.items) result self.new }
        ensures writable { IfErr result (λ reply. IsTrue (is_writable reply)) };
}
