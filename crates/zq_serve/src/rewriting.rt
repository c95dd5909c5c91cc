//! What answers requests as the commands that they stand for.

ghost use Rattle.std.specs.Prelude.{◌≡◌, ◌⊎◌};
ghost use Rattle.zq_serve.specs.Rewriting.{IsAnsweredAs};

use std::alloc::Global;
use zq_dialect::rewritten;
use zq_resp::{Reply, Request};
use zq_session::{Answers, Queued, Transacted, Transacts, prepare_refused};
use zq_spread::Watched;

/// Answers a request as the answerer inside answers the one that is read in its place: commands by
/// older names, and numbers in other spellings. What is refused there changes nothing, and the
/// answerer inside is not asked. Where nothing is rewritten each request is read as it came.
#[derive(Drop)]
pub struct Rewriting<A: Answers> {
    pub(crate) answerer: A,
    pub(crate) rewrites: bool,
}

impl<A: Answers> Answers for Rewriting<A> {
    ghost answers = { λ old words reply new. (new.rewrites ≡ old.rewrites)
        × IsAnsweredAs A.answers old.rewrites old.answerer words reply new.answerer };

    ghost others = { λ old new.
        A.others old.answerer new.answerer ⊎ (new.answerer ≡ old.answerer) };

    fn answer(&mut self, alloc: Global, request: &Request) -> Reply {
        if !self.rewrites {
            return self.answerer.answer(alloc, request);
        }
        match rewritten(alloc, request) {
            Ok(None) => self.answerer.answer(alloc, request),
            Ok(Some(other)) => self.answerer.answer(alloc, &other),
            Err(refused) => refused.reply(),
        }
    }
}

impl<A: Answers + Transacts> Transacts for Rewriting<A> {
    ghost use Rattle.std.specs.Prelude.{◌≡◌};
    ghost use Rattle.zq_serve.specs.Rewriting.{IsPreparedAs};

    ghost prepares = { λ state words result.
        IsPreparedAs A.prepares state.rewrites state.answerer words result };

    ghost transacts = { λ old queue watch result new. (new.rewrites ≡ old.rewrites)
        × A.transacts old.answerer queue watch result new.answerer };

    ghost watches = { λ old keys result new. (new.rewrites ≡ old.rewrites)
        × A.watches old.answerer keys result new.answerer };

    fn prepare(&self, alloc: Global, request: &Request) -> Result<Queued, Reply> {
        if !self.rewrites {
            return self.answerer.prepare(alloc, request);
        }
        match rewritten(alloc, request) {
            Ok(None) => self.answerer.prepare(alloc, request),
            Ok(Some(other)) => self.answerer.prepare(alloc, &other),
            Err(refused) => prepare_refused(refused),
        }
    }

    fn transact(
        &mut self,
        alloc: Global,
        queue: &[Queued],
        watched: Option<&Watched>,
    ) -> Transacted {
        self.answerer.transact(alloc, queue, watched)
    }

    fn watch(&mut self, alloc: Global, keys: Vec<Vec<u8>>) -> Result<Watched, Reply> {
        self.answerer.watch(alloc, keys)
    }
}
