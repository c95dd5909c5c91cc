//! What answers, once it may, and tells of each answer.

ghost use Rattle.std.specs.Prelude.{◌≡◌};

use crate::notifier::Notifier;
use std::alloc::Global;
use std::snapshot::Snapshot;
use zq_resp::{Reply, Request};
use zq_session::{Answers, Queued, Transacted, Transacts};
use zq_spread::Watched;

/// Answers as the answerer inside, once answers are admitted, and tells of each answer once it is
/// made. Whoever waits to be admitted has no lock.
#[derive(Drop)]
pub struct Ticking<A: Answers, T: Notifier> {
    pub(crate) answerer: A,
    pub(crate) notifier: T,
}

impl<A: Answers, T: Notifier> Answers for Ticking<A, T> {
    ghost answers = { λ old words reply new.
        A.answers old.answerer words reply new.answerer × T.tells old.notifier reply new.notifier };

    ghost others = { λ old new. A.others old.answerer new.answerer };

    fn answer(&mut self, alloc: Global, request: &Request) -> Reply {
        self.notifier.admit();
        let reply = self.answerer.answer(alloc, request);
        self.notifier.tell(Snapshot::of(&reply));
        reply
    }
}

impl<A: Answers + Transacts, T: Notifier> Transacts for Ticking<A, T> {
    ghost use Rattle.std.specs.Prelude.{◌≡◌};

    ghost prepares = { λ state words result. A.prepares state.answerer words result };

    ghost transacts = { λ old queue watch result new.
        A.transacts old.answerer queue watch result new.answerer
        × T.tells_all old.notifier result new.notifier };

    ghost watches = { λ old keys result new.
        A.watches old.answerer keys result new.answerer × (new.notifier ≡ old.notifier) };

    fn prepare(&self, alloc: Global, request: &Request) -> Result<Queued, Reply> {
        self.answerer.prepare(alloc, request)
    }

    fn transact(
        &mut self,
        alloc: Global,
        queue: &[Queued],
        watched: Option<&Watched>,
    ) -> Transacted {
        self.notifier.admit();
        let come = self.answerer.transact(alloc, queue, watched);
        self.notifier.tell_all(Snapshot::of(&come));
        come
    }

    fn watch(&mut self, alloc: Global, keys: Vec<Vec<u8>>) -> Result<Watched, Reply> {
        self.notifier.admit();
        self.answerer.watch(alloc, keys)
    }
}
