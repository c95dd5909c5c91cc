//! What counts the commands that are answered.

use std::alloc::Global;
use zq_loop::Attends;
use zq_metrics::{Command, WorkerCounters, command_of};
use zq_resp::{Reply, Request};

/// Answers as the answerer inside, and counts each answer by its command, where there are counters:
/// also what a connection answers itself.
#[derive(Drop)]
pub struct Counting<'b, A> {
    pub(crate) answerer: A,
    pub(crate) counters: Option<&'b WorkerCounters>,
}

impl<C, A: Attends<C>> Attends<C> for Counting<'_, A> {
    ghost answers = { λ old own words reply new own_new.
        A.answers old.answerer own words reply new.answerer own_new };

    ghost others = { λ old new. A.others old.answerer new.answerer };

    fn attend(&mut self, own: &mut Option<C>, alloc: Global, request: &Request) -> Reply {
        let reply = self.answerer.attend(own, alloc, request);
        count(self.counters, request.words(), &reply);
        reply
    }

    fn is_over(&self, own: &Option<C>) -> bool {
        self.answerer.is_over(own)
    }

    fn is_stranger(&self, own: &Option<C>) -> bool {
        self.answerer.is_stranger(own)
    }
}

/// Counts an answer, where there are counters.
fn count(counters: Option<&WorkerCounters>, words: &[Vec<u8>], reply: &Reply) {
    if let Some(counters) = counters {
        counters.count(named(words), is_error(reply));
    }
}

/// The command that the first word names.
fn named(words: &[Vec<u8>]) -> Command {
    match words {
        [name, ..] => command_of(name),
        [] => Command::Other,
    }
}

/// Whether a reply is an error.
fn is_error(reply: &Reply) -> bool {
    matches!(reply, Reply::Error { .. })
}
