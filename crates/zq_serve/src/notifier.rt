//! What is told of answers.

ghost use Rattle.std.specs.Prelude.{option_copied, ◌≡◌};

use crate::gate::Gate;
use std::snapshot::Snapshot;
use std::sync::Wait;
use std::time::Clock;
use zq_peers::Mailbox;
use zq_resp::Reply;
use zq_session::Transacted;

/// What is told of answers.
pub trait Notifier {
    ghost use Rattle.zq_resp.specs.declared.reply.Reply.{Reply as Answer};
    ghost use Rattle.zq_session.specs.declared.queued.Transacted.{Transacted as Ended};

    /// What stands before, the answer, and what stands after.
    ghost tells: { Self → Answer → Self → Type 0 };

    /// The same of what came of requests that were answered as one.
    ghost tells_all: { Self → Ended → Self → Type 0 };

    /// An answer is to be made. It waits where answers have to.
    fn admit(&self);

    /// An answer was made. Only proofs see it, so that it was made before, and all answers are told
    /// of alike.
    fn tell(&mut self, answer: Snapshot<Reply>)
        ensures { tells self.old answer.value self.new };

    /// Requests were answered as one. Only proofs see what came of them, so that they were before.
    fn tell_all(&mut self, come: Snapshot<Transacted>)
        ensures { tells_all self.old come.value self.new };
}

/// Tells the link thread of a site, by a Tick in its mailbox, where there is one. Before an answer
/// it waits at the gate before the site's calls, where there is one.
#[derive(Drop)]
pub struct Ticks<'a, R: Wait + Clock> {
    rt: &'a R,
    mailbox: Option<&'a Mailbox>,
    gate: Option<&'a Gate>,
}

impl<'a, R: Wait + Clock> Ticks<'a, R> {
    /// To this mailbox, and behind this gate.
    pub fn new(rt: &'a R, mailbox: Option<&'a Mailbox>, gate: Option<&'a Gate>) -> Ticks<'a, R>
        ensures { option_copied result.mailbox ≡ option_copied mailbox.entry }
    {
        Ticks { rt, mailbox, gate }
    }
}

impl<R: Wait + Clock> Notifier for Ticks<'_, R> {
    ghost use Rattle.std.specs.Prelude.{option_copied, ◌≡◌};

    ghost tells = { λ old answer new. option_copied new.mailbox ≡ option_copied old.mailbox };

    ghost tells_all = { λ old come new. option_copied new.mailbox ≡ option_copied old.mailbox };

    fn admit(&self) {
        if let Some(gate) = self.gate {
            gate.wait(self.rt);
        }
    }

    fn tell(&mut self, _answer: Snapshot<Reply>) {
        if let Some(mailbox) = self.mailbox {
            mailbox.tick(self.rt);
        }
    }

    fn tell_all(&mut self, _come: Snapshot<Transacted>) {
        if let Some(mailbox) = self.mailbox {
            mailbox.tick(self.rt);
        }
    }
}
