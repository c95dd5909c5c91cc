//! Where a link thread takes its messages from.
ghost use Rattle.std.specs.Prelude.{◌≡◌, None};

use crate::mailbox::Mailbox;
use crate::tray::Taken;
use std::sync::Wait;
use zq_links::Message;

/// Where a link thread takes its messages from.
pub trait Inbox {
    ghost use Rattle.zq_links.specs.declared.message.Message.{Message as Given};

    /// The state before, the message, and the state after.
    ghost gives: { Self → Given → Self → Type 0 };

    /// The next message.
    fn next(&mut self) -> Message
        ensures { gives self.old result self.new };
}

/// Takes what comes to a mailbox, and waits for it.
#[derive(Drop)]
pub struct Incoming<'a, R: Wait> {
    rt: &'a R,
    mailbox: &'a Mailbox,
    /// The receipt for the last message, where one was taken.
    last: Option<Taken>,
}

impl<'a, R: Wait> Incoming<'a, R> {
    /// From this mailbox.
    pub fn new(rt: &'a R, mailbox: &'a Mailbox) -> Incoming<'a, R>
        ensures mailbox { result.mailbox.now ≡ mailbox.now }
        ensures last { result.last ≡ None }
    {
        Incoming {
            rt,
            mailbox,
            last: None,
        }
    }
}

impl<'a, R: Wait> Inbox for Incoming<'a, R> {
    ghost use Rattle.zq_peers.specs.Fetched.{IsFetched};

    ghost gives = { λ old message new. IsFetched old.mailbox.now new.mailbox.now message new.last };

    fn next(&mut self) -> Message {
        let (message, taken) = self.mailbox.take(self.rt);
        self.last = Some(taken);
        message
    }
}
