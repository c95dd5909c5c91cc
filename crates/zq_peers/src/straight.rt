//! Links without faults.
ghost use Rattle.std.specs.Prelude.{◌≡◌, None, slice_get};

use crate::carry::Carry;
use crate::mailbox::{Handed, Mailbox};
use std::alloc::Global;
use std::sync::Wait;
use zq_dots::SiteNo;

/// Carries each frame of a site straight into the mailbox of the site that it goes to. Site N's is
/// at place N; a frame for a site that has none is dropped.
#[derive(Drop)]
pub struct Straight<'a, R: Wait> {
    rt: &'a R,
    from: SiteNo,
    mailboxes: &'a [Mailbox],
    /// The receipt for the last frame, where there was a mailbox for it.
    last: Option<Handed>,
}

impl<'a, R: Wait> Straight<'a, R> {
    /// From this site into these mailboxes.
    pub fn new(rt: &'a R, from: SiteNo, mailboxes: &'a [Mailbox]) -> Straight<'a, R>
        ensures from { result.from ≡ from }
        ensures mailboxes { result.mailboxes.now ≡ mailboxes.now }
        ensures last { result.last ≡ None }
    {
        Straight {
            rt,
            from,
            mailboxes,
            last: None,
        }
    }
}

impl<'a, R: Wait> Carry for Straight<'a, R> {
    ghost use Rattle.zq_peers.specs.Handings.{IsHandedOn};

    ghost carries = { λ old to frame whole new.
        IsHandedOn old.mailboxes.now new.mailboxes.now old.from new.from to frame whole new.last };

    fn carry(&mut self, _alloc: Global, to: SiteNo, frame: Vec<u8>) -> bool {
        match self.mailboxes.get(usize::from(to.value())) {
            Some(mailbox) => {
                let handed = mailbox.give(self.rt, self.from, frame);
                let whole = handed.had_memory();
                self.last = Some(handed);
                whole
            }
            None => {
                self.last = None;
                true
            }
        }
    }
}
