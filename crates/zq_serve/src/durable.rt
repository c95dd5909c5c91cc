//! What stands before what leaves a site that keeps a log.

use crate::commits::Commits;
use std::sync::Wait;
use zq_peers::Mailbox;

/// What stands before what leaves a site that keeps a log on disk: replies and frames.
#[derive(Clone, Copy)]
pub struct Durable<'a> {
    pub commits: &'a Commits,
    /// Where the thread is told that writes the log.
    pub mailbox: &'a Mailbox,
    /// Whether replies wait until what they tell of is on the disk.
    pub replies_wait: bool,
}

impl Durable<'_> {
    /// Waits until all that was made by now is on the disk, and says whether it is: it is not where
    /// the site ends. It does not return where the disk failed.
    pub fn confirm<R: Wait>(&self, rt: &R) -> bool {
        let ticket = self.commits.ask(rt);
        self.mailbox.tick(rt);
        self.commits.wait(rt, ticket)
    }

    /// The same before replies, where they wait; else it does not return where the disk failed, and
    /// waits for nothing. While the disk is full a reply waits for what the site itself made alone:
    /// what peers sent, of which it may tell too, they have.
    pub fn settle<R: Wait>(&self, rt: &R) {
        if self.replies_wait {
            let ticket = self.commits.ask(rt);
            self.mailbox.tick(rt);
            let _ = self.commits.wait_own(rt, ticket);
        } else {
            self.commits.hold(rt);
        }
    }
}
