//! The loop of the thread that keeps a site on disk.

ghost use Rattle.std.specs.Prelude.{IfErr};
ghost use Rattle.zq_node.specs.Node.{IsNode, IsSameHome};
ghost use Rattle.zq_store.specs.Faults.{HasStopped};

use crate::intake::{Called, Intake};
use crate::kept::Kept;
use crate::switch::Switched;
use crate::writer::Writer;
use std::sync::Wait;
use std::time::Clock;
use zq_keeper::KeeperFault;
use zq_links::Message;
use zq_node::Node;
use zq_peers::{Inbox, Incoming, Mailbox};
use zq_serve::Commits;
use zq_wal::Disk;

/// What else the thread does that keeps a site on disk.
pub trait Beside {
    ghost use Rattle.zq_node.specs.Node.{IsNode, IsSameHome};

    /// Works with the node of the site between two turns.
    fn between(&mut self, node: &mut Node<'_>)
        requires { IsNode node.old }
        ensures node { IsNode node.new }
        ensures home { IsSameHome node.old node.new };

    /// The disk is full, or has room again.
    fn fill(&mut self, is_full: bool);

    /// The log was switched to another file.
    fn tell(&mut self, switched: Switched);

    /// This is on the disk, and was done for that, after a turn.
    fn note(&mut self, kept: &Kept);
}

impl<D: Disk> Writer<D> {
    /// Takes what is made and heard into the logs and onto the disk, turn by turn as the mailbox is
    /// told, until it is told to stop: then all that there is goes onto the disk, and nobody waits
    /// for it any more. While the log is switched one turn follows the other.
    ///
    /// Where the disk is full that is told. What is to be written waits then, and nothing more is
    /// taken out of the heaps than there is room for, until there is room at a later turn.
    ///
    /// `Failed`, `Stopped`: nothing more can be written, and nobody who waits goes on.
    pub fn keep<R: Clock + Wait, P: Called, B: Beside>(
        &mut self,
        rt: &R,
        intake: &Intake<'_, P>,
        commits: &Commits,
        mailbox: &Mailbox,
        beside: &mut B,
        node: &mut Node<'_>,
    ) -> Result<(), KeeperFault>
        requires { IsNode node.old }
        ensures node { IsNode node.new }
        ensures home { IsSameHome node.old node.new }
        ensures fault { IfErr result HasStopped }
    {
        let heaps = intake.logs.heaps();
        beside.note(&self.kept(heaps));
        let mut calls = Incoming::new(rt, mailbox);
        for _ in rt.forever() {
            if let Message::Stop = calls.next() {
                self.finish(rt, intake, commits, node)?;
                commits.close(rt);
                break;
            }
            commits.gather(rt, self.crowd, self.patience);
            if self.look_for_room(rt, intake.alloc)? {
                beside.fill(self.is_full);
            }
            let _ = self.turn(rt, intake, commits, node)?;
            if self.goes_on_at_once() {
                mailbox.tick(rt);
            }
            if let Some(switched) = self.switched.take() {
                beside.tell(switched);
            }
            beside.note(&self.kept(heaps));
            beside.between(node);
        }
        Ok(())
    }

    /// Whether the next turn follows at once: a switch goes on or is about to begin, or the last turn
    /// took not all that was made.
    fn goes_on_at_once(&self) -> bool {
        self.is_short || (self.switch.is_some() || self.spare > 0) && !self.lacks_room()
    }
}
