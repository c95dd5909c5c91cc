//! A link thread.
ghost use Rattle.std.specs.Prelude.{◌↔◌, ◌∷◌, IsTrue, List};
ghost use Rattle.zq_links.specs.declared.message.Message.{Message as Messages};
ghost use Rattle.zq_links.specs.declared.message.Message.TheVariants.{Stop};
ghost use Rattle.zq_node.specs.Node.{IsNode, IsSameHome};
ghost use Rattle.zq_peers.specs.Carried.{IsSent};
ghost use Rattle.zq_peers.specs.Moves.{AreMoves, AreTaken, GoesOn, IsMove, end_of};

use crate::carry::Carry;
use crate::inbox::Inbox;
use crate::link::{hear, tell};
use crate::sending::Sends;
use crate::witness::{Witness, report};
use std::alloc::Global;
use std::sync::Wait;
use zq_dots::SiteNo;
use zq_links::Message;
use zq_node::Node;
use zq_posheap::Seeded;

/// A site's end of the links.
#[derive(Drop)]
pub struct Link {
    /// The other sites.
    pub others: Vec<SiteNo>,
    /// By what states lie that are heard.
    pub hasher: Seeded,
}

impl Link {
    /// Takes messages from the inbox, one after the other, up to the first Stop, and does what each
    /// asks for. At a Tick it tells the other sites what this one has; a frame it hears, and sends
    /// what comes of it. What fails is dropped as if it had been lost; of each frame that was not
    /// heard the witness is told.
    pub fn attend<R: Wait, I: Inbox, C: Carry, T: Witness>(
        &self,
        rt: &R,
        alloc: Global,
        inbox: &mut I,
        node: &mut Node<'_>,
        carrier: &mut C,
        witness: &mut T,
    )
        requires node { IsNode node.old }
        ensures node { IsNode node.new }
        ensures home { IsSameHome node.old node.new }
        ensures moves { (messages : List Messages)
            × AreTaken I.gives inbox.old inbox.new (Stop ∷ messages)
            × AreMoves (IsSent C.carries) T.tells self.now.others.items
            (end_of node.old carrier.old witness.old)
            (end_of node.new carrier.new witness.new) messages }
    {
        self.work(rt, alloc, inbox, node, carrier, witness);
    }

    /// The same, over what sends frames.
    fn work<R: Wait, I: Inbox, S: Sends, T: Witness>(
        &self,
        rt: &R,
        alloc: Global,
        inbox: &mut I,
        node: &mut Node<'_>,
        sender: &mut S,
        witness: &mut T,
    )
        requires node { IsNode node.old }
        ensures node { IsNode node.new }
        ensures home { IsSameHome node.old node.new }
        ensures moves { (messages : List Messages)
            × AreTaken I.gives inbox.old inbox.new (Stop ∷ messages)
            × AreMoves S.sends T.tells self.now.others.items
            (end_of node.old sender.old witness.old)
            (end_of node.new sender.new witness.new) messages }
    {
        for _ in rt.forever() {
            let message = inbox.next();
            if !self.answer(rt, alloc, message, node, sender, witness) {
                break;
            }
        }
    }

    /// Does what the message asks for, and says whether more may come: after Stop nothing does.
    fn answer<R: Wait, S: Sends, T: Witness>(
        &self,
        rt: &R,
        alloc: Global,
        message: Message,
        node: &mut Node<'_>,
        sender: &mut S,
        witness: &mut T,
    ) -> bool
        requires node { IsNode node.old }
        ensures node { IsNode node.new }
        ensures home { IsSameHome node.old node.new }
        ensures goes_on { IsTrue result ↔ GoesOn message }
        ensures moved { IsMove S.sends T.tells self.now.others.items
            (end_of node.old sender.old witness.old)
            (end_of node.new sender.new witness.new) message }
    {
        match message {
            Message::Tick => {
                drop(tell(rt, alloc, &self.others, node, sender));
                true
            }
            Message::Frame { from, bytes } => {
                let heard = hear(rt, alloc, self.hasher, node, sender, &bytes);
                report(witness, from, heard);
                true
            }
            Message::Stop => false,
        }
    }
}
