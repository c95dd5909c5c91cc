//! What links a site to the others.

ghost use Rattle.std.specs.Prelude.{◌≡◌};
ghost use Rattle.zq_serve.specs.SiteThreads.{number_at, served_at};

use std::alloc::Global;
use std::sync::Wait;
use zq_dots::SiteNo;
use zq_node::Node;
use zq_peers::{Carry, Incoming, Link, Mailbox, Witness};
use zq_session::SitePass;

/// The link thread of a served site, with the site's spare pass, and its end of the links.
#[derive(Drop)]
pub struct Linker<'b, 'a> {
    pub(crate) spare: &'b mut Option<SitePass<'a>>,
    pub(crate) link: &'b Link,
}

/// What works with the node of a site.
pub trait NodeWork {
    ghost use Rattle.zq_node.specs.Node.{IsNode, IsSameHome};

    /// Works with the node of a site, which has these others beside it. It stays the node of that
    /// site.
    fn run(self, node: &mut Node<'_>, others: &[SiteNo])
        requires { IsNode node.old }
        ensures node { IsNode node.new }
        ensures home { IsSameHome node.old node.new };
}

impl<'b, 'a> Linker<'b, 'a> {
    /// A linker with this pass, which is one of its site's to spare.
    pub fn new(spare: &'b mut Option<SitePass<'a>>, link: &'b Link) -> Linker<'b, 'a>
        ensures spare { result.spare.now ≡ spare.old }
        ensures link { result.link.now ≡ link.now }
    {
        Linker { spare, link }
    }
}

impl Linker<'_, '_> {
    /// The number of its site, where the pass is there.
    pub(crate) fn number(&self) -> Option<SiteNo>
        ensures { result ≡ number_at self.now.spare.now }
    {
        match &*self.spare {
            Some(own) => Some(own.site.number()),
            None => None,
        }
    }

    /// Lends the site's node to this work, for who links the site in another way. The node parks at
    /// most so many operations that came early. Where the pass is not there nothing is done. The pass
    /// is put back afterwards.
    pub fn lend<W: NodeWork + Drop>(self, alloc: Global, most: usize, work: W)
        ensures back { served_at self.exit.0.now ≡ served_at self.entry.spare.now }
    {
        let Linker { spare, link } = self;
        let Some(own) = spare.take() else {
            return;
        };
        let SitePass { site, pass } = own;
        let mut node = Node::new_up_to(alloc, site, pass, most);
        work.run(&mut node, &link.others);
        SitePass::put_back(spare, site, node.into_pass());
    }

    /// Hears what comes to its site's mailbox, and tells the other sites what this one has, until
    /// Stop comes. What it sends goes to the carrier; of frames that it drops the witness is told.
    /// Where the pass is not there nothing is done. The pass is put back afterwards.
    pub fn run<R: Wait, C: Carry, T: Witness>(
        self,
        rt: &R,
        alloc: Global,
        inbox: &Mailbox,
        carrier: &mut C,
        witness: &mut T,
    )
        ensures back { served_at self.exit.0.now ≡ served_at self.entry.spare.now }
    {
        let Linker { spare, link } = self;
        let Some(own) = spare.take() else {
            return;
        };
        let SitePass { site, pass } = own;
        let mut node = Node::new(alloc, site, pass);
        let mut incoming = Incoming::new(rt, inbox);
        link.attend(rt, alloc, &mut incoming, &mut node, carrier, witness);
        SitePass::put_back(spare, site, node.into_pass());
    }
}
