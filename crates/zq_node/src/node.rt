//! A node, its type.
ghost use Rattle.std.specs.Prelude.{◌≡◌, ◌≤◌, [], length};
ghost use Rattle.zq_node.specs.Limits as limits;
ghost use Rattle.zq_node.specs.Node.{IsNode, most_of, parked_of, pass_of, site_of};
ghost use Rattle.zq_spread.specs.Passes.{IsPassOf};

use crate::home::Home;
use crate::parked::{MOST_PARKED, Parked};
use std::alloc::Global;
use zq_spread::{Pass, Site};

/// What hears the frames that come to a site. It works with a pass of its own, and keeps operations
/// that came early until what they follow has come.
#[derive(Drop)]
pub struct Node<'a> {
    pub(crate) home: Home<'a>,
    pub(crate) pass: Pass,
    pub(crate) parked: Parked,
}

impl<'a> Node<'a> {
    /// The node of this site. It has parked nothing, and parks at most
    /// [`MOST_PARKED`](crate::MOST_PARKED) operations; the pass, which is one of the site's, is as
    /// it was. It takes no memory.
    pub fn new(alloc: Global, site: &'a Site, pass: Pass) -> Node<'a>
        requires { IsPassOf site.now pass }
        ensures node { IsNode result }
        ensures site { site_of result ≡ site.now }
        ensures pass { pass_of result ≡ pass }
        ensures parked { parked_of result ≡ [] }
        ensures most { most_of result ≡ limits.MOST_PARKED }
    {
        Node::new_up_to(alloc, site, pass, MOST_PARKED)
    }

    /// The same, where it parks at most so many operations.
    pub fn new_up_to(alloc: Global, site: &'a Site, pass: Pass, most: usize) -> Node<'a>
        requires { IsPassOf site.now pass }
        ensures node { IsNode result }
        ensures site { site_of result ≡ site.now }
        ensures pass { pass_of result ≡ pass }
        ensures parked { parked_of result ≡ [] }
        ensures most { most_of result ≡ most }
    {
        let number = site.number();
        let heaps = site.heaps();
        let rule = site.rule();
        // For the proof: the number is below 64.
        let _number = number.value();
        let home = Home {
            site,
            number,
            heaps,
            rule,
        };
        Node {
            home,
            pass,
            parked: Parked::up_to(alloc, most),
        }
    }

    /// How many operations are parked, at most as many as may be.
    pub fn parked_len(&self) -> usize
        ensures exact { result ≡ length (parked_of self.now) }
        ensures most { result ≤ most_of self.now }
    {
        self.parked.len()
    }

    /// Its pass.
    pub fn pass(&self) -> &Pass
        ensures { result.now ≡ pass_of self.now }
    {
        &self.pass
    }

    /// Gives its pass back. What is parked is dropped, as if it had been lost.
    pub fn into_pass(self) -> Pass
        ensures { result ≡ pass_of self.entry }
    {
        let Node { pass, .. } = self;
        pass
    }
}
