//! A site and its node, of which the cases of nodes are.
ghost use Rattle.std.specs.Prelude.{◌≡◌};
ghost use Rattle.zq_node.specs.Node.{IsNode};
ghost use Rattle.zq_spread.specs.Calls.{heaps_of};
ghost use Rattle.zq_spread.specs.Passes.{IsPassOf};

use crate::hearing::hears;
use crate::links::{Fault, linked};
use std::alloc::Global;
use std::sync::Wait;
use zq_dots::SiteNo;
use zq_node::Node;
use zq_spread::{Pass, Site};
use zq_trials::{Ended, last_pass, opened_with};

/// What a node hears.
#[derive(Clone, Copy)]
pub enum Hearing {
    /// A frame of three operations, in the order in which they were made, or with the first two
    /// exchanged.
    Frame { is_turned: bool },
    /// What a link passes on of a hundred frames.
    Link(Fault),
}

/// How it ends where a node hears this, and a pass looks at its site.
fn hear<R: Wait>(
    rt: &R,
    alloc: Global,
    site: &Site,
    node: &mut Node,
    looks: &mut Pass,
    hearing: Hearing,
) -> Option<Ended>
    requires node { IsNode node.old }
    requires pass { IsPassOf site.now looks.old }
    requires heaps { heaps_of site.now ≡ 2 }
{
    match hearing {
        Hearing::Frame { is_turned } => hears(rt, alloc, site, node, looks, is_turned),
        Hearing::Link(fault) => linked(rt, alloc, site, node, looks, fault),
    }
}

/// How it ends where the node of site 0, of two heaps, hears this.
pub fn at_node<R: Wait>(rt: &R, alloc: Global, hearing: Hearing) -> Option<Ended> {
    let number = SiteNo::new(0)?;
    let (site, mut passes) = opened_with(alloc, number, 2)?;
    let mut looks = last_pass(&site, &mut passes)?;
    let pass = last_pass(&site, &mut passes)?;
    let mut node = Node::new(alloc, &site, pass);
    hear(rt, alloc, &site, &mut node, &mut looks, hearing)
}
