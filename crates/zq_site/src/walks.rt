//! The walks over a site's heaps, by the thread that drains them.

ghost use Rattle.zq_node.specs.Node.{IsNode, IsSameHome};

use crate::shared::Shared;
use crate::sizing::{SizeWalk, size_heaps};
use crate::walking::{Walk, go_on};
use std::sync::Wait;
use std::time::Clock;
use zq_node::Node;
use zq_posheap::Seeded;

/// The walks over a site's heaps that are under way: over its keys, and over its members.
#[derive(Drop)]
pub struct Walks {
    keys: Option<Walk>,
    sizes: Option<SizeWalk>,
}

impl Walks {
    /// None is.
    pub fn none() -> Walks {
        Walks {
            keys: None,
            sizes: None,
        }
    }

    /// Leads them on, and begins those that are asked for.
    pub fn go_on<L: Clock + Wait>(
        &mut self,
        rt: &L,
        shared: Shared<'_>,
        node: &mut Node<'_>,
        hasher: Seeded,
    )
        requires { IsNode node.old }
        ensures node { IsNode node.new }
        ensures home { IsSameHome node.old node.new }
    {
        go_on(rt, shared, node, hasher, &mut self.keys);
        size_heaps(rt, shared, node, hasher, &mut self.sizes);
    }
}
