//! A block with what comes before it, or after it, in a tree.
ghost use Rattle.std.specs.Prelude.{[], drop, length, take, ◌++◌, ◌<◌, ◌≡◌, ◌≤◌};
ghost use Rattle.zq_ranked.specs.Paths.{IsPath, backward, onward};

use crate::child::Child;
use crate::node::{Form, LEVELS, Node};
use crate::pair::Pair;

/// A part of a block, and of each height the nodes that come before or after it under one fork.
#[derive(Drop)]
pub(crate) struct Path<'a> {
    pub(crate) block: &'a [Pair],
    levels: [&'a [Child]; LEVELS],
}

impl<'a> Path<'a> {
    /// No pairs.
    pub(crate) fn new() -> Path<'a>
        ensures block { result.block.now ≡ [] }
        ensures path { IsPath result.levels }
        ensures onward { onward result.levels ≡ [] }
        ensures backward { backward result.levels ≡ [] }
    {
        Path {
            block: &[],
            levels: [&[]; LEVELS],
        }
    }

    /// Comes to a place of a node, with what comes after it. The levels below the node have nothing
    /// left.
    pub(crate) fn enter(&mut self, node: &'a Node, place: usize)
        requires low { node.now.1 ≤ LEVELS }
        requires path { IsPath self.old.levels }
        requires spent { onward (take node.now.1 self.old.levels) ≡ [] }
        ensures path { IsPath self.new.levels }
        ensures pairs { self.new.block.now ++ onward self.new.levels
            ≡ drop place node.now.0 ++ onward self.old.levels }
        ensures some { place < length node.now.0 → 0 < length self.new.block.now }
    {
        match &node.form {
            Form::Leaf(block) => self.block = &block[place.min(block.len())..],
            Form::Branch(fork) => {
                let (index, within) = fork.seek(place);
                let Some((child, others)) = fork.children[index..].split_first() else {
                    self.block = &[];
                    return;
                };
                let levels = &mut self.levels[..];
                levels[fork.level] = others;
                self.enter(&child.node, within);
            }
        }
    }

    /// Comes to the end of a node's first so many pairs, with what comes before it. The levels
    /// below the node have nothing left.
    pub(crate) fn enter_back(&mut self, node: &'a Node, place: usize)
        requires low { node.now.1 ≤ LEVELS }
        requires path { IsPath self.old.levels }
        requires spent { backward (take node.now.1 self.old.levels) ≡ [] }
        requires some { 0 < place }
        requires within { place ≤ length node.now.0 }
        ensures path { IsPath self.new.levels }
        ensures pairs { backward self.new.levels ++ self.new.block.now
            ≡ backward self.old.levels ++ take place node.now.0 }
        ensures some { 0 < length self.new.block.now }
    {
        match &node.form {
            Form::Leaf(block) => self.block = &block[..place],
            Form::Branch(fork) => {
                let (index, within) = fork.seek(place - 1);
                let levels = &mut self.levels[..];
                levels[fork.level] = &fork.children[..index];
                self.enter_back(&fork.children[index].node, within + 1);
            }
        }
    }

    /// Goes on to the next block, if there is one.
    pub(crate) fn climb(&mut self)
        requires path { IsPath self.old.levels }
        requires none { self.old.block.now ≡ [] }
        ensures path { IsPath self.new.levels }
        ensures pairs { self.new.block.now ++ onward self.new.levels ≡ onward self.old.levels }
        ensures some { 0 < length (onward self.old.levels) → 0 < length self.new.block.now }
    {
        for level in 0..LEVELS {
            let levels = &mut self.levels[..];
            let children = levels[level];
            if let Some((child, others)) = children.split_first() {
                levels[level] = others;
                self.enter(&child.node, 0);
                return;
            }
        }
    }

    /// Goes back to the block before, if there is one.
    pub(crate) fn climb_back(&mut self)
        requires path { IsPath self.old.levels }
        requires none { self.old.block.now ≡ [] }
        ensures path { IsPath self.new.levels }
        ensures pairs { backward self.new.levels ++ self.new.block.now ≡ backward self.old.levels }
        ensures some { 0 < length (backward self.old.levels) → 0 < length self.new.block.now }
    {
        for level in 0..LEVELS {
            let levels = &mut self.levels[..];
            let children = levels[level];
            if let Some((child, others)) = children.split_last() {
                levels[level] = others;
                self.enter_back(&child.node, child.len);
                return;
            }
        }
    }
}
