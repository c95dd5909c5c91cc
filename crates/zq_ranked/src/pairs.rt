//! The pairs of a `Ranked`, one after another.
ghost use Rattle.std.specs.Prelude.{drop, length, reverse, take, ◌≡◌, ◌≤◌};
ghost use Rattle.std.specs.Iterator.{YieldsFirstBy, item_count};
ghost use Rattle.zq_ranked.specs.Key.{lent_pair};

use crate::node::{LEVELS, Node};
use crate::path::Path;
use std::marker::Model;

/// The pairs from a place onward.
#[derive(Drop)]
pub struct Forward<'a> {
    path: Path<'a>,
}

impl<'a> Model for Forward<'a> {
    ghost use Rattle.std.specs.Prelude.{List, ℕ, ℤ, ◌++◌};
    ghost use Rattle.zq_ranked.specs.Paths.{IsPath, onward};

    ghost Value = { List (ℤ × List ℕ) };

    ghost view = { λ a. a.path.block.now ++ onward a.path.levels };

    ghost invariant = { λ a. IsPath a.path.levels };
}

impl<'a> Forward<'a> {
    pub(crate) fn new(root: &'a Node, place: usize) -> Self
        requires { root.now.1 ≤ LEVELS }
        ensures { result ≡ drop place root.now.0 }
    {
        let mut path = Path::new();
        path.enter(root, place);
        Forward { path }
    }
}

impl<'a> Iterator for Forward<'a> {
    type Item = (i128, &'a [u8]);

    ghost next_gives = { YieldsFirstBy lent_pair (λ pairs. pairs) };

    ghost remaining = { item_count (λ pairs. pairs) };

    fn next(&mut self) -> Option<(i128, &'a [u8])> {
        if self.path.block.is_empty() {
            self.path.climb();
        }
        let (first, others) = self.path.block.split_first()?;
        self.path.block = others;
        Some(first.lent())
    }
}

/// The pairs before a place, the last of them first.
#[derive(Drop)]
pub struct Backward<'a> {
    path: Path<'a>,
}

impl<'a> Model for Backward<'a> {
    ghost use Rattle.std.specs.Prelude.{List, reverse, ℕ, ℤ, ◌++◌};
    ghost use Rattle.zq_ranked.specs.Paths.{IsPath, backward};

    ghost Value = { List (ℤ × List ℕ) };

    ghost view = { λ a. reverse (backward a.path.levels ++ a.path.block.now) };

    ghost invariant = { λ a. IsPath a.path.levels };
}

impl<'a> Backward<'a> {
    pub(crate) fn new(root: &'a Node, place: usize) -> Self
        requires low { root.now.1 ≤ LEVELS }
        requires place { place ≤ length root.now.0 }
        ensures { result ≡ reverse (take place root.now.0) }
    {
        let mut path = Path::new();
        if place > 0 {
            path.enter_back(root, place);
        }
        Backward { path }
    }
}

impl<'a> Iterator for Backward<'a> {
    type Item = (i128, &'a [u8]);

    ghost next_gives = { YieldsFirstBy lent_pair (λ pairs. pairs) };

    ghost remaining = { item_count (λ pairs. pairs) };

    fn next(&mut self) -> Option<(i128, &'a [u8])> {
        if self.path.block.is_empty() {
            self.path.climb_back();
        }
        let (last, others) = self.path.block.split_last()?;
        self.path.block = others;
        Some(last.lent())
    }
}
