//! The members, which are of one key, and what they are put into.
use crate::members::{LENGTH, member_of};
use std::alloc::Global;
use zq_dots::{Act, Score, SiteNo};
use zq_shard::Shard;

/// The key of all members.
pub const KEY: &[u8] = b"board";

/// What takes Puts.
pub trait Board {
    /// Makes a Put at a site, where there is memory for it.
    fn put(&mut self, alloc: Global, site: SiteNo, member: &[u8; LENGTH], act: Act);
}

impl Board for Shard {
    fn put(&mut self, alloc: Global, site: SiteNo, member: &[u8; LENGTH], act: Act) {
        drop(self.make(alloc, site, KEY, member, act));
    }
}

/// Members of so many numbers, from the first on, and the site that puts them.
#[derive(Clone, Copy)]
pub struct Members {
    pub site: u8,
    pub first: u32,
    pub count: u32,
}

/// Puts all members, in no order.
pub fn put_all<B: Board>(alloc: Global, board: &mut B, members: Members) {
    put_turns(alloc, board, members, 0, members.count);
}

/// Puts a member for each of these turns, and each member in as many turns as there are members.
pub fn put_turns<B: Board>(alloc: Global, board: &mut B, members: Members, from: u32, to: u32) {
    for turn in from..to {
        put(alloc, board, members, turn);
    }
}

/// Puts the member of a turn.
fn put<B: Board>(alloc: Global, board: &mut B, members: Members, turn: u32) {
    if let (Some(site), Some(act)) = (SiteNo::new(members.site), put_of(turn)) {
        let number = members.first.wrapping_add(scattered(turn, members.count));
        board.put(alloc, site, &member_of(number), act);
    }
}

/// A Put of the score of a turn.
fn put_of(turn: u32) -> Option<Act> {
    match Score::new(i64::from(turn.wrapping_mul(7919) % 1_000_003)) {
        Some(score) => Some(Act::Put(score)),
        None => None,
    }
}

/// A number below another: each once in as many turns, unless 7919 divides it.
fn scattered(turn: u32, below: u32) -> u32 {
    (u64::from(turn).wrapping_mul(7919) % u64::from(below.max(1))) as u32
}
