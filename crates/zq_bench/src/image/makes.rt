//! Makes over members, of a shard or a book.
use crate::clock::{now, since};
use crate::image::members::{Board, Members, put_all, put_turns};
use std::alloc::Global;
use std::rt::Clock;

/// What was timed, in nanoseconds: the makes that add the members, and those over them.
#[derive(Clone, Copy)]
pub struct MakeTimes {
    pub adds: u128,
    pub changes: u128,
}

/// Times makes that add so many members, and then so many over them.
pub fn time_makes<B: Board>(
    rt: &impl Clock,
    alloc: Global,
    board: &mut B,
    count: u32,
    makes: u32,
) -> MakeTimes {
    let members = Members {
        site: 0,
        first: 0,
        count,
    };
    let began = now(rt);
    put_all(alloc, board, members);
    let adds = since(rt, began);
    let began = now(rt);
    put_turns(alloc, board, members, count, count.saturating_add(makes));
    let changes = since(rt, began);
    MakeTimes { adds, changes }
}
