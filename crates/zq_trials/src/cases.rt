//! The cases, by their names.

use crate::commands::ROWS;
use crate::devices::{Trial, devices};
use crate::ended::Ended;
use crate::visits::{Visit, visited};
use crate::{books, careless, feeding, making, merging, transacting};
use std::alloc::Global;
use std::sync::Wait;

/// How the case of this name ends, `None` where memory was refused before or after its call. There
/// is nothing right of one that is not there.
pub fn case<R: Wait>(rt: &R, alloc: Global, name: &str) -> Option<Ended> {
    match name {
        "merge-shard" => merging::shard(alloc),
        "merge-book" => merging::book(alloc),
        "merge-site" => visited(rt, alloc, Visit::Merge),
        "read-state" => merging::state(alloc),
        "feed" => Some(feeding::feed(alloc)),
        "declared" => Some(feeding::declared(alloc)),
        "session" => feeding::hold(alloc),
        "lock" => making::lock(alloc),
        "site" => making::site(alloc),
        "books" => books::books(alloc),
        "cuts" => devices(rt, alloc, Trial::Cuts),
        "reads" => devices(rt, alloc, Trial::Reads),
        "writes" => devices(rt, alloc, Trial::Writes),
        "index" => visited(rt, alloc, Visit::Index),
        "worn" => visited(rt, alloc, Visit::Worn),
        "transaction" => transacting::transaction(rt, alloc),
        "careless" => careless::careless(alloc),
        _ => command_named(rt, alloc, name),
    }
}

/// How the command of this name ends.
fn command_named<R: Wait>(rt: &R, alloc: Global, name: &str) -> Option<Ended> {
    for row in &ROWS {
        if row.name == name {
            return visited(rt, alloc, Visit::Command(row));
        }
    }
    Some(Ended::Wrong)
}
