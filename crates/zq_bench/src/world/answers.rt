//! What the sites of a world answer in the end.
use crate::requests::request;
use crate::world::script::SITES;
use std::alloc::Global;
use zq_world::World;

/// Whether all sites answered the same bytes, and how many the first one did.
#[derive(Clone, Copy)]
pub struct Answers {
    pub are_alike: bool,
    pub bytes: usize,
}

/// Asks each site for the whole queue.
pub fn answer_all(alloc: Global, world: &World) -> Option<Answers> {
    let whole = request(alloc, "ZRANGE board 0 -1 WITHSCORES")?;
    let first = world.answer(alloc, 0, &whole).ok()?;
    let mut are_alike = true;
    for site in 1..SITES {
        let other = world.answer(alloc, site, &whole).ok()?;
        are_alike = are_alike && other.as_slice() == first.as_slice();
    }
    Some(Answers {
        are_alike,
        bytes: first.len(),
    })
}
