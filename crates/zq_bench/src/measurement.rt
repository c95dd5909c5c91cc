//! What is measured.
use crate::{heap, image, lock, node, pops, ranked, site, world};

/// What the command line asks for.
#[derive(Clone, Copy)]
pub enum Measurement {
    /// All but the lock, in small sizes.
    All,
    Heap(heap::Sizes),
    Image(image::Part),
    Lock(lock::Contest),
    Node(node::Plan),
    Pops(pops::Plan),
    Ranked(ranked::Sizes),
    Site(usize),
    World(u32),
}

/// The measurement that the words behind the program's name ask for.
pub fn read(words: &[String]) -> Option<Measurement> {
    let (name, rest) = words.split_first()?;
    match name.as_str() {
        "all" if rest.is_empty() => Some(Measurement::All),
        "heap" => Some(Measurement::Heap(heap::read(rest)?)),
        "image" => Some(Measurement::Image(image::read(rest)?)),
        "lock" => Some(Measurement::Lock(lock::read(rest)?)),
        "node" => Some(Measurement::Node(node::read(rest)?)),
        "pops" => Some(Measurement::Pops(pops::read(rest)?)),
        "ranked" => Some(Measurement::Ranked(ranked::read(rest)?)),
        "site" => Some(Measurement::Site(site::read(rest)?)),
        "world" => Some(Measurement::World(world::read(rest)?)),
        _ => None,
    }
}
