//! Two sites that push to each other, step by step.

use super::world::{Fate, World};
use std::alloc::{AllocError, Global};
use std::test::Fail;

/// What is done.
#[derive(Clone, Copy, Debug)]
enum Step {
    /// A site makes so many operations.
    Make(usize, u32),
    /// A site pushes one frame.
    Push(usize),
    /// Something happens to the next frame from a site.
    Next(usize, Fate),
    /// All that is on its way is heard, and all that may be pushed is pushed.
    Rest,
    /// A calm comes at both, and all that follows.
    Calm,
    /// The link is cut, with all that is on its way, and begins again.
    Cut,
}

/// What stands then: what each site knows of the first and of the second site, and how many
/// operations were pushed in all.
type Shown = ([u64; 2], [u64; 2], u64);

/// Does a step.
fn take(world: &mut World, alloc: Global, step: Step) -> Result<(), AllocError> {
    match step {
        Step::Make(site, count) => {
            for _ in 0..count {
                world.make(site)?;
            }
        }
        Step::Push(site) => {
            let _ = world.push(alloc, site, 0)?;
        }
        Step::Next(site, fate) => {
            let _ = world.deliver(alloc, site, 0, fate)?;
        }
        Step::Rest => {
            let _ = world.rest(alloc)?;
        }
        Step::Calm => {
            let _ = world.calm_all(alloc)?;
        }
        Step::Cut => world.begin(alloc, 0, 0)?,
    }
    Ok(())
}

/// Whether a site knows so many operations of the first and of the second site.
fn knows(world: &World, site: usize, counts: &[u64; 2]) -> bool {
    match world.sites.get(site) {
        Some(site) => site.vector == super::vector_of(counts),
        None => false,
    }
}

/// Takes the steps from the beginning of a link between two sites, with this window and so many
/// operations in a frame: the number of the first step after which something else stands.
fn differs_at(
    alloc: Global,
    window: u64,
    most: u64,
    rows: &[(Step, Shown)],
) -> Result<Option<usize>, AllocError> {
    let mut world = World::new(alloc, 2, window, most)?;
    world.link(alloc, 0, 1)?;
    world.begin_all(alloc)?;
    for (number, (step, shown)) in rows.iter().enumerate() {
        take(&mut world, alloc, *step)?;
        let stands = knows(&world, 0, &shown.0)
            && knows(&world, 1, &shown.1)
            && world.pushed() == shown.2
            && world.is_gapless();
        if !stands {
            return Ok(Some(number));
        }
    }
    Ok(None)
}

/// Each operation goes once, also where an At comes while others are on their way.
const ONCE: [(Step, Shown); 11] = [
    (Step::Make(0, 3), ([3, 0], [0, 0], 0)),
    (Step::Push(0), ([3, 0], [0, 0], 0)),
    (Step::Rest, ([3, 0], [3, 0], 3)),
    (Step::Make(0, 2), ([5, 0], [3, 0], 3)),
    (Step::Push(0), ([5, 0], [3, 0], 5)),
    (Step::Make(1, 1), ([5, 0], [3, 1], 5)),
    (Step::Push(1), ([5, 0], [3, 1], 6)),
    (Step::Rest, ([5, 1], [5, 1], 6)),
    (Step::Calm, ([5, 1], [5, 1], 6)),
    (Step::Calm, ([5, 1], [5, 1], 6)),
    (Step::Rest, ([5, 1], [5, 1], 6)),
];

/// A frame that is lost is sent again after two calms: after the first the loss is not known, since
/// the peer's At does not answer the probe yet; after the second it is.
const LOST: [(Step, Shown); 7] = [
    (Step::Rest, ([0, 0], [0, 0], 0)),
    (Step::Make(0, 2), ([2, 0], [0, 0], 0)),
    (Step::Push(0), ([2, 0], [0, 0], 2)),
    (Step::Next(0, Fate::Lost), ([2, 0], [0, 0], 2)),
    (Step::Rest, ([2, 0], [0, 0], 2)),
    (Step::Calm, ([2, 0], [0, 0], 2)),
    (Step::Calm, ([2, 0], [2, 0], 4)),
];

/// A frame that is doubled is known the second time. One that comes before another leaves a gap,
/// and is sent again.
const TURNED: [(Step, Shown); 9] = [
    (Step::Rest, ([0, 0], [0, 0], 0)),
    (Step::Make(0, 1), ([1, 0], [0, 0], 0)),
    (Step::Push(0), ([1, 0], [0, 0], 1)),
    (Step::Next(0, Fate::Doubled), ([1, 0], [1, 0], 1)),
    (Step::Make(0, 1), ([2, 0], [1, 0], 1)),
    (Step::Push(0), ([2, 0], [1, 0], 2)),
    (Step::Make(0, 1), ([3, 0], [1, 0], 2)),
    (Step::Push(0), ([3, 0], [1, 0], 3)),
    (Step::Next(0, Fate::Ahead(1)), ([3, 0], [1, 0], 3)),
];

/// A link that is cut with operations on their way begins again with what the peer has.
const CUT: [(Step, Shown); 6] = [
    (Step::Make(0, 2), ([2, 0], [0, 0], 0)),
    (Step::Rest, ([2, 0], [2, 0], 2)),
    (Step::Make(0, 3), ([5, 0], [2, 0], 2)),
    (Step::Push(0), ([5, 0], [2, 0], 5)),
    (Step::Cut, ([5, 0], [2, 0], 5)),
    (Step::Rest, ([5, 0], [5, 0], 8)),
];

/// A window of four that fills, and moves with the peer's Ats. Two operations go in a frame.
const FULL: [(Step, Shown); 8] = [
    (Step::Rest, ([0, 0], [0, 0], 0)),
    (Step::Make(0, 9), ([9, 0], [0, 0], 0)),
    (Step::Push(0), ([9, 0], [0, 0], 2)),
    (Step::Push(0), ([9, 0], [0, 0], 4)),
    (Step::Push(0), ([9, 0], [0, 0], 4)),
    (Step::Next(0, Fate::Heard), ([9, 0], [2, 0], 4)),
    (Step::Next(1, Fate::Heard), ([9, 0], [2, 0], 4)),
    (Step::Push(0), ([9, 0], [2, 0], 6)),
];

#[test]
fn two_sites_push_what_the_other_lacks(rt: HostRuntime) -> Result<(), Fail> {
    let alloc = rt.alloc();
    assert!(rt; differs_at(alloc, 100, 50, &ONCE)? == None, "once");
    assert!(rt; differs_at(alloc, 100, 50, &LOST)? == None, "lost");
    assert!(rt; differs_at(alloc, 100, 50, &TURNED)? == None, "turned");
    assert!(rt; differs_at(alloc, 100, 50, &CUT)? == None, "cut");
    assert!(rt; differs_at(alloc, 4, 2, &FULL)? == None, "full");
    Ok(())
}

/// In a chain of three the middle relays, once each, what the ends make.
#[test]
fn the_middle_relays(rt: HostRuntime) -> Result<(), Fail> {
    let alloc = rt.alloc();
    let mut world = World::new(alloc, 3, 100, 10)?;
    world.link(alloc, 0, 1)?;
    world.link(alloc, 1, 2)?;
    world.begin_all(alloc)?;
    assert!(rt; world.rest(alloc)?);
    for site in [0, 2, 2, 1] {
        world.make(site)?;
    }
    assert!(rt; world.rest(alloc)? && world.is_equal() && world.is_gapless());
    assert!(rt; world.pushed() == 8);
    Ok(())
}
