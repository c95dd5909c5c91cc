//! How a world is played.

use crate::counts::{Counts, count};
use crate::draws::Draws;
use crate::plan::Plan;
use crate::world::World;
use crate::wrong::Wrong;
use mesh_sites::open_all;
use std::alloc::Global;
use std::sync::Wait;

/// A world that was played.
#[derive(Clone, Copy, Debug)]
pub struct Played {
    /// What was counted.
    pub counts: Counts,
    /// What is wrong with it, if something is.
    pub wrong: Option<Wrong>,
}

/// Plays the world of a seed.
pub fn play<R: Wait>(rt: &R, alloc: Global, seed: u64) -> Played {
    let mut counts = Counts::none();
    let wrong = play_counted(rt, alloc, seed, &mut counts).err();
    count(&mut counts.worlds, 1);
    Played { counts, wrong }
}

/// Plays the world of a seed, and counts.
fn play_counted<R: Wait>(
    rt: &R,
    alloc: Global,
    seed: u64,
    counts: &mut Counts,
) -> Result<(), Wrong> {
    let mut draws = Draws::new(seed);
    let plan = Plan::drawn(alloc, &mut draws)?;
    let mut sites = open_all(alloc, &plan.sites)?;
    let mut world = World::new(alloc, plan, draws, &mut sites)?;
    let wrong = world.play(rt, alloc);
    counts.add(&world.counts);
    wrong
}

impl World<'_> {
    /// Plays the world to its end, and judges it.
    fn play<R: Wait>(&mut self, rt: &R, alloc: Global) -> Result<(), Wrong> {
        self.run(rt, alloc)?;
        self.finish(rt, alloc)?;
        self.judge(rt, alloc)
    }
}
