//! Drawn runs of a few sites in a connected graph, whose links lose, double and reorder what goes
//! over them, and are cut. No push leaves a gap, and after calms all sites have all operations.

use super::world::{Fate, World};
use rand_core::{Rng, SeedableRng};
use rand_pcg::Pcg64;
use std::alloc::{AllocError, Global};
use std::test::Fail;

/// How many runs.
const RUNS: u64 = 40;

/// How many steps in a run.
const STEPS: u32 = 200;

/// A number below another, which is above 0.
fn below(draws: &mut Pcg64, bound: u64) -> u64 {
    match draws.next_u64().checked_rem(bound) {
        Some(number) => number,
        None => 0,
    }
}

/// Two to four sites, each linked to one before it, and some more links.
fn drawn_world(alloc: Global, draws: &mut Pcg64) -> Result<World, AllocError> {
    let sites = 2 + (draws.next_u64() % 3) as u8;
    let window = 1 + draws.next_u64() % 20;
    let most = 1 + draws.next_u64() % 5;
    let mut world = World::new(alloc, sites, window, most)?;
    for other in 1..sites {
        let first = below(draws, u64::from(other));
        for one in 0..other {
            if u64::from(one) == first || draws.next_u64() & 3 == 0 {
                world.link(alloc, one, other)?;
            }
        }
    }
    world.begin_all(alloc)?;
    Ok(world)
}

/// What happens to a frame.
fn drawn_fate(draws: &mut Pcg64) -> Fate {
    match draws.next_u64() % 16 {
        0 => Fate::Lost,
        1 => Fate::Doubled,
        2 => Fate::Ahead(below(draws, 4) as usize),
        _ => Fate::Heard,
    }
}

/// Does something at some site.
fn step(world: &mut World, alloc: Global, draws: &mut Pcg64) -> Result<(), AllocError> {
    let site = below(draws, world.sites.len() as u64) as usize;
    let place = below(draws, world.ends_of(site) as u64) as usize;
    match draws.next_u64() % 32 {
        0..=8 => world.make(site),
        9..=18 => {
            let _ = world.push(alloc, site, place)?;
            Ok(())
        }
        19..=29 => {
            let fate = drawn_fate(draws);
            let _ = world.deliver(alloc, site, place, fate)?;
            Ok(())
        }
        30 => world.calm(site),
        _ => world.begin(alloc, site, place),
    }
}

/// Whether the sites become equal, after some calms in which nothing is lost.
fn settles(world: &mut World, alloc: Global) -> Result<bool, AllocError> {
    for _ in 0..20u8 {
        if !world.calm_all(alloc)? {
            return Ok(false);
        }
        if world.is_equal() {
            return Ok(true);
        }
    }
    Ok(false)
}

/// Whether the run of a seed keeps no gap, and ends with equal sites.
fn runs_well(alloc: Global, seed: u64) -> Result<bool, AllocError> {
    let mut draws = Pcg64::seed_from_u64(seed);
    let mut world = drawn_world(alloc, &mut draws)?;
    for _ in 0..STEPS {
        step(&mut world, alloc, &mut draws)?;
    }
    Ok(settles(&mut world, alloc)? && world.is_gapless())
}

#[test]
fn all_sites_become_equal(rt: HostRuntime) -> Result<(), Fail> {
    for seed in 0..RUNS {
        assert!(rt; runs_well(rt.alloc(), seed)?, "{seed}");
    }
    Ok(())
}
