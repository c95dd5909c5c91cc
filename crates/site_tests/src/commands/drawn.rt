//! Commands drawn from a seed, against a plain list of scores: at books that have an index of the
//! key from its third member in a heap on, and at books of which none has. Now and then another
//! site, whose books have older members and an index of these, merges the heaps and goes on.

ghost use Rattle.zq_model.specs.Sets.{IsHeaps};

use super::{ask, merge};
use rand_core::{Rng, SeedableRng};
use rand_pcg::Pcg64;
use std::alloc::Global;
use std::process::Abort;
use std::test::Fail;
use zq_commands::SiteBooks;
use zq_dots::Rule;
use zq_posheap::Seeded;

mod asked;
mod list;

use asked::{drawn, line_of};
use list::List;

/// Two sites, of which the first is asked, and the list of what it has.
#[derive(Drop)]
struct Sites {
    asked: SiteBooks,
    other: SiteBooks,
    list: List,
}

impl Sites {
    fn new(alloc: Global, heaps: u8) -> Result<Sites, Fail>
        requires { IsHeaps heaps }
    {
        let asked = SiteBooks::new(alloc, heaps, Rule::High, Seeded::new(1))?;
        let other = SiteBooks::new(alloc, heaps, Rule::High, Seeded::new(2))?;
        Ok(Sites {
            asked,
            other,
            list: List::new(),
        })
    }

    /// Makes the indexes of both sites.
    fn index(&mut self, alloc: Global, heaps: u8, most: usize) {
        for heap in 0..heaps {
            self.asked.index(alloc, heap, b"q", most);
            self.other.index(alloc, heap, b"q", most);
        }
    }

    /// The other site merges what the first has, and is asked from then on.
    fn turn(&mut self, alloc: Global) -> Result<(), Fail> {
        merge(alloc, &self.asked, &mut self.other)?;
        std::mem::swap(&mut self.asked, &mut self.other);
        Ok(())
    }
}

/// Draws a command, and asserts what the site answers. Each site makes operations of its own
/// number, by turns.
fn step(
    rt: &impl Abort,
    alloc: Global,
    sites: &mut Sites,
    site: u8,
    draws: &mut Pcg64,
) -> Result<(), Fail> {
    let asked = drawn(draws);
    let line = line_of(alloc, asked)?;
    let owed = sites.list.answer(alloc, asked)?;
    let told = ask(alloc, &mut sites.asked, site, &line)?;
    assert!(rt; told == owed, "{line}");
    Ok(())
}

/// Plays a stream of commands over so many heaps, whose books have an index past so many members.
fn play(rt: &impl Abort, alloc: Global, heaps: u8, most: usize, seed: u64) -> Result<(), Fail>
    requires { IsHeaps heaps }
{
    let mut draws = Pcg64::seed_from_u64(seed);
    let mut sites = Sites::new(alloc, heaps)?;
    let mut is_turned = false;
    for turn in 0..800 {
        if turn % 3 == 0 {
            sites.index(alloc, heaps, most);
        }
        if draws.next_u64() % 40 == 0 {
            sites.turn(alloc)?;
            is_turned = !is_turned;
        }
        step(rt, alloc, &mut sites, u8::from(is_turned), &mut draws)?;
    }
    Ok(())
}

#[test]
fn commands_answer_as_a_list_with_an_index_and_without(rt: HostRuntime) -> Result<(), Fail> {
    for most in [usize::MAX, 2] {
        for heaps in [1, 2, 3] {
            play(&rt, rt.alloc(), heaps, most, u64::from(heaps))?;
        }
    }
    Ok(())
}
