//! Links that lose frames.
ghost use Rattle.rand_core.specs.Pcg32Seed.{pcg32_seed};
ghost use Rattle.rand_pcg.specs.Pcg.{pcg32, pcg32_of_seed};
ghost use Rattle.std.specs.Prelude.{◌≡◌, ◌≤◌, [], IfOk, OnErr, replicate};
ghost use Rattle.zq_links.specs.Frames.{frames_in};
ghost use Rattle.zq_peers.specs.Carried.{AreCarried};
ghost use Rattle.zq_peers.specs.Lossy.{each_to, IsPassed};

use crate::carry::{Carry, both};
use rand_core::SeedableRng;
use rand_core::utils::NextWord;
use rand_pcg::Pcg32;
use std::alloc::{AllocError, Global};
use zq_dots::SiteNo;
use zq_links::Faulty;

/// Carries frames over links that lose frames, double them and change their order: one [`Faulty`]
/// for each site, which is given the next word of a generator with each frame. What the link passes
/// on goes to the carrier inside.
#[derive(Drop)]
pub struct Lossy<C: Carry> {
    links: Vec<Faulty>,
    words: Pcg32,
    carrier: C,
}

impl<C: Carry + Drop> Lossy<C> {
    /// Links to the sites below this number, which hold nothing back, with words of a `Pcg32` of
    /// this seed. For no site it takes no memory.
    pub fn new(alloc: Global, sites: u8, seed: u64, carrier: C) -> Result<Lossy<C>, AllocError>
        ensures links { IfOk result (λ lossy. lossy.links.items ≡ replicate sites []) }
        ensures words { IfOk result (λ lossy. lossy.words ≡ pcg32_of_seed (pcg32_seed 16 seed)) }
        ensures carrier { IfOk result (λ lossy. lossy.carrier ≡ carrier) }
        ensures memory { OnErr result (1 ≤ sites) }
    {
        let mut links = Vec::new(alloc);
        for _site in 0..sites {
            links.push(Faulty::new())?;
        }
        Ok(Lossy {
            links,
            words: Pcg32::seed_from_u64(seed),
            carrier,
        })
    }
}

/// Carries each of the frames to the site, and says whether there was memory for all.
fn carry_all<C: Carry>(alloc: Global, carrier: &mut C, to: SiteNo, frames: Vec<Vec<u8>>) -> bool
    ensures { AreCarried C.carries carrier.old carrier.new (each_to to (frames_in frames)) result }
{
    let mut whole = true;
    for frame in frames {
        let carried = carrier.carry(alloc, to, frame);
        whole = both(whole, carried);
    }
    whole
}

/// Carries what the link passes on of a frame, to which the word draws a fault.
fn pass_over<C: Carry>(
    alloc: Global,
    link: &mut Faulty,
    carrier: &mut C,
    to: SiteNo,
    word: u32,
    frame: Vec<u8>,
) -> bool
    ensures { IsPassed C.carries link.old link.new carrier.old carrier.new to word frame.items
        result }
{
    match link.pass(alloc, word, frame) {
        Ok(frames) => carry_all(alloc, carrier, to, frames),
        Err(_) => false,
    }
}

impl<C: Carry> Carry for Lossy<C> {
    ghost use Rattle.zq_peers.specs.Lossy.{IsLossy};

    ghost carries = { λ old to frame whole new.
        IsLossy C.carries old.links.items new.links.items old.words new.words old.carrier
        new.carrier to frame whole };

    fn carry(&mut self, alloc: Global, to: SiteNo, frame: Vec<u8>) -> bool {
        let Some(link) = self.links.get_mut(usize::from(to.value())) else {
            return true;
        };
        let word = self.words.next_word();
        pass_over(alloc, link, &mut self.carrier, to, word, frame)
    }
}
