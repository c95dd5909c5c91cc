//! Control frames that are drawn.

ghost use Rattle.std.specs.Prelude.{IfSome, ◌<◌, ◌≡◌, ◌≤◌};
ghost use Rattle.zq_links.specs.Control.{IsHeapOf, IsWritable};
ghost use Rattle.zq_model.specs.Sets.{IsCounters};

use rand_core::Rng;
use rand_pcg::Pcg64;
use zq_dots::{LAST_COUNTER, Rule, SiteNo, Vector};
use zq_links::{At, Behind, Control, Fetch, Resume, Routes, Spot};

/// A number of heaps, and a heap below it.
fn drawn_heap(draws: &mut Pcg64) -> (u8, u8)
    ensures { IsHeapOf result.0 result.1 }
{
    let heaps = 1 + (draws.next_u64() % 16) as u8;
    let heap = (draws.next_u64() % u64::from(heaps)) as u8;
    (heaps, heap)
}

fn drawn_routes(draws: &mut Pcg64) -> Routes {
    Routes {
        reach: draws.next_u64(),
        ask: draws.next_u64(),
        far: draws.next_u64(),
    }
}

/// A counter for each of the first sites, of which there are up to 64. One in four is 0.
#[tactic(auto, unfolding(zq_model::specs::Sets::LAST))]
fn drawn_vector(draws: &mut Pcg64) -> Vector {
    let mut vector = Vector::new();
    let sites = (draws.next_u64() % 65) as u8;
    for number in 0..sites {
        let word = draws.next_u64();
        if let Some(site) = SiteNo::new(number) {
            let counter = if word % 4 == 0 {
                0
            } else {
                (word >> 2) % (LAST_COUNTER + 1)
            };
            vector.set(site, counter);
        }
    }
    vector
}

fn drawn_at(draws: &mut Pcg64) -> At
    ensures { IsHeapOf result.heaps result.heap }
{
    let (heaps, heap) = drawn_heap(draws);
    let flags = draws.next_u64();
    At {
        heaps,
        heap,
        rule: if flags % 2 == 0 {
            Rule::High
        } else {
            Rule::Low
        },
        open: flags / 2 % 2 == 0,
        turn: draws.next_u64(),
        echo: draws.next_u64(),
        window: draws.next_u64(),
        routes: drawn_routes(draws),
        vector: drawn_vector(draws),
    }
}

/// What a stage stands at, or nothing.
fn drawn_resume(draws: &mut Pcg64) -> Option<Resume>
    ensures { IfSome result (λ r. IsCounters r.vector) }
{
    if draws.next_u64() % 2 == 0 {
        return None;
    }
    Some(Resume {
        life: draws.next_u64(),
        number: draws.next_u32(),
        next: Spot {
            key: draws.next_u64(),
            member: draws.next_u64(),
        },
        vector: drawn_vector(draws),
    })
}

/// A control frame of any kind.
pub fn drawn_control(draws: &mut Pcg64) -> Control
    ensures { IsWritable result }
{
    match draws.next_u64() % 4 {
        0 => Control::Routes(drawn_routes(draws)),
        1 => Control::At(drawn_at(draws)),
        2 => {
            let (heaps, heap) = drawn_heap(draws);
            Control::Behind(Behind {
                heaps,
                heap,
                vector: drawn_vector(draws),
            })
        }
        _ => {
            let (heaps, heap) = drawn_heap(draws);
            Control::Fetch(Fetch {
                heaps,
                heap,
                resume: drawn_resume(draws),
            })
        }
    }
}
