//! Steps a second of a `PosHeap`, which gives members, of so many, drawn scores, and then as often
//! takes the first member out and puts it back with a later score.
mod work;

use crate::clock::{now, rate, since};
use crate::numbers::number_of;
use rand_pcg::Pcg64;
use std::alloc::Global;
use std::rt::Clock;
use work::{set_drawn, take_and_put_back};
use zq_posheap::PosHeap;

/// How many steps of each kind are taken, over how many members, and whether each has a value of 64
/// bytes or none.
#[derive(Clone, Copy)]
pub struct Sizes {
    pub steps: u32,
    pub members: u32,
    pub is_wide: bool,
}

/// What the words `STEPS MEMBERS` ask for, or `STEPS MEMBERS wide`.
pub fn read(words: &[String]) -> Option<Sizes> {
    let (steps, members, is_wide) = match words {
        [steps, members] => (steps, members, false),
        [steps, members, word] if word.as_str() == "wide" => (steps, members, true),
        _ => return None,
    };
    Some(Sizes {
        steps: number_of(steps)?,
        members: number_of(members)?,
        is_wide,
    })
}

/// Standard output has a checksum of what was taken, and standard error the steps a second of both
/// kinds.
pub fn measure<R: Clock + Print + Eprint>(rt: &R, alloc: Global, sizes: Sizes) -> Option<()> {
    if sizes.is_wide {
        time(rt, alloc, sizes, [0u64; 8])
    } else {
        time(rt, alloc, sizes, ())
    }
}

/// Times both kinds of steps over members that have this value.
fn time<R: Clock + Print + Eprint, V: Copy + Drop>(
    rt: &R,
    alloc: Global,
    sizes: Sizes,
    value: V,
) -> Option<()> {
    let mut heap = PosHeap::new(alloc);
    time_steps(rt, &mut heap, sizes, value)
}

fn time_steps<R: Clock + Print + Eprint, V: Copy + Drop>(
    rt: &R,
    heap: &mut PosHeap<V>,
    sizes: Sizes,
    value: V,
) -> Option<()> {
    let Sizes { steps, members, .. } = sizes;
    let mut draws = Pcg64::new(1, 1);
    let began = now(rt);
    set_drawn(heap, &mut draws, steps, members, value).ok()?;
    let sets = since(rt, began);
    let began = now(rt);
    let checksum = take_and_put_back(heap, &mut draws, steps, value).ok()?;
    let takes = since(rt, began);
    println!(rt; "checksum {checksum:016x}, {} members", heap.len()).ok()?;
    eprintln!(rt; "set {}", rate(u128::from(steps), sets)).ok()?;
    eprintln!(rt; "take {}", rate(u128::from(steps), takes)).ok()
}
