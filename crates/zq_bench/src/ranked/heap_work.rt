//! The steps of a `PosHeap` that are timed.
use crate::draws::{draw_below, draw_score};
use crate::members::{LENGTH, member_of};
use crate::ranked::Sizes;
use rand_pcg::Pcg64;
use std::alloc::AllocError;
use zq_posheap::PosHeap;

/// Gives a member of its own each score.
pub fn set_all(heap: &mut PosHeap<()>, scores: &[i128]) -> Result<(), AllocError> {
    let mut number = 0u32;
    for score in scores {
        heap.set(&member_of(number), *score, ())?;
        number = number.wrapping_add(1);
    }
    Ok(())
}

/// Gives drawn members drawn scores.
pub fn change(heap: &mut PosHeap<()>, draws: &mut Pcg64, sizes: Sizes) -> Result<(), AllocError> {
    for _ in 0..sizes.steps {
        let member = member_of(draw_below(draws, sizes.pairs));
        heap.set(&member, draw_score(draws), ())?;
    }
    Ok(())
}

/// Takes out the first half of the members.
pub fn remove_half(heap: &mut PosHeap<()>, pairs: u32) {
    for number in 0..pairs / 2 {
        heap.remove(&member_of(number));
    }
}

/// Takes the first out so often.
pub fn pop_all(heap: &mut PosHeap<()>, pairs: u32) {
    for _ in 0..pairs {
        let Some((_, first)) = heap.top() else {
            return;
        };
        let Ok(member) = <[u8; LENGTH]>::try_from(first) else {
            return;
        };
        heap.remove(&member);
    }
}
