//! The steps of a `PosHeap` that are timed.
use crate::checksum::folded;
use crate::draws::{draw_below, draw_score};
use crate::members::{LENGTH, member_of};
use rand_pcg::Pcg64;
use std::alloc::AllocError;
use zq_posheap::PosHeap;

/// Gives drawn members drawn scores.
pub fn set_drawn<V: Copy + Drop>(
    heap: &mut PosHeap<V>,
    draws: &mut Pcg64,
    steps: u32,
    members: u32,
    value: V,
) -> Result<(), AllocError> {
    for _ in 0..steps {
        let member = member_of(draw_below(draws, members));
        heap.set(&member, draw_score(draws), value)?;
    }
    Ok(())
}

/// Takes the first out and puts it back with a later score, and answers a checksum of what was
/// taken.
pub fn take_and_put_back<V: Copy + Drop>(
    heap: &mut PosHeap<V>,
    draws: &mut Pcg64,
    steps: u32,
    value: V,
) -> Result<u64, AllocError> {
    let mut checksum = 0;
    for _ in 0..steps {
        let Some((score, first)) = heap.top() else {
            return Ok(checksum);
        };
        let Ok(member) = <[u8; LENGTH]>::try_from(first) else {
            return Ok(checksum);
        };
        checksum = folded(checksum, score, &member);
        heap.remove(&member);
        heap.set(&member, score.saturating_add(draw_score(draws)), value)?;
    }
    Ok(checksum)
}
