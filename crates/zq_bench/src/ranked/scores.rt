//! Scores that are drawn.
use crate::draws::draw_score;
use rand_pcg::Pcg64;
use std::alloc::{AllocError, Global};

/// So many scores.
pub fn drawn(alloc: Global, draws: &mut Pcg64, count: u32) -> Result<Vec<i128>, AllocError> {
    let mut scores = Vec::new(alloc);
    for _ in 0..count {
        scores.push(draw_score(draws))?;
    }
    Ok(scores)
}
