//! What clients ask.

use crate::draws::Draws;
use crate::plan::Plan;
use std::alloc::{AllocError, Global};

/// How many members a long line has.
const LONG: usize = 200;

/// Draws a client's line.
pub fn drawn_line(alloc: Global, draws: &mut Draws, plan: &Plan) -> Result<String, AllocError> {
    let key = draws.below(plan.keys);
    let member = draws.below(plan.members);
    let other = draws.below(plan.members);
    let score = draws.below(40);
    match draws.below(20) {
        0..=5 => format!(in alloc; "ZADD q{key} {score} m{member}"),
        6..=7 => format!(in alloc; "ZADD q{key} {score} m{member} 7 m{other}"),
        8..=10 => format!(in alloc; "ZINCRBY q{key} {score} m{member}"),
        11..=12 => format!(in alloc; "ZINCRBY q{key} -{score} m{member}"),
        13..=15 => format!(in alloc; "ZREM q{key} m{member}"),
        16..=17 => format!(in alloc; "ZPOPMIN q{key}"),
        18 => format!(in alloc; "ZPOPMIN q{key} 3"),
        _ => format!(in alloc; "DEL q{key}"),
    }
}

/// Draws a line that puts many members at once.
pub fn long_line(alloc: Global, draws: &mut Draws, plan: &Plan) -> Result<String, AllocError> {
    let key = draws.below(plan.keys);
    let mut line = format!(in alloc; "ZADD q{key}")?;
    for member in 0..LONG {
        let score = draws.below(40);
        let part = format!(in alloc; " {score} m{member}")?;
        line.push_str(&part)?;
    }
    Ok(line)
}
