//! What the clients of the sites ask for.
ghost use Rattle.zq_spread.specs.Passes.{IsPassOf};

use crate::requests::request;
use std::alloc::Global;
use std::sync::Wait;
use zq_resp::Reply;
use zq_spread::{Pass, Site};
use zq_words::Command;

/// What a site answers a command.
fn reply_of<R: Wait>(
    rt: &R,
    alloc: Global,
    site: &Site,
    pass: &mut Pass,
    command: &Command,
) -> Reply
    requires { IsPassOf site.now pass.old }
    ensures { IsPassOf site.now pass.new }
{
    site.call(rt, alloc, pass, command, 0, 0)
}

/// The number that a site answers a line's command by.
pub fn number_of<R: Wait>(
    rt: &R,
    alloc: Global,
    site: &Site,
    pass: &mut Pass,
    line: &str,
) -> Option<i64>
    requires { IsPassOf site.now pass.old }
    ensures { IsPassOf site.now pass.new }
{
    let request = request(alloc, line)?;
    let command = Command::read(alloc, &request).ok()?;
    match reply_of(rt, alloc, site, pass, &command) {
        Reply::Integer(number) => Some(number),
        _ => None,
    }
}

/// Adds the members of these turns to the board, each with a score of its own.
pub fn add_members<R: Wait>(
    rt: &R,
    alloc: Global,
    site: &Site,
    pass: &mut Pass,
    first: u32,
    end: u32,
) -> Option<()>
    requires { IsPassOf site.now pass.old }
    ensures { IsPassOf site.now pass.new }
{
    for turn in first..end {
        let score = turn.wrapping_mul(7919) % 1_000_003;
        let line = format!(in alloc; "ZADD board {score} member:{turn}").ok()?;
        number_of(rt, alloc, site, pass, &line)?;
    }
    Some(())
}
