//! Lines that a site is asked, and what it answers them.
ghost use Rattle.zq_spread.specs.Passes.{IsPassOf};

use crate::commands::REFUSED;
use crate::ended::Tried;
use crate::sites::{answer, is_answered};
use std::alloc::Global;
use std::sync::Wait;
use zq_spread::{Pass, Site};

/// What is asked, and what is answered.
pub type Line = (&'static str, &'static str);

/// What a line says. One that had no memory is asked once more, and has to be answered as it is
/// owed then.
fn asked<R: Wait>(
    rt: &R,
    alloc: Global,
    site: &Site,
    pass: &mut Pass,
    line: &str,
    owed: &str,
) -> Option<Tried>
    requires { IsPassOf site.now pass.old }
    ensures { IsPassOf site.now pass.new }
{
    let first = told(rt, alloc, site, pass, line, owed)?;
    if first != Tried::Refused {
        return Some(first);
    }
    let again = is_answered(rt, alloc, site, pass, line, owed)?;
    Some(if again { Tried::Refused } else { Tried::Other })
}

/// What a line says: what is owed, that it had no memory for its first operation, or something
/// else.
fn told<R: Wait>(
    rt: &R,
    alloc: Global,
    site: &Site,
    pass: &mut Pass,
    line: &str,
    owed: &str,
) -> Option<Tried>
    requires { IsPassOf site.now pass.old }
    ensures { IsPassOf site.now pass.new }
{
    let told = answer(rt, alloc, site, pass, line)?;
    Some(if told.as_slice() == owed.as_bytes() {
        Tried::Done
    } else if told.as_slice() == REFUSED.as_bytes() {
        Tried::Refused
    } else {
        Tried::Other
    })
}

/// What the lines say: that one had no memory, unless one says something else than it is owed.
pub fn all_asked<R: Wait>(
    rt: &R,
    alloc: Global,
    site: &Site,
    pass: &mut Pass,
    lines: &[Line],
) -> Option<Tried>
    requires { IsPassOf site.now pass.old }
    ensures { IsPassOf site.now pass.new }
{
    let mut all = Tried::Done;
    for (line, owed) in lines {
        let tried = asked(rt, alloc, site, pass, line, owed)?;
        if tried != Tried::Done && all != Tried::Other {
            all = tried;
        }
    }
    Some(all)
}
