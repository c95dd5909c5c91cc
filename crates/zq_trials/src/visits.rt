//! Cases that ask a site by one pass.
ghost use Rattle.std.specs.Prelude.{◌≡◌, All, IfSome};
ghost use Rattle.zq_spread.specs.Calls.{heaps_of};
ghost use Rattle.zq_spread.specs.Passes.{IsPassOf};

use crate::books::opened_over;
use crate::commands::{Row, followed};
use crate::ended::{Ended, Tried, judge};
use crate::indexes::filled;
use crate::lines::{Line, all_asked};
use crate::merging::met;
use crate::sites::{are_audited, last_pass, opened_with};
use crate::worn::worn_book;
use crate::{indexes, worn};
use std::alloc::Global;
use std::sync::Wait;
use zq_dots::SiteNo;
use zq_spread::{Pass, Site};

/// What is asked of a site.
#[derive(Clone, Copy)]
pub enum Visit<'a> {
    /// The command of a row, at a site that has done nothing.
    Command(&'a Row),
    /// A merge, at a site that has done nothing.
    Merge,
    /// Lines, of which a growth is refused, at a site with many members.
    Index,
    /// Lines, at a site that has no counter left.
    Worn,
}

/// The site that is asked, and its pass.
fn opened(alloc: Global, visit: Visit) -> Option<(Site, Vec<Pass>)>
    ensures heaps { IfSome result (λ made. heaps_of made.0 ≡ 2) }
    ensures passes { IfSome result (λ made. All (IsPassOf made.0) made.1.items) }
{
    match visit {
        Visit::Command(_) | Visit::Merge => opened_with(alloc, SiteNo::new(0)?, 1),
        Visit::Index => opened_over(alloc, filled(alloc)?),
        Visit::Worn => opened_over(alloc, worn_book(alloc)?),
    }
}

/// How it ends where lines are asked: as all of them are answered.
fn lines_asked<R: Wait>(
    rt: &R,
    alloc: Global,
    site: &Site,
    pass: &mut Pass,
    lines: &[Line],
    tries: usize,
) -> Option<Ended>
    requires { IsPassOf site.now pass.old }
    ensures { IsPassOf site.now pass.new }
{
    Some(match all_asked(rt, alloc, site, pass, lines)? {
        Tried::Done => Ended::Owed(tries),
        tried => judge(tried, true, true),
    })
}

/// How the visit ends.
fn made_at<R: Wait>(
    rt: &R,
    alloc: Global,
    site: &Site,
    pass: &mut Pass,
    visit: Visit,
) -> Option<Ended>
    requires pass { IsPassOf site.now pass.old }
    requires heaps { heaps_of site.now ≡ 2 }
    ensures { IsPassOf site.now pass.new }
{
    match visit {
        Visit::Command(row) => followed(rt, alloc, site, pass, row),
        Visit::Merge => met(rt, alloc, site, pass),
        Visit::Index => lines_asked(rt, alloc, site, pass, &indexes::LINES, 1),
        Visit::Worn => lines_asked(rt, alloc, site, pass, &worn::LINES, worn::LINES.len()),
    }
}

/// How a visit of a new site ends, after which the records of both heaps have to give what these
/// have.
pub fn visited<R: Wait>(rt: &R, alloc: Global, visit: Visit) -> Option<Ended> {
    let (site, mut passes) = opened(alloc, visit)?;
    let mut pass = last_pass(&site, &mut passes)?;
    let ended = made_at(rt, alloc, &site, &mut pass, visit)?;
    Some(if are_audited(alloc, &site, pass)? {
        ended
    } else {
        Ended::Wrong
    })
}
