//! Commands of which a growth is refused, at a site of two heaps. Of key q the members a and c lie
//! in heap 0 and b in heap 1.
ghost use Rattle.std.specs.Prelude.{◌≡◌, ◌<◌, length};
ghost use Rattle.zq_spread.specs.Calls.{heaps_of};
ghost use Rattle.zq_spread.specs.Passes.{IsPassOf};

use crate::ended::Ended;
use crate::sites::{answer, is_answered, made};
use std::alloc::Global;
use std::sync::Wait;
use zq_spread::{Pass, Site};

/// A call that had no memory: what it says, what ZCARD says then, and what the same call says once
/// more. Its place in a list is how many of its operations stand.
struct Cut {
    told: &'static str,
    left: &'static str,
    again: &'static str,
}

/// A command: the line that is asked before it, or none, and how many operations that makes; the
/// command, what it says with memory, what it says where it is cut, and what ZRANGE says in the
/// end.
pub struct Row {
    pub name: &'static str,
    before: &'static str,
    made: usize,
    asked: &'static str,
    owed: &'static str,
    cuts: &'static [Cut],
    end: &'static str,
}

const FILL: &str = "ZADD q 1 a 2 b 3 c";

/// The same with members that are too long to lie in a reply: a pop, and a DEL, takes memory for
/// each. They lie in the same heaps.
const FILL_LONG: &str = "ZADD q 1 long-member-name-a 2 long-member-name-b 3 long-member-name-c";

const ALL: &str = "*6\r\n$1\r\na\r\n$1\r\n1\r\n$1\r\nb\r\n$1\r\n2\r\n$1\r\nc\r\n$1\r\n3\r\n";

const ALL_LONG: &str =
    "*6\r\n$18\r\nlong-member-name-a\r\n$1\r\n1\r\n$18\r\nlong-member-name-b\r\n$1\r\n2\r\n$18\r\nlong-member-name-c\r\n$1\r\n3\r\n";

/// What a call says that had no memory for its first operation.
pub const REFUSED: &str = "-OOM after 0\r\n";

/// The commands, by the names of their cases.
pub const ROWS: [Row; 8] = [
    Row {
        name: "zadd",
        before: "",
        made: 0,
        asked: FILL,
        owed: ":3\r\n",
        cuts: &[
            Cut {
                told: REFUSED,
                left: ":0\r\n",
                again: ":3\r\n",
            },
            Cut {
                told: "-OOM after 1\r\n",
                left: ":1\r\n",
                again: ":2\r\n",
            },
            Cut {
                told: "-OOM after 2\r\n",
                left: ":2\r\n",
                again: ":1\r\n",
            },
        ],
        end: ALL,
    },
    Row {
        name: "zrem",
        before: FILL,
        made: 3,
        asked: "ZREM q a b c",
        owed: ":3\r\n",
        cuts: &[
            Cut {
                told: REFUSED,
                left: ":3\r\n",
                again: ":3\r\n",
            },
            Cut {
                told: "-OOM after 1\r\n",
                left: ":2\r\n",
                again: ":2\r\n",
            },
            Cut {
                told: "-OOM after 2\r\n",
                left: ":1\r\n",
                again: ":1\r\n",
            },
        ],
        end: "*0\r\n",
    },
    Row {
        name: "del",
        before: FILL_LONG,
        made: 3,
        asked: "DEL q",
        owed: ":1\r\n",
        cuts: &[
            Cut {
                told: REFUSED,
                left: ":3\r\n",
                again: ":1\r\n",
            },
            Cut {
                told: "-OOM after 1\r\n",
                left: ":2\r\n",
                again: ":1\r\n",
            },
            Cut {
                told: "-OOM after 2\r\n",
                left: ":1\r\n",
                again: ":1\r\n",
            },
        ],
        end: "*0\r\n",
    },
    Row {
        name: "zpopmin",
        before: FILL_LONG,
        made: 3,
        asked: "ZPOPMIN q 3",
        owed: ALL_LONG,
        cuts: &[
            Cut {
                told: REFUSED,
                left: ":3\r\n",
                again: ALL_LONG,
            },
            Cut {
                told: "*2\r\n$18\r\nlong-member-name-a\r\n$1\r\n1\r\n",
                left: ":2\r\n",
                again: "*4\r\n$18\r\nlong-member-name-b\r\n$1\r\n2\r\n$18\r\nlong-member-name-c\r\n$1\r\n3\r\n",
            },
            Cut {
                told: "*4\r\n$18\r\nlong-member-name-a\r\n$1\r\n1\r\n$18\r\nlong-member-name-b\r\n$1\r\n2\r\n",
                left: ":1\r\n",
                again: "*2\r\n$18\r\nlong-member-name-c\r\n$1\r\n3\r\n",
            },
        ],
        end: "*0\r\n",
    },
    Row {
        name: "zpopnear",
        before: FILL,
        made: 3,
        asked: "ZPOPNEAR q",
        owed: "*2\r\n$1\r\na\r\n$1\r\n1\r\n",
        cuts: &[Cut {
            told: REFUSED,
            left: ":3\r\n",
            again: "*2\r\n$1\r\na\r\n$1\r\n1\r\n",
        }],
        end: "*4\r\n$1\r\nb\r\n$1\r\n2\r\n$1\r\nc\r\n$1\r\n3\r\n",
    },
    // Of another key: to raise a member's score takes no memory.
    Row {
        name: "zincrby",
        before: FILL,
        made: 3,
        asked: "ZINCRBY r 1 a",
        owed: "$1\r\n1\r\n",
        cuts: &[Cut {
            told: REFUSED,
            left: ":3\r\n",
            again: "$1\r\n1\r\n",
        }],
        end: ALL,
    },
    Row {
        name: "zrange",
        before: FILL,
        made: 3,
        asked: "ZRANGE q 0 -1 WITHSCORES",
        owed: ALL,
        cuts: &[Cut {
            told: REFUSED,
            left: ":3\r\n",
            again: ALL,
        }],
        end: ALL,
    },
    // It reads one member's score, which takes no memory.
    Row {
        name: "zscore",
        before: FILL,
        made: 3,
        asked: "ZSCORE q b",
        owed: "$1\r\n2\r\n",
        cuts: &[],
        end: ALL,
    },
];

/// Whether a call stands as its cut says: by ZCARD, by the operations of the records, and by the
/// same call once more.
fn stands<R: Wait>(
    rt: &R,
    alloc: Global,
    site: &Site,
    pass: &mut Pass,
    row: &Row,
    done: usize,
) -> Option<bool>
    requires pass { IsPassOf site.now pass.old }
    requires heaps { heaps_of site.now ≡ 2 }
    requires done { done < length row.now.cuts.now }
    ensures { IsPassOf site.now pass.new }
{
    let cut = &row.cuts[done];
    let left = is_answered(rt, alloc, site, pass, "ZCARD q", cut.left)?;
    let operations = made(rt, alloc, site, pass)?;
    let again = is_answered(rt, alloc, site, pass, row.asked, cut.again)?;
    Some(left && again && operations == row.made.saturating_add(done))
}

/// How a command ends that says this.
fn judged<R: Wait>(
    rt: &R,
    alloc: Global,
    site: &Site,
    pass: &mut Pass,
    row: &Row,
    told: &[u8],
) -> Option<Ended>
    requires pass { IsPassOf site.now pass.old }
    requires heaps { heaps_of site.now ≡ 2 }
    ensures { IsPassOf site.now pass.new }
{
    if told == row.owed.as_bytes() {
        return Some(Ended::Owed(1));
    }
    let cut = row.cuts.iter().position(|cut| cut.told.as_bytes() == told);
    match cut {
        Some(done) if stands(rt, alloc, site, pass, row, done)? => Some(Ended::Refused(done)),
        _ => Some(Ended::Wrong),
    }
}

/// Asks the line before a command, if there is one. `None` where it did not make what it makes.
fn prepared<R: Wait>(rt: &R, alloc: Global, site: &Site, pass: &mut Pass, row: &Row) -> Option<()>
    requires pass { IsPassOf site.now pass.old }
    requires heaps { heaps_of site.now ≡ 2 }
    ensures { IsPassOf site.now pass.new }
{
    if row.before.is_empty() {
        return Some(());
    }
    answer(rt, alloc, site, pass, row.before)?;
    if made(rt, alloc, site, pass)? == row.made {
        Some(())
    } else {
        None
    }
}

/// How a command ends that is asked now.
fn asked<R: Wait>(rt: &R, alloc: Global, site: &Site, pass: &mut Pass, row: &Row) -> Option<Ended>
    requires pass { IsPassOf site.now pass.old }
    requires heaps { heaps_of site.now ≡ 2 }
    ensures { IsPassOf site.now pass.new }
{
    let told = answer(rt, alloc, site, pass, row.asked)?;
    judged(rt, alloc, site, pass, row, &told)
}

/// How a command ends after which ZRANGE says this. Where it had its memory and ZRANGE had none,
/// there is nothing to say of it.
fn in_the_end(row: &Row, ended: Ended, last: &[u8]) -> Option<Ended> {
    match ended {
        Ended::Owed(_) if last == REFUSED.as_bytes() => None,
        _ if last == row.end.as_bytes() => Some(ended),
        _ => Some(Ended::Wrong),
    }
}

/// How the command of a row ends at a site that has done nothing.
pub fn followed<R: Wait>(
    rt: &R,
    alloc: Global,
    site: &Site,
    pass: &mut Pass,
    row: &Row,
) -> Option<Ended>
    requires pass { IsPassOf site.now pass.old }
    requires heaps { heaps_of site.now ≡ 2 }
    ensures { IsPassOf site.now pass.new }
{
    prepared(rt, alloc, site, pass, row)?;
    let ended = asked(rt, alloc, site, pass, row)?;
    let last = answer(rt, alloc, site, pass, "ZRANGE q 0 -1 WITHSCORES")?;
    in_the_end(row, ended, &last)
}
