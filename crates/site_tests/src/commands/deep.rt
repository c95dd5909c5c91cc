//! Ranges deep in a key. Its members stand in the order of their numbers, eight of each score, so
//! that a range is a run of numbers, up or down.

ghost use Rattle.zq_model.specs.Sets.{IsHeaps};

use super::ask;
use std::alloc::Global;
use std::process::Abort;
use std::test::Fail;
use zq_commands::SiteBooks;
use zq_dots::Rule;
use zq_posheap::Seeded;

/// The members are numbered from 0.
const MEMBERS: u32 = 700;

/// A range, the number of its first member, and how many there are.
#[derive(Clone, Copy)]
enum Row {
    /// The numbers rise.
    Up(&'static str, u32, u32),
    /// They fall.
    Down(&'static str, u32, u32),
}

use Row::{Down, Up};

const ROWS: [Row; 18] = [
    Up("ZRANGE q 3 5", 3, 3),
    Up("ZRANGE q 400 404", 400, 5),
    Up("ZRANGE q 655 -1", 655, 45),
    Up("ZRANGE q 699 699", 699, 1),
    Up("ZRANGE q 700 710", 0, 0),
    Up("ZRANGE q 500 400", 0, 0),
    Down("ZRANGE q 400 402 REV", 299, 3),
    Down("ZRANGE q -3 -1 REV", 2, 3),
    Up("ZRANGE q 20 60 BYSCORE LIMIT 150 10", 310, 10),
    Up("ZRANGE q (20 60 BYSCORE LIMIT 150 -1", 318, 170),
    Up("ZRANGE q 20 60 BYSCORE LIMIT 327 5", 487, 1),
    Up("ZRANGE q 20 60 BYSCORE LIMIT 328 5", 0, 0),
    Up("ZRANGE q -inf +inf BYSCORE LIMIT 690 20", 690, 10),
    Down("ZRANGE q 60 (20 BYSCORE REV LIMIT 200 7", 287, 7),
    Down("ZRANGE q +inf 10 BYSCORE REV LIMIT 600 -1", 99, 20),
    Up("ZRANGE q 690 1000000000000", 690, 10),
    Down("ZRANGE q 690 1000000000000 REV", 9, 10),
    Up("ZRANGE q 80 +inf BYSCORE LIMIT 40 1000000000000", 680, 20),
];

/// A site's books with the members, which come out of order.
fn filled(alloc: Global, heaps: u8) -> Result<SiteBooks, Fail>
    requires { IsHeaps heaps }
{
    let mut books = SiteBooks::new(alloc, heaps, Rule::High, Seeded::new(1))?;
    for turn in 0..MEMBERS {
        let number = turn * 389 % MEMBERS;
        let (score, member) = (number / 8, 100 + number);
        let line = format!(in alloc; "ZADD q {score} {member}")?;
        ask(alloc, &mut books, 0, &line)?;
    }
    Ok(books)
}

/// The reply of so many members.
fn reply(alloc: Global, first: u32, count: u32, is_down: bool) -> Result<Vec<u8>, Fail> {
    let mut bytes = Vec::new(alloc);
    bytes.extend_from_slice(format!(in alloc; "*{count}\r\n")?.as_bytes())?;
    for step in 0..count {
        let number = if is_down {
            first.saturating_sub(step)
        } else {
            first.saturating_add(step)
        };
        let member = number.saturating_add(100);
        bytes.extend_from_slice(format!(in alloc; "$3\r\n{member}\r\n")?.as_bytes())?;
    }
    Ok(bytes)
}

fn follow(rt: &impl Abort, alloc: Global, heaps: u8) -> Result<(), Fail>
    requires { IsHeaps heaps }
{
    let mut books = filled(alloc, heaps)?;
    for row in ROWS.iter() {
        let (line, first, count, is_down) = match *row {
            Up(line, first, count) => (line, first, count, false),
            Down(line, first, count) => (line, first, count, true),
        };
        let bytes = ask(alloc, &mut books, 0, line)?;
        let says = reply(alloc, first, count, is_down)?;
        assert!(rt; bytes.as_slice() == says.as_slice(), "{line}");
    }
    Ok(())
}

#[test]
fn over_one_heap(rt: HostRuntime) -> Result<(), Fail> {
    follow(&rt, rt.alloc(), 1)
}

#[test]
fn over_two_heaps(rt: HostRuntime) -> Result<(), Fail> {
    follow(&rt, rt.alloc(), 2)
}

#[test]
fn over_five_heaps(rt: HostRuntime) -> Result<(), Fail> {
    follow(&rt, rt.alloc(), 5)
}
