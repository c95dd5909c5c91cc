//! Commands by their words over the books of two sites, with one heap and with two. Expected bytes
//! are those of Redis and of the rules for merging.

ghost use Rattle.zq_model.specs.Sets.{IsHeaps};

mod apart;
mod deep;
mod drawn;
mod many;

use std::alloc::Global;
use std::process::Abort;
use std::test::Fail;
use zq_commands::SiteBooks;
use zq_dots::{Op, Rule, SiteNo};
use zq_journal::Book;
use zq_posheap::Seeded;
use zq_resp::{Reader, Request, write_reply};
use zq_words::Command;

/// What is done.
#[derive(Clone, Copy)]
enum Step {
    /// Both sites' books are empty again.
    Clear,
    /// The first site is asked, and answers these bytes.
    A(&'static str, &'static str),
    /// The second site.
    B(&'static str, &'static str),
    /// Each site takes the other's newest operation of each heap, twice.
    Swap,
    /// Each site merges the other's heaps.
    Meet,
}

use Step::{A, B, Clear, Meet, Swap};

const STEPS: [Step; 107] = [
    // Scores as texts.
    A("ZADD q 3.0 b", ":1\r\n"),
    A("ZSCORE q b", "$1\r\n3\r\n"),
    A("ZADD q -03.00 d", ":1\r\n"),
    A("ZSCORE q d", "$2\r\n-3\r\n"),
    A("ZSCORE q c", "$-1\r\n"),
    // The ends of the range.
    Clear,
    A("ZADD q 9007199254740992 m", ":1\r\n"),
    A("ZINCRBY q 1 m", "-ERR result out of range\r\n"),
    A("ZSCORE q m", "$16\r\n9007199254740992\r\n"),
    // A member named twice.
    Clear,
    A("ZADD q 1 x 2 x 0 y", ":2\r\n"),
    A(
        "ZRANGE q 0 -1 WITHSCORES",
        "*4\r\n$1\r\ny\r\n$1\r\n0\r\n$1\r\nx\r\n$1\r\n2\r\n",
    ),
    // Flags.
    Clear,
    A("ZADD q 5 x", ":1\r\n"),
    A("ZADD q GT CH 5 x", ":0\r\n"),
    A("ZADD q GT CH 6 x", ":1\r\n"),
    A("ZADD q NX 9 x", ":0\r\n"),
    A("ZADD q XX LT INCR 1 x", "$-1\r\n"),
    A("ZADD q CH 1 z 2 z", ":2\r\n"),
    // Equal scores go by bytes.
    Clear,
    A("ZADD q 0 b 0 a 0 ab 0 z", ":4\r\n"),
    A(
        "ZRANGE q 0 -1",
        "*4\r\n$1\r\na\r\n$2\r\nab\r\n$1\r\nb\r\n$1\r\nz\r\n",
    ),
    A(
        "ZRANGE q 0 -1 REV",
        "*4\r\n$1\r\nz\r\n$1\r\nb\r\n$2\r\nab\r\n$1\r\na\r\n",
    ),
    // Ranges.
    Clear,
    A("ZADD q 1 a 2 b 3 c 4 d", ":4\r\n"),
    A("ZRANGE q -2 -1", "*2\r\n$1\r\nc\r\n$1\r\nd\r\n"),
    A("ZRANGE q 5 9", "*0\r\n"),
    A("ZRANGE q 2 1", "*0\r\n"),
    A(
        "ZRANGE q 0 99",
        "*4\r\n$1\r\na\r\n$1\r\nb\r\n$1\r\nc\r\n$1\r\nd\r\n",
    ),
    A("ZRANGE q 2 1000000000000", "*2\r\n$1\r\nc\r\n$1\r\nd\r\n"),
    A(
        "ZRANGE q -inf +inf BYSCORE LIMIT 1 1000000000000",
        "*3\r\n$1\r\nb\r\n$1\r\nc\r\n$1\r\nd\r\n",
    ),
    A("ZRANGE q 0 0 REV", "*1\r\n$1\r\nd\r\n"),
    A(
        "ZRANGE q (1 +inf BYSCORE LIMIT 1 -1",
        "*2\r\n$1\r\nc\r\n$1\r\nd\r\n",
    ),
    A("ZRANGE q 3 (1 BYSCORE REV", "*2\r\n$1\r\nc\r\n$1\r\nb\r\n"),
    A("ZRANGE q 3 2 BYSCORE", "*0\r\n"),
    A("ZRANGE q -inf inf BYSCORE LIMIT -1 2", "*0\r\n"),
    A("ZCOUNT q (1 3", ":2\r\n"),
    A("ZRANK q c", ":2\r\n"),
    A("ZREVRANK q c", ":1\r\n"),
    A("ZRANK q none", "$-1\r\n"),
    A("ZCARD q", ":4\r\n"),
    A("DEL q q none", ":1\r\n"),
    A("ZCARD q", ":0\r\n"),
    // Equal scores, by score and from the greatest.
    Clear,
    A("ZADD q 1 a 2 b 2 c", ":3\r\n"),
    A("ZRANGE q 2 2 BYSCORE REV", "*2\r\n$1\r\nc\r\n$1\r\nb\r\n"),
    A(
        "ZRANGE q +inf (1 BYSCORE REV LIMIT 1 1 WITHSCORES",
        "*2\r\n$1\r\nb\r\n$1\r\n2\r\n",
    ),
    A("ZREM q a none a", ":1\r\n"),
    // Pops.
    Clear,
    A("ZPOPMIN none", "*0\r\n"),
    A("ZADD q 1 a 2 b", ":2\r\n"),
    A("ZPOPMIN q 0", "*0\r\n"),
    A(
        "ZPOPMIN q 5",
        "*4\r\n$1\r\na\r\n$1\r\n1\r\n$1\r\nb\r\n$1\r\n2\r\n",
    ),
    A("ZCARD q", ":0\r\n"),
    A("ZADD q 2 b 1 a", ":2\r\n"),
    A("ZPOPNEAR q", "*2\r\n$1\r\na\r\n$1\r\n1\r\n"),
    A(
        "ZADD q -5 a-member-of-forty-bytes-that-comes-first",
        ":1\r\n",
    ),
    A(
        "ZPOPMIN q",
        "*2\r\n$40\r\na-member-of-forty-bytes-that-comes-first\r\n$2\r\n-5\r\n",
    ),
    A("ZCARD q", ":1\r\n"),
    A("PING", "+PONG\r\n"),
    A("PING a", "$1\r\na\r\n"),
    // Increments of two sites add up, however often they come.
    Clear,
    A("ZADD q 10 x", ":1\r\n"),
    Meet,
    A("ZINCRBY q 5 x", "$2\r\n15\r\n"),
    B("ZINCRBY q 7 x", "$2\r\n17\r\n"),
    Swap,
    A("ZSCORE q x", "$2\r\n22\r\n"),
    B("ZSCORE q x", "$2\r\n22\r\n"),
    Meet,
    A("ZSCORE q x", "$2\r\n22\r\n"),
    B("ZSCORE q x", "$2\r\n22\r\n"),
    // A removal takes what it has seen, and the increments of that.
    Clear,
    A("ZADD q 3 x", ":1\r\n"),
    Meet,
    A("ZREM q x", ":1\r\n"),
    B("ZADD q 4 x", ":0\r\n"),
    Swap,
    A("ZSCORE q x", "$1\r\n4\r\n"),
    B("ZSCORE q x", "$1\r\n4\r\n"),
    A("ZREM q x", ":1\r\n"),
    B("ZINCRBY q 7 x", "$2\r\n11\r\n"),
    Meet,
    A("ZSCORE q x", "$-1\r\n"),
    B("ZSCORE q x", "$-1\r\n"),
    // The greatest of two scores put apart.
    Clear,
    A("ZADD q 5 x", ":1\r\n"),
    B("ZADD q 9 x", ":1\r\n"),
    Meet,
    A("ZSCORE q x", "$1\r\n9\r\n"),
    A("ZINCRBY q -6 x", "$1\r\n3\r\n"),
    Meet,
    B("ZSCORE q x", "$1\r\n3\r\n"),
    // Sums past the range of a score.
    Clear,
    A("ZADD q 0 x", ":1\r\n"),
    Meet,
    A(
        "ZINCRBY q 9007199254740992 x",
        "$16\r\n9007199254740992\r\n",
    ),
    B(
        "ZINCRBY q 9007199254740992 x",
        "$16\r\n9007199254740992\r\n",
    ),
    Swap,
    A("ZSCORE q x", "$17\r\n18014398509481984\r\n"),
    A("ZINCRBY q 1 x", "-ERR result out of range\r\n"),
    A(
        "ZINCRBY q -9007199254740992 x",
        "$16\r\n9007199254740992\r\n",
    ),
    // A member popped at both.
    Clear,
    A("ZADD q 1 x", ":1\r\n"),
    Meet,
    A("ZPOPMIN q", "*2\r\n$1\r\nx\r\n$1\r\n1\r\n"),
    B("ZPOPMIN q", "*2\r\n$1\r\nx\r\n$1\r\n1\r\n"),
];

/// The books of two sites.
#[derive(Drop)]
struct Sites {
    a: SiteBooks,
    b: SiteBooks,
}

impl Sites {
    fn new(alloc: Global, heaps: u8, rule: Rule) -> Result<Sites, Fail>
        requires { IsHeaps heaps }
    {
        let a = SiteBooks::new(alloc, heaps, rule, Seeded::new(1))?;
        let b = SiteBooks::new(alloc, heaps, rule, Seeded::new(2))?;
        Ok(Sites { a, b })
    }

    fn swap(&mut self, alloc: Global) -> Result<(), Fail> {
        let (from_a, from_b) = (
            newest(alloc, self.a.books())?,
            newest(alloc, self.b.books())?,
        );
        give(alloc, &from_a, &mut self.b)?;
        give(alloc, &from_b, &mut self.a)
    }

    fn meet(&mut self, alloc: Global) -> Result<(), Fail> {
        merge(alloc, &self.a, &mut self.b)?;
        merge(alloc, &self.b, &mut self.a)
    }
}

/// The newest operation of each heap that has one.
fn newest(alloc: Global, books: &[Book]) -> Result<Vec<Op>, Fail> {
    let mut ops = Vec::new(alloc);
    for book in books {
        if let Some(op) = book.newest(alloc)? {
            ops.push(op)?;
        }
    }
    Ok(ops)
}

/// Hands each operation to the book of its heap, twice.
fn give(alloc: Global, ops: &[Op], site: &mut SiteBooks) -> Result<(), Fail> {
    for op in ops {
        let stamp = site.stamp();
        site.take(alloc, stamp, op)?;
        let stamp = site.stamp();
        site.take(alloc, stamp, op)?;
    }
    Ok(())
}

/// Merges each heap of one site into the other.
fn merge(alloc: Global, from: &SiteBooks, site: &mut SiteBooks) -> Result<(), Fail> {
    for book in from.books() {
        let stamp = site.stamp();
        site.merge(alloc, stamp, book.shard())?;
    }
    Ok(())
}

/// The request of a line's words.
fn request(alloc: Global, line: &str) -> Result<Request, Fail> {
    let count = line.split(' ').count();
    let mut bytes = Vec::new(alloc);
    bytes.extend_from_slice(format!(in alloc; "*{count}\r\n")?.as_bytes())?;
    for word in line.split(' ') {
        let length = word.len();
        bytes.extend_from_slice(format!(in alloc; "${length}\r\n{word}\r\n")?.as_bytes())?;
    }
    let Ok(mut requests) = Reader::new().feed(alloc, bytes.as_slice()) else {
        return Err("no request".into());
    };
    Ok(requests.pop().ok_or("no request")?)
}

/// The bytes that a site answers to a line.
fn ask(alloc: Global, books: &mut SiteBooks, site: u8, line: &str) -> Result<Vec<u8>, Fail> {
    let site = SiteNo::new(site).ok_or("a site")?;
    let request = request(alloc, line)?;
    let Ok(command) = Command::read(alloc, &request) else {
        return Err("no command".into());
    };
    let stamp = books.stamp();
    let reply = books.run(alloc, site, stamp, &command);
    let mut bytes = Vec::new(alloc);
    write_reply(&mut bytes, &reply)?;
    Ok(bytes)
}

/// Makes an index of the key q in each book that has more than so many of its members.
fn index_all(alloc: Global, books: &mut SiteBooks, most: usize) {
    for heap in 0..2 {
        books.index(alloc, heap, b"q", most);
    }
}

/// Does a step.
fn take_step(
    rt: &impl Abort,
    alloc: Global,
    heaps: u8,
    sites: &mut Sites,
    step: Step,
) -> Result<(), Fail>
    requires { IsHeaps heaps }
{
    match step {
        Clear => *sites = Sites::new(alloc, heaps, Rule::High)?,
        A(line, says) => {
            let bytes = ask(alloc, &mut sites.a, 0, line)?;
            assert!(rt; bytes.as_slice() == says.as_bytes(), "{line}");
        }
        B(line, says) => {
            let bytes = ask(alloc, &mut sites.b, 1, line)?;
            assert!(rt; bytes.as_slice() == says.as_bytes(), "{line}");
        }
        Swap => sites.swap(alloc)?,
        Meet => sites.meet(alloc)?,
    }
    Ok(())
}

/// Does all steps, with an index of the key q in each book that has more than so many of its
/// members.
fn follow(rt: &impl Abort, alloc: Global, heaps: u8, most: usize) -> Result<(), Fail>
    requires { IsHeaps heaps }
{
    let mut sites = Sites::new(alloc, heaps, Rule::High)?;
    for step in STEPS.iter() {
        index_all(alloc, &mut sites.a, most);
        index_all(alloc, &mut sites.b, most);
        take_step(rt, alloc, heaps, &mut sites, *step)?;
    }
    Ok(())
}

#[test]
fn over_one_heap(rt: HostRuntime) -> Result<(), Fail> {
    follow(&rt, rt.alloc(), 1, usize::MAX)?;
    follow(&rt, rt.alloc(), 1, 2)
}

#[test]
fn over_two_heaps(rt: HostRuntime) -> Result<(), Fail> {
    follow(&rt, rt.alloc(), 2, usize::MAX)?;
    follow(&rt, rt.alloc(), 2, 2)
}
