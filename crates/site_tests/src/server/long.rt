//! Members and keys of many bytes, and replies of many parts.

use super::asking::{answered, letters, push_bulk, push_request};
use super::passing::opened;
use std::alloc::Global;
use std::process::Abort;
use std::sync::Wait;
use std::test::Fail;
use zq_session::{Answers, Passing, Plain, SitePass};
use zq_spread::Draws;

/// A request, and its reply. The member stands in the place of each `@`, as a bulk string in a
/// reply.
type Line = (&'static str, &'static str);

/// The lengths of members, from those about the most that a reply holds in itself.
const LENGTHS: [usize; 5] = [16, 17, 513, 4096, 65_536];

const LINES: [Line; 20] = [
    ("PING @", "@"),
    ("ZADD q 3 @", ":1\r\n"),
    ("ZSCORE q @", "$1\r\n3\r\n"),
    ("ZRANK q @", ":0\r\n"),
    ("ZRANGE q 0 -1 WITHSCORES", "*2\r\n@$1\r\n3\r\n"),
    ("ZINCRBY q 2 @", "$1\r\n5\r\n"),
    ("ZRANGE q 5 5 BYSCORE", "*1\r\n@"),
    ("ZPOPMIN q", "*2\r\n@$1\r\n5\r\n"),
    ("ZADD q 4 @ 6 z", ":2\r\n"),
    ("ZPOPMIN q 2", "*4\r\n@$1\r\n4\r\n$1\r\nz\r\n$1\r\n6\r\n"),
    ("ZADD q 7 @", ":1\r\n"),
    ("ZPOPNEAR q", "*2\r\n@$1\r\n7\r\n"),
    ("ZADD q 8 @", ":1\r\n"),
    ("ZREM q @ @", ":1\r\n"),
    ("ZADD q 9 @", ":1\r\n"),
    ("DEL q", ":1\r\n"),
    ("ZSCORE q @", "$-1\r\n"),
    ("ZADD @ 1 @", ":1\r\n"),
    ("ZPOPMIN @", "*2\r\n@$1\r\n1\r\n"),
    ("ZCARD @", ":0\r\n"),
];

/// As many bytes as a member may have.
const MOST: [usize; 1] = [1_048_576];

const FEW_LINES: [Line; 2] = [
    ("ZADD q 3 @", ":1\r\n"),
    ("ZPOPMIN q", "*2\r\n@$1\r\n3\r\n"),
];

/// A reply's bytes, with the member in its places.
fn reply(alloc: Global, says: &str, member: &[u8]) -> Result<Vec<u8>, Fail> {
    let mut bytes = Vec::new(alloc);
    for byte in says.as_bytes() {
        match *byte {
            b'@' => push_bulk(alloc, &mut bytes, member)?,
            _ => bytes.push(*byte)?,
        }
    }
    Ok(bytes)
}

/// Asks a server without keys all lines, with a member of each length.
fn follow<A: Answers>(
    rt: &impl Abort,
    alloc: Global,
    server: &mut A,
    lengths: &[usize],
    lines: &[(&str, &str)],
) -> Result<(), Fail> {
    for length in lengths {
        let member = letters(alloc, *length)?;
        for (line, says) in lines {
            let mut asked = Vec::new(alloc);
            push_request(alloc, &mut asked, line, &member)?;
            let bytes = answered(alloc, server, &asked)?;
            let says = reply(alloc, says, &member)?;
            assert!(rt;
                bytes.as_slice() == says.as_slice(),
                "{line}, {length} bytes"
            );
        }
    }
    Ok(())
}

fn follow_site<R: Wait + Abort>(rt: &R, alloc: Global) -> Result<(), Fail> {
    let (site, passes) = opened(alloc, 1)?;
    for pass in passes {
        let mut own = SitePass::new(&site, pass);
        let mut server = Passing::new(rt, &mut own, Draws::new(1));
        follow(rt, alloc, &mut server, &LENGTHS, &LINES)?;
    }
    Ok(())
}

#[test]
fn long_members_are_answered(rt: HostRuntime) -> Result<(), Fail> {
    let mut server = Plain::new(rt.alloc(), 2)?;
    follow(&rt, rt.alloc(), &mut server, &LENGTHS, &LINES)?;
    follow(&rt, rt.alloc(), &mut server, &MOST, &FEW_LINES)?;
    follow_site(&rt, rt.alloc())
}

/// The words of so many members with their scores, which are also the parts of a reply. A member is
/// a number from 1,000 on, and has itself as its score.
fn pairs(alloc: Global) -> Result<Vec<u8>, Fail> {
    let mut bytes = Vec::new(alloc);
    for number in 1000..4000u32 {
        let pair = format!(in alloc; "$4\r\n{number}\r\n$4\r\n{number}\r\n")?;
        bytes.extend_from_slice(pair.as_bytes())?;
    }
    Ok(bytes)
}

/// These bytes, one after the other.
fn joined(alloc: Global, parts: &[&[u8]]) -> Result<Vec<u8>, Fail> {
    let mut bytes = Vec::new(alloc);
    for part in parts {
        bytes.extend_from_slice(part)?;
    }
    Ok(bytes)
}

const RANGE: &[u8] =
    b"*5\r\n$6\r\nZRANGE\r\n$1\r\nq\r\n$1\r\n0\r\n$2\r\n-1\r\n$10\r\nWITHSCORES\r\n";

const POP: &[u8] = b"*3\r\n$7\r\nZPOPMIN\r\n$1\r\nq\r\n$4\r\n3000\r\n";

#[test]
fn replies_of_6000_parts_are_whole(rt: HostRuntime) -> Result<(), Fail> {
    let alloc = rt.alloc();
    let pairs = pairs(alloc)?;
    let put = b"*6002\r\n$4\r\nZADD\r\n$1\r\nq\r\n".as_slice();
    let asked = joined(alloc, &[put, &pairs, RANGE, POP])?;
    let says = joined(
        alloc,
        &[b":3000\r\n*6000\r\n", &pairs, b"*6000\r\n", &pairs],
    )?;
    let mut server = Plain::new(alloc, 2)?;
    let bytes = answered(alloc, &mut server, &asked)?;
    assert!(rt; bytes.as_slice() == says.as_slice(), "the pairs");
    Ok(())
}
