//! A key of more members than a request has words, which one command pops or clears.

use super::ask;
use std::alloc::Global;
use std::process::Abort;
use std::test::Fail;
use zq_commands::SiteBooks;
use zq_dots::Rule;
use zq_posheap::Seeded;

/// The members are numbers from 100,000 on, and each has its own number as its score.
const FIRST: u32 = 100_000;

const MEMBERS: u32 = 70_000;

/// So many are put by one line.
const PUT: u32 = 1000;

/// A line that puts some members.
fn putting(alloc: Global, first: u32) -> Result<String, Fail> {
    let mut line = format!(in alloc; "ZADD q")?;
    for step in 0..PUT {
        let number = first.saturating_add(step);
        line.push_str(&format!(in alloc; " {number} {number}")?)?;
    }
    Ok(line)
}

/// The reply of all members with their scores.
fn pairs(alloc: Global) -> Result<Vec<u8>, Fail> {
    let mut bytes = Vec::new(alloc);
    bytes.extend_from_slice(b"*140000\r\n")?;
    for step in 0..MEMBERS {
        let number = FIRST.saturating_add(step);
        let pair = format!(in alloc; "$6\r\n{number}\r\n$6\r\n{number}\r\n")?;
        bytes.extend_from_slice(pair.as_bytes())?;
    }
    Ok(bytes)
}

/// Puts all members.
fn fill(alloc: Global, books: &mut SiteBooks) -> Result<(), Fail> {
    for turn in 0..MEMBERS / PUT {
        let line = putting(alloc, FIRST + turn * PUT)?;
        ask(alloc, books, 0, &line)?;
    }
    Ok(())
}

#[test]
fn one_command_pops_all(rt: HostRuntime) -> Result<(), Fail> {
    let alloc = rt.alloc();
    let mut books = SiteBooks::new(alloc, 1, Rule::High, Seeded::new(1))?;
    fill(alloc, &mut books)?;
    let says = pairs(alloc)?;
    let bytes = ask(alloc, &mut books, 0, "ZPOPMIN q 100000")?;
    assert!(rt; bytes.as_slice() == says.as_slice(), "the pairs");
    Ok(())
}

#[test]
fn one_command_clears_all(rt: HostRuntime) -> Result<(), Fail> {
    let alloc = rt.alloc();
    let mut books = SiteBooks::new(alloc, 1, Rule::High, Seeded::new(1))?;
    fill(alloc, &mut books)?;
    let bytes = ask(alloc, &mut books, 0, "DEL q")?;
    assert!(rt; bytes.as_slice() == b":1\r\n".as_slice(), "the key");
    Ok(())
}
