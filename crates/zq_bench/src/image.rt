//! How long steps over a heap's image take, with a wait in which its memory can be looked at.
//! Members are of one key.
mod book;
mod frame;
mod makes;
mod members;
mod merge;

use crate::numbers::number_of;
use book::CutBook;
use frame::time_frame;
use makes::{MakeTimes, time_makes};
use members::KEY;
use merge::time_half_shared;
use std::alloc::Global;
use std::io;
use std::rt::Clock;
use zq_journal::Book;
use zq_shard::Shard;

/// What is done over so many members.
#[derive(Clone, Copy)]
pub enum Part {
    /// Two shards are made, of which each has so many members and they share half; the first is
    /// copied, and the second merged into the copy.
    Merge { members: u32 },
    /// The state is written, its bytes are copied and read, and what was read is written.
    Frame { members: u32 },
    /// The members are added to a shard, and so many operations made over them; then the program
    /// waits for the end of its input.
    Shard { members: u32, makes: u32 },
    /// The same with a book, whose tail is cut to its newer half each time that it has so many
    /// records.
    Book { members: u32, makes: u32, long: u32 },
}

/// What the words `merge MEMBERS`, `frame MEMBERS`, `shard MEMBERS MAKES` or `book MEMBERS MAKES
/// LONG` ask for.
pub fn read(words: &[String]) -> Option<Part> {
    let (name, numbers) = words.split_first()?;
    match (name.as_str(), numbers) {
        ("merge", [members]) => Some(Part::Merge {
            members: number_of(members)?,
        }),
        ("frame", [members]) => Some(Part::Frame {
            members: number_of(members)?,
        }),
        ("shard", [members, makes]) => Some(Part::Shard {
            members: number_of(members)?,
            makes: number_of(makes)?,
        }),
        ("book", [members, makes, long]) => Some(Part::Book {
            members: number_of(members)?,
            makes: number_of(makes)?,
            long: number_of(long)?,
        }),
        _ => None,
    }
}

/// Standard output has the number of members in the end, and standard error the nanoseconds of each
/// kind of step.
pub fn measure<R: Clock + Print + Eprint + Input>(rt: &R, alloc: Global, part: Part) -> Option<()> {
    match part {
        Part::Merge { members } => tell_merge(rt, alloc, members),
        Part::Frame { members } => tell_frame(rt, alloc, members),
        Part::Shard { members, makes } => tell_shard(rt, alloc, members, makes),
        Part::Book {
            members,
            makes,
            long,
        } => tell_book(rt, alloc, members, makes, long),
    }
}

fn tell_merge<R: Clock + Print + Eprint>(rt: &R, alloc: Global, members: u32) -> Option<()> {
    let times = time_half_shared(rt, alloc, members)?;
    println!(rt; "{} members", times.members).ok()?;
    eprintln!(rt; "copy {}", times.copy).ok()?;
    eprintln!(rt; "merge {}", times.merge).ok()
}

fn tell_frame<R: Clock + Print + Eprint>(rt: &R, alloc: Global, members: u32) -> Option<()> {
    let times = time_frame(rt, alloc, members)?;
    println!(rt; "{} members, {} bytes", times.members, times.bytes).ok()?;
    eprintln!(rt; "write {}", times.write).ok()?;
    eprintln!(rt; "copy {}", times.copy).ok()?;
    eprintln!(rt; "read {}", times.read).ok()?;
    eprintln!(rt; "rewrite {}", times.rewrite).ok()
}

fn tell_shard<R: Clock + Print + Eprint + Input>(
    rt: &R,
    alloc: Global,
    members: u32,
    makes: u32,
) -> Option<()> {
    let mut shard = Shard::new(alloc, 0, 1);
    let times = time_makes(rt, alloc, &mut shard, members, makes);
    tell_makes(rt, alloc, shard.count(KEY), times)
}

fn tell_book<R: Clock + Print + Eprint + Input>(
    rt: &R,
    alloc: Global,
    members: u32,
    makes: u32,
    long: u32,
) -> Option<()> {
    let mut board = CutBook {
        book: Book::new(alloc, Shard::new(alloc, 0, 1)),
        long: long as usize,
    };
    let times = time_makes(rt, alloc, &mut board, members, makes);
    tell_makes(rt, alloc, board.book.shard().count(KEY), times)
}

/// Writes what was timed, and waits for the end of the input.
fn tell_makes<R: Print + Eprint + Input>(
    rt: &R,
    alloc: Global,
    members: usize,
    times: MakeTimes,
) -> Option<()> {
    println!(rt; "{members} members").ok()?;
    eprintln!(rt; "adds {}", times.adds).ok()?;
    eprintln!(rt; "changes {}", times.changes).ok()?;
    io::read_to_string(alloc, rt.reader()).ok()?;
    Some(())
}
