//! The runs of an independent model: replies, what became of operations, and the frames of what was
//! made and of what the sites have.

ghost use Rattle.std.specs.Prelude.{IfOk, ◌<◌};

use super::first_request;
use super::worlds::WORLDS;
use std::alloc::Global;
use std::process::Abort;
use std::test::Fail;
use zq_delta::write_op;
use zq_dots::Rule;
use zq_merge::write_state;
use zq_resp::Request;
use zq_shard::Taken;
use zq_world::{Event, World, play_ruled};

/// The number that a text is.
fn number(text: &str) -> Result<u64, Fail> {
    Ok(text.parse::<u64>()?)
}

fn small(text: &str) -> Result<u8, Fail> {
    Ok(text.parse::<u8>()?)
}

/// The value of a digit in hex.
fn digit(byte: u8) -> Result<u8, Fail>
    ensures { IfOk result (λ value. value < 16) }
{
    match byte {
        b'0'..=b'9' => Ok(byte - b'0'),
        b'a'..=b'f' => Ok(byte - b'a' + 10),
        _ => Err("a digit".into()),
    }
}

/// The bytes of a text in hex.
fn unhex(alloc: Global, text: &str) -> Result<Vec<u8>, Fail> {
    let mut bytes = Vec::new(alloc);
    let mut rest = text.as_bytes();
    while let [high, low, others @ ..] = rest {
        bytes.push(digit(*high)? * 16 + digit(*low)?)?;
        rest = others;
    }
    Ok(bytes)
}

/// The request of words in hex.
fn request_of(alloc: Global, words: &str) -> Result<Request, Fail> {
    let count = words.split(' ').count();
    let mut bytes = Vec::new(alloc);
    bytes.extend_from_slice(format!(in alloc; "*{count}\r\n")?.as_bytes())?;
    for word in words.split(' ') {
        append_word(alloc, &mut bytes, word)?;
    }
    first_request(alloc, bytes.as_slice())
}

fn append_word(alloc: Global, bytes: &mut Vec<u8>, word: &str) -> Result<(), Fail> {
    let word = unhex(alloc, word)?;
    let length = word.len();
    bytes.extend_from_slice(format!(in alloc; "${length}\r\n")?.as_bytes())?;
    bytes.extend_from_slice(word.as_slice())?;
    bytes.extend_from_slice(b"\r\n")?;
    Ok(())
}

/// The parts of a line.
fn parts(alloc: Global, line: &'static str) -> Result<Vec<&'static str>, Fail> {
    let mut parts = Vec::new(alloc);
    for part in line.split(" | ") {
        parts.push(part)?;
    }
    Ok(parts)
}

/// The event of a row, if it is one.
fn event_of(alloc: Global, row: &[&str]) -> Result<Option<Event>, Fail> {
    Ok(match row {
        ["do", site, w1, w2, words, _] => Some(Event::Do {
            site: small(site)?,
            request: request_of(alloc, words)?,
            w1: number(w1)?,
            w2: number(w2)?,
        }),
        ["take", site, op, _] => Some(Event::Take {
            site: small(site)?,
            op: number(op)? as usize,
        }),
        ["merge", site, from, heap, moment] => Some(Event::Merge {
            site: small(site)?,
            from: small(from)?,
            heap: small(heap)?,
            moment: number(moment)? as usize,
        }),
        _ => None,
    })
}

/// A run of the table: its rows, the first of which names it.
#[derive(Drop)]
struct Rows {
    rows: Vec<Vec<&'static str>>,
}

/// Looks at what the row of a place says.
fn look(
    rt: &impl Abort,
    alloc: Global,
    world: &World,
    events: usize,
    place: usize,
    row: &[&str],
) -> Result<(), Fail> {
    match row {
        ["do", _, _, _, _, reply] => {
            let says = unhex(alloc, reply)?;
            assert!(rt; world.reply(place) == Some(says.as_slice()), "row {place}");
        }
        ["take", _, _, taken] => {
            assert!(rt; world.taken(place) == named(taken), "row {place}");
        }
        ["operation", frame] => {
            let says = unhex(alloc, frame)?;
            let op = world
                .operations()
                .get(place.saturating_sub(events))
                .ok_or("an operation")?;
            let bytes = write_op(alloc, op)?;
            assert!(rt; bytes == says, "row {place}");
        }
        ["state", site, heap, frame] => {
            let says = unhex(alloc, frame)?;
            let bytes = state(alloc, world, small(site)?, small(heap)?)?;
            assert!(rt; bytes == says, "row {place}");
        }
        _ => {}
    }
    Ok(())
}

fn named(taken: &str) -> Option<Taken> {
    match taken {
        "New" => Some(Taken::New),
        "Known" => Some(Taken::Known),
        "Early" => Some(Taken::Early),
        _ => None,
    }
}

/// The frame of what a site has of a heap.
fn state(alloc: Global, world: &World, site: u8, heap: u8) -> Result<Vec<u8>, Fail> {
    let book = world.book(site, heap).ok_or("a book")?;
    Ok(write_state(alloc, book.shard())?)
}

/// The world that the events among some rows make.
fn world_of(
    alloc: Global,
    head: &[&str],
    rows: &[Vec<&'static str>],
) -> Result<(World, usize), Fail> {
    let ["world", _, sites, heaps, rule] = head else {
        return Err("the head of a run".into());
    };
    let rule = if *rule == "Low" {
        Rule::Low
    } else {
        Rule::High
    };
    let mut events = Vec::new(alloc);
    for row in rows {
        if let Some(event) = event_of(alloc, row.as_slice())? {
            events.push(event)?;
        }
    }
    let count = events.len();
    let Ok(world) = play_ruled(alloc, small(sites)?, small(heaps)?, rule, &events) else {
        return Err("no world".into());
    };
    Ok((world, count))
}

/// Plays the rows of a run, and looks at each.
fn follow(rt: &impl Abort, alloc: Global, run: &Rows) -> Result<(), Fail> {
    let Some((head, rows)) = run.rows.split_first() else {
        return Ok(());
    };
    let (world, events) = world_of(alloc, head, rows)?;
    for (place, row) in rows.iter().enumerate() {
        look(rt, alloc, &world, events, place, row.as_slice())?;
    }
    Ok(())
}

#[test]
fn of_the_model(rt: HostRuntime) -> Result<(), Fail> {
    let alloc = rt.alloc();
    let mut run = Rows {
        rows: Vec::new(alloc),
    };
    for line in WORLDS.lines() {
        let row = parts(alloc, line)?;
        if line.starts_with("world") {
            follow(&rt, alloc, &run)?;
            run = Rows {
                rows: Vec::new(alloc),
            };
        }
        run.rows.push(row)?;
    }
    follow(&rt, alloc, &run)
}
