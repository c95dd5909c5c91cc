//! Hostile use: calls of which a growth is refused, and streams that are cut or fail anywhere.
//!
//! `zq_hostile CASE..` runs these cases, writes a line for each, and ends after the first that is
//! not as with memory. Its status is 0 where all are, 11 where the call of one had no memory and
//! nothing was lost, 10 where memory was refused before or after the call, 4 where a line cannot be
//! read or written, and 1 where something was lost, or came otherwise than it is owed.
//! tools/refused-growths runs each case with each growth refused in turn. The cases of nodes, links
//! and worlds stand here, and that of a key's forms; all others in the library `zq_trials`.
//!
//! `zq_hostile texts` reads texts of settings from standard input, and says what each is read as;
//! bench/fuzz.py draws them.
#![tactic(auto)]

mod forms;
mod hearing;
mod links;
mod nodes;
mod playing;
mod texts;
mod working;

use links::{DOUBLES, LOSES};
use nodes::{Hearing, at_node};
use std::alloc::{AllocError, Global};
use std::env::Env;
use std::process::ExitCode;
use std::sync::Wait;
use std::thread::Threads;
use std::{env, io};
use texts::read_texts;
use zq_trials::Ended;

/// The status where a line cannot be read or written.
const DEVICE: u8 = 4;

fn main(rt: HostRuntime) -> ExitCode {
    let code = match names(&rt) {
        Ok(names) => asked(&rt, rt.alloc(), &names),
        Err(AllocError) => status(None),
    };
    ExitCode::from(code)
}

/// Does what the arguments ask for, and gives the program's status.
fn asked<R: Input + Print + Threads + Wait + Sync>(rt: &R, alloc: Global, names: &[String]) -> u8 {
    match names {
        [name] if name.as_str() == "texts" => match read_texts(rt, alloc) {
            Ok(()) => 0,
            Err(_) => DEVICE,
        },
        _ => run_all(rt, alloc, names),
    }
}

/// The cases that are asked for.
fn names<R: Env + Alloc<A = Global>>(rt: &R) -> Result<Vec<String>, AllocError> {
    match env::args(rt) {
        Ok(words) => words.skip(1).collect::<Vec<String>>(rt.alloc()),
        Err(_) => Err(AllocError),
    }
}

/// Runs cases up to the first that is not as with memory, and gives the program's status.
fn run_all<R: Print + Threads + Wait + Sync>(rt: &R, alloc: Global, names: &[String]) -> u8 {
    for name in names {
        let ended = case(rt, alloc, name.as_str());
        if tell(rt, name.as_str(), ended).is_err() {
            return DEVICE;
        }
        let status = status(ended);
        if status != 0 {
            return status;
        }
    }
    0
}

/// The program's status for a case. Where memory was refused before or after the call, there is
/// nothing to say of it.
fn status(ended: Option<Ended>) -> u8 {
    match ended {
        Some(Ended::Owed(_)) => 0,
        Some(Ended::Wrong) => 1,
        None => 10,
        Some(Ended::Refused(_)) => 11,
    }
}

/// Writes how a case ended.
fn tell<R: Print>(rt: &R, name: &str, ended: Option<Ended>) -> io::Result<()> {
    match ended {
        Some(Ended::Owed(tries)) => println!(rt; "{name}: {tries} as owed"),
        Some(Ended::Refused(done)) => println!(rt; "{name}: refused after {done}"),
        Some(Ended::Wrong) => println!(rt; "{name}: wrong"),
        None => println!(rt; "{name}: refused elsewhere"),
    }
}

/// How the case of this name ends: one that stands here, or else one of `zq_trials`.
fn case<R: Threads + Wait + Sync>(rt: &R, alloc: Global, name: &str) -> Option<Ended> {
    match name {
        "forms" => forms::grown(alloc),
        "play" => playing::world(alloc),
        "work" => working::workers(rt, alloc),
        "hear" => at_node(rt, alloc, Hearing::Frame { is_turned: false }),
        "hear-turned" => at_node(rt, alloc, Hearing::Frame { is_turned: true }),
        "link-loses" => at_node(rt, alloc, Hearing::Link(LOSES)),
        "link-doubles" => at_node(rt, alloc, Hearing::Link(DOUBLES)),
        _ => zq_trials::case(rt, alloc, name),
    }
}
