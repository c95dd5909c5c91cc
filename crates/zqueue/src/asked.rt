//! What the command line asks for.

ghost use Rattle.zqueue.specs.Asked.{Asks, AsksOfLog, AsksOther, IsAsked, IsNumber, LAST_SITE, ROUNDS, SEEDS};
ghost use Rattle.std.specs.Prelude.{IfOk, SomeIff, map, string_bytes};
ghost use Rattle.std.specs.Str.Parse.{digits_value};

use crate::number::read_number;
use std::alloc::{AllocError, Global};
use std::env;
use std::env::Env;
use std::io::ErrorKind;
use zq_dots::SiteNo;

/// What the program is asked to do.
#[derive(Debug, PartialEq, Eq, Drop)]
pub enum Command {
    /// To answer requests from standard input.
    Pipe,
    /// To serve the sites of the settings file of this name.
    Serve(String),
    /// To serve the one site of the settings file of this name.
    Site(String),
    /// To end the site of the settings file of this name.
    Stop(String),
    /// To say how ready the site of the settings file of this name is.
    Status(String),
    /// To say what the log in the folder of this path holds.
    Inspect(String),
    /// To say what is wrong with it, if anything is.
    Check(String),
    /// To say which members of a key it holds.
    Members {
        key: String,
        path: String,
    },
    /// To make the folder `new` of this site, with all that the log in the folder `old` holds.
    Adopt {
        old: String,
        new: String,
        site: SiteNo,
    },
    /// To drill three sites by a seed, each called so many times.
    Drill {
        seed: u64,
        rounds: u32,
    },
}

/// A drill has at most so many rounds.
const MOST_ROUNDS: u64 = 1_000_000;

/// The greatest number of a site.
const LAST_SITE: u64 = 63;

/// The command that the command line names: `None` where its words name none, or one of them is not
/// UTF-8.
pub fn asked<R: Env + Alloc<A = Global>>(rt: &R) -> Result<Option<Command>, AllocError> {
    let words = match env::args(rt) {
        Ok(words) => words.collect::<Vec<String>>(rt.alloc())?,
        Err(error) if error.kind() == ErrorKind::InvalidData => return Ok(None),
        Err(_) => return Err(AllocError),
    };
    command_of(rt.alloc(), &words)
}

/// The command that these words name, of which the first is the program's name.
fn command_of(alloc: Global, words: &[String]) -> Result<Option<Command>, AllocError>
    ensures { IfOk result (λ command. IsAsked (map string_bytes words.now) command) }
{
    let Some((_, words)) = words.split_first() else {
        return Ok(None);
    };
    let Some((name, rest)) = words.split_first() else {
        return Ok(None);
    };
    called(alloc, name.as_str(), rest)
}

/// The command of this name, with the words behind it.
fn called(alloc: Global, name: &str, rest: &[String]) -> Result<Option<Command>, AllocError>
    ensures { IfOk result (λ command. Asks name.now (map string_bytes rest.now) command) }
{
    match name {
        "inspect" => inspected(alloc, rest),
        _ => named(alloc, name, rest),
    }
}

/// The command of this name, which is of no log, with the words behind it.
fn named(alloc: Global, name: &str, rest: &[String]) -> Result<Option<Command>, AllocError>
    ensures { IfOk result (λ command. AsksOther name.now (map string_bytes rest.now) command) }
{
    match (name, rest) {
        ("pipe", []) => Ok(Some(Command::Pipe)),
        ("serve", [path]) => {
            let path = String::from_str(alloc, path.as_str())?;
            Ok(Some(Command::Serve(path)))
        }
        ("site", [path]) => {
            let path = String::from_str(alloc, path.as_str())?;
            Ok(Some(Command::Site(path)))
        }
        ("stop", [path]) => {
            let path = String::from_str(alloc, path.as_str())?;
            Ok(Some(Command::Stop(path)))
        }
        ("status", [path]) => {
            let path = String::from_str(alloc, path.as_str())?;
            Ok(Some(Command::Status(path)))
        }
        ("drill", [seed, rounds]) => Ok(drill_of(seed.as_str(), rounds.as_str())),
        ("adopt", [old, new, site]) => match site_of(site.as_str()) {
            Some(site) => {
                let old = String::from_str(alloc, old.as_str())?;
                let new = String::from_str(alloc, new.as_str())?;
                Ok(Some(Command::Adopt { old, new, site }))
            }
            None => Ok(None),
        },
        _ => Ok(None),
    }
}

/// What of a log these words ask for: a folder, behind what is wanted of its log.
fn inspected(alloc: Global, rest: &[String]) -> Result<Option<Command>, AllocError>
    ensures { IfOk result (λ command. AsksOfLog (map string_bytes rest.now) command) }
{
    match rest {
        [path] => {
            let path = String::from_str(alloc, path.as_str())?;
            Ok(Some(Command::Inspect(path)))
        }
        [option, path] => match option.as_str() {
            "--check" => {
                let path = String::from_str(alloc, path.as_str())?;
                Ok(Some(Command::Check(path)))
            }
            _ => Ok(None),
        },
        [option, key, path] => match option.as_str() {
            "--members" => {
                let key = String::from_str(alloc, key.as_str())?;
                let path = String::from_str(alloc, path.as_str())?;
                Ok(Some(Command::Members { key, path }))
            }
            _ => Ok(None),
        },
        _ => Ok(None),
    }
}

/// The drill of these texts.
fn drill_of(seed: &str, rounds: &str) -> Option<Command>
    ensures { SomeIff result (IsNumber seed.now SEEDS × IsNumber rounds.now ROUNDS)
        (Command.Drill (digits_value 10 seed.now) (digits_value 10 rounds.now)) }
{
    let seed = read_number(seed, u64::MAX)?;
    let rounds = read_number(rounds, MOST_ROUNDS)?;
    Some(Command::Drill {
        seed,
        rounds: rounds as u32,
    })
}

/// The site of this number.
#[tactic(auto, unfolding(zq_model::specs::Sets::SITES))]
fn site_of(text: &str) -> Option<SiteNo>
    ensures { SomeIff result (IsNumber text.now LAST_SITE) (digits_value 10 text.now) }
{
    let number = read_number(text, LAST_SITE)?;
    SiteNo::new(number as u8)
}
