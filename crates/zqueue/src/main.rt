//! The program zqueue: a replicated priority queue that speaks the protocol of Redis.
#![tactic(auto)]

mod administering;
mod adopting;
mod asked;
mod configured;
mod drilling;
mod inspecting;
mod logging;
mod number;
mod password;
mod piping;
mod refusal;
mod serving;
mod settling;
mod site_thread;
#[cfg(test)]
mod tests;

use administering::{status_file, stop_file};
use adopting::adopt_folder;
use asked::{Command, asked};
use drilling::drill_out;
use inspecting::{check_folder, inspect_folder, list_members};
use piping::pipe;
use refusal::{DEVICE, Refusal, conclude, refuse};
use serving::{serve_file, serve_site_file};
use std::alloc::AllocError;
use std::io;
use std::process::ExitCode;

/// The version of the program: the newest one of `CHANGELOG.md`.
const VERSION: &str = "0.3.0";

/// What standard error says, below the version, to a command line that names no command.
const HELP: &str = "usage:
  zqueue pipe         reads requests on standard input and writes their replies on standard output
  zqueue serve FILE   serves the sites of a settings file, each on a port of its own on loopback
  zqueue site FILE    serves the one site of a settings file, and links it to its peers in other processes
  zqueue stop FILE    has the site of a settings file end, by its admin port, and waits until it has
  zqueue status FILE  says how ready the site of a settings file is, by its admin port
  zqueue inspect DIR  says what the log in a folder holds that a site keeps, and changes nothing
  zqueue inspect --check DIR
                      says what is wrong with it, if anything is
  zqueue inspect --members KEY DIR
                      says which members of a key it holds, with their scores
  zqueue adopt OLD NEW SITE
                      makes the folder NEW of a site of this number with what the log in OLD holds
  zqueue drill SEED ROUNDS
                      drills three sites over links that fail, and writes whether they end equal
README.md says what each of them does, and docs/COMMANDS.md what clients can send.";

fn main(rt: HostRuntime) -> ExitCode {
    let code = match asked(&rt) {
        Ok(Some(Command::Pipe)) => pipe(rt.alloc(), &mut rt.reader(), &mut io::writer(&rt)),
        Ok(Some(Command::Serve(path))) => {
            let served = serve_file(rt, rt.alloc(), path.as_str());
            conclude(served, &mut io::writer(&rt))
        }
        Ok(Some(Command::Site(path))) => {
            let served = serve_site_file(rt, rt.alloc(), path.as_str());
            conclude(served, &mut io::writer(&rt))
        }
        Ok(Some(Command::Stop(path))) => {
            let stopped = stop_file(&rt, rt.alloc(), path.as_str());
            conclude(stopped, &mut io::writer(&rt))
        }
        Ok(Some(Command::Status(path))) => {
            let told = status_file(&rt, rt.alloc(), path.as_str());
            conclude(told, &mut io::writer(&rt))
        }
        Ok(Some(Command::Inspect(path))) => {
            let told = inspect_folder(&rt, rt.alloc(), path.as_str(), &mut io::writer(&rt));
            conclude(told, &mut io::writer(&rt))
        }
        Ok(Some(Command::Check(path))) => {
            let checked = check_folder(&rt, rt.alloc(), path.as_str());
            conclude(checked, &mut io::writer(&rt))
        }
        Ok(Some(Command::Members { key, path })) => {
            let (key, path) = (key.as_bytes(), path.as_str());
            let told = list_members(&rt, rt.alloc(), path, key, &mut io::writer(&rt));
            conclude(told, &mut io::writer(&rt))
        }
        Ok(Some(Command::Adopt { old, new, site })) => {
            let (old, new) = (old.as_str(), new.as_str());
            let made = adopt_folder(&rt, rt.alloc(), old, new, site, &mut io::writer(&rt));
            conclude(made, &mut io::writer(&rt))
        }
        Ok(Some(Command::Drill { seed, rounds })) => {
            drill_out(&rt, rt.alloc(), seed, rounds, &mut io::writer(&rt))
        }
        Ok(None) => {
            let _ = eprintln!(rt; "zqueue {VERSION}\n{HELP}");
            refuse(Refusal::Usage, &mut io::writer(&rt))
        }
        Err(AllocError) => DEVICE,
    };
    ExitCode::from(code)
}
