//! Measurements of the crates, each by a word of its own:
//!
//! | words | measures |
//! |---|---|
//! | `heap STEPS MEMBERS [wide]` | steps a second of a positioned heap, with a value of 64 bytes for each member or with none |
//! | `image merge MEMBERS`, `image frame MEMBERS` | a merge of two shards beside a copy of one, or a state written and read |
//! | `image shard MEMBERS MAKES`, `image book MEMBERS MAKES LONG` | what is made of a shard, or of a book whose tail is cut |
//! | `lock rates MS`, `lock spread MS` | lockings a second of the ticket lock and of a mutex, or how evenly threads share each |
//! | `node OPERATIONS [ROUND]` | how a node catches up with another one |
//! | `pops ZPOPMIN MEMBERS HEAPS PASSES`, `pops ZPOPNEAR ..` | which members are popped, and how many a second |
//! | `ranked STEPS PAIRS` | nanoseconds a step of the ranked list and of the positioned heap |
//! | `site CALLS` | calls a second of a site by 1, 2 and 4 threads |
//! | `world EVENTS` | events a second of a world of sites |
//! | `all` | small sizes of each but the lock |
//!
//! Figures that swing are on standard error, but for those of the lock, and what has to be the same
//! each time on standard output. The status is 0 where the measurement was made, 1 where memory or
//! a device was missing, and 3 where the words ask for none, which standard error then lists.
#![tactic(auto)]

mod checksum;
mod clock;
mod draws;
mod heap;
mod image;
mod lock;
mod measurement;
mod members;
mod node;
mod numbers;
mod pops;
mod ranked;
mod requests;
mod site;
mod small;
mod world;

use measurement::{Measurement, read};
use small::measure_all;
use std::alloc::Global;
use std::env::Env;
use std::process::ExitCode;
use std::rt::Clock;
use std::sync::Wait;
use std::thread::Threads;
use std::{env, io};

/// What standard error says to words that ask for no measurement.
const HELP: &str = "usage: zq_bench heap STEPS MEMBERS [wide]
       zq_bench image merge MEMBERS | frame MEMBERS | shard MEMBERS MAKES | book MEMBERS MAKES LONG
       zq_bench lock rates MS | spread MS
       zq_bench node OPERATIONS [ROUND]
       zq_bench pops ZPOPMIN|ZPOPNEAR MEMBERS HEAPS PASSES
       zq_bench ranked STEPS PAIRS
       zq_bench site CALLS
       zq_bench world EVENTS
       zq_bench all";

/// The status where a measurement was not made, for want of memory or of a device.
const UNMADE: u8 = 1;

/// The status where the words ask for no measurement.
const USAGE: u8 = 3;

fn main(rt: HostRuntime) -> ExitCode {
    let code = match words(&rt) {
        Ok(words) => asked(&rt, rt.alloc(), &words),
        Err(_) => UNMADE,
    };
    ExitCode::from(code)
}

/// The words behind the program's name.
fn words<R: Env + Alloc<A = Global>>(rt: &R) -> io::Result<Vec<String>> {
    let words = env::args(rt)?.skip(1).collect::<Vec<String>>(rt.alloc())?;
    Ok(words)
}

/// Does what the words ask for, and gives the program's status.
fn asked<R: Clock + Print + Eprint + Input + Threads + Wait + Sync>(
    rt: &R,
    alloc: Global,
    words: &[String],
) -> u8 {
    match read(words) {
        Some(measurement) => status(measure(rt, alloc, measurement)),
        None => {
            let _ = eprintln!(rt; "{HELP}");
            USAGE
        }
    }
}

fn status(made: Option<()>) -> u8 {
    match made {
        Some(()) => 0,
        None => UNMADE,
    }
}

fn measure<R: Clock + Print + Eprint + Input + Threads + Wait + Sync>(
    rt: &R,
    alloc: Global,
    measurement: Measurement,
) -> Option<()> {
    match measurement {
        Measurement::All => measure_all(rt, alloc),
        Measurement::Heap(sizes) => heap::measure(rt, alloc, sizes),
        Measurement::Image(part) => image::measure(rt, alloc, part),
        Measurement::Lock(contest) => lock::measure(rt, alloc, contest),
        Measurement::Node(plan) => node::measure(rt, alloc, plan),
        Measurement::Pops(plan) => pops::measure(rt, alloc, plan),
        Measurement::Ranked(sizes) => ranked::measure(rt, alloc, sizes),
        Measurement::Site(calls) => site::measure(rt, alloc, calls),
        Measurement::World(events) => world::measure(rt, alloc, events),
    }
}
