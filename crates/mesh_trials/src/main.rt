//! Drawn worlds of sites that push to each other.
//!
//! `mesh_trials WORLDS FIRST` plays so many worlds, the first drawn from the seed FIRST, the next
//! from the one after it. It writes a line for each that goes wrong, and in the end what was
//! counted. In a world 2 to 5 sites of 2 heaps have links that come up and are cut; clients call,
//! sites push, frames come, and in half of the worlds some are lost, doubled or overtake others. A
//! site may die. Four of five sites know how to give heaps in pieces, and two of them have to. In the
//! end all links are up and nothing is lost any more: then all sites have to have the same, and all
//! that was made at any of them.
#![tactic(auto)]

mod counts;
mod draws;
mod history;
mod judging;
mod lines;
mod linking;
mod marks;
mod news;
mod plan;
mod playing;
mod resting;
mod stepping;
mod watch;
mod way;
mod world;
mod wrong;

use counts::{Counts, count};
use playing::play;
use std::alloc::{AllocError, Global};
use std::env::Env;
use std::process::ExitCode;
use std::sync::Wait;
use std::{env, io};

/// The status where a world went wrong.
const WRONG: u8 = 1;

/// The status where the arguments are others than two numbers.
const USAGE: u8 = 2;

/// The status where a line cannot be written.
const DEVICE: u8 = 4;

fn main(rt: HostRuntime) -> ExitCode {
    let code = match numbers(&rt) {
        Some((worlds, first)) => match play_all(&rt, rt.alloc(), worlds, first) {
            Ok(0) => 0,
            Ok(_) => WRONG,
            Err(_) => DEVICE,
        },
        None => USAGE,
    };
    ExitCode::from(code)
}

/// The two numbers of the arguments: no worlds where there are none.
fn numbers<R: Env + Alloc<A = Global>>(rt: &R) -> Option<(u64, u64)> {
    let words = words(rt).ok()?;
    match words.as_slice() {
        [] => Some((0, 0)),
        [worlds, first] => Some((
            worlds.as_str().parse::<u64>().ok()?,
            first.as_str().parse::<u64>().ok()?,
        )),
        _ => None,
    }
}

/// The arguments.
fn words<R: Env + Alloc<A = Global>>(rt: &R) -> Result<Vec<String>, AllocError> {
    match env::args(rt) {
        Ok(words) => words.skip(1).collect::<Vec<String>>(rt.alloc()),
        Err(_) => Err(AllocError),
    }
}

/// Plays so many worlds, writes a line for each that goes wrong, and then what was counted. It says
/// how many went wrong.
fn play_all<R: Print + Wait>(rt: &R, alloc: Global, worlds: u64, first: u64) -> io::Result<u64> {
    let mut counts = Counts::none();
    let mut wrongs = 0;
    for number in 0..worlds {
        let seed = first.wrapping_add(number);
        let played = play(rt, alloc, seed);
        counts.add(&played.counts);
        if let Some(wrong) = played.wrong {
            count(&mut wrongs, 1);
            println!(rt; "seed {seed}: {wrong}")?;
        }
    }
    tell(rt, &counts)?;
    println!(rt; "worlds that went wrong: {wrongs}")?;
    Ok(wrongs)
}

/// Writes what was counted.
fn tell<R: Print>(rt: &R, counts: &Counts) -> io::Result<()> {
    let Counts {
        worlds,
        operations,
        frames,
        sent,
        heaps,
        pieces,
        cuts,
        lost,
        doubled,
        overtaken,
        died,
        late,
        late_sound,
        beats,
    } = *counts;
    println!(rt; "worlds: {worlds}")?;
    println!(rt; "operations: {operations}")?;
    println!(rt; "frames of operations: {frames}")?;
    println!(rt; "operations sent: {sent}")?;
    println!(rt; "whole heaps sent: {heaps}")?;
    println!(rt; "pieces of heaps sent: {pieces}")?;
    println!(rt; "links cut: {cuts}")?;
    println!(rt; "frames lost: {lost}")?;
    println!(rt; "frames doubled: {doubled}")?;
    println!(rt; "frames that overtook others: {overtaken}")?;
    println!(rt; "sites that died: {died}")?;
    println!(rt; "worlds that took beats in the end: {late}")?;
    println!(rt; "of these where no link lost a frame: {late_sound}")?;
    println!(rt; "the most beats: {beats}")
}
