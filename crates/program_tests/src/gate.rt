//! Gates before the calls of a site.

use std::sync::Wait;
use std::test::Fail;
use std::thread;
use std::thread::Threads;
use std::time::{Clock, Duration, Instant};
use zq_serve::Gate;

/// What is done a millisecond after a call came to a shut gate.
#[derive(Clone, Copy, Debug)]
enum Word {
    /// Nothing.
    Silence,
    /// One piece more was taken.
    Piece,
    /// Not too much is left.
    Open,
}

/// How often a call comes to a gate at most: what is looked for can come late.
const CALLS: u32 = 1_000;

/// How long a call waits at most: 5 milliseconds.
fn patience() -> Duration {
    Duration::from_millis(5)
}

/// How long a call takes to pass the gate.
fn time_at<R: Clock + Wait>(rt: &R, gate: &Gate) -> Result<Duration, Fail> {
    let start = Instant::now(rt)?;
    gate.wait(rt);
    Ok(start.elapsed(rt)?)
}

/// Whether one of the calls passes the gate before it would pass a shut one.
fn is_soon<R: Clock + Wait>(rt: &R, gate: &Gate) -> Result<bool, Fail> {
    for _call in 0..CALLS {
        if time_at(rt, gate)? < patience() {
            return Ok(true);
        }
    }
    Ok(false)
}

/// Has the word said after a millisecond.
fn say<R: Clock + Wait>(rt: &R, gate: &Gate, word: Word) {
    let _ = thread::sleep(rt, Duration::from_millis(1));
    match word {
        Word::Silence => {}
        Word::Piece => gate.pass(rt),
        Word::Open => gate.set(rt, false),
    }
}

/// How long a call waits at a shut gate.
fn waited<R: Clock + Threads + Wait + Sync>(rt: &R, word: Word) -> Result<Duration, Fail> {
    let gate = Gate::new();
    gate.set(rt, true);
    let (time, ()) = thread::join(rt, || time_at(rt, &gate), || say(rt, &gate, word));
    time
}

/// Whether one of the calls waits, and goes on before it would without a word.
fn goes_on<R: Clock + Threads + Wait + Sync>(rt: &R, word: Word) -> Result<bool, Fail> {
    for _call in 0..CALLS {
        let time = waited(rt, word)?;
        if time > Duration::from_micros(500) && time < patience() {
            return Ok(true);
        }
    }
    Ok(false)
}

#[test]
fn a_call_waits_at_a_shut_gate_for_one_piece(rt: HostRuntime) -> Result<(), Fail> {
    let longest = waited(&rt, Word::Silence)?;
    assert!(rt; longest >= patience(), "for 5 milliseconds");
    assert!(rt; goes_on(&rt, Word::Piece)?, "until a piece more was taken");
    assert!(rt; goes_on(&rt, Word::Open)?, "until it is open");
    Ok(())
}

#[test]
fn an_open_gate_holds_nobody(rt: HostRuntime) -> Result<(), Fail> {
    let gate = Gate::new();
    assert!(rt; is_soon(&rt, &gate)?, "that was never shut");
    gate.set(&rt, true);
    gate.set(&rt, false);
    assert!(rt; is_soon(&rt, &gate)?, "that was shut");
    Ok(())
}
