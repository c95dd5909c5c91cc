//! Drilling three sites.

ghost use Rattle.std.specs.Io.KnownBytes.{Appends};
ghost use Rattle.std.specs.Prelude.{Bool, List, ◌≡◌, ◌⊎◌};
ghost use Rattle.zq_drill.specs.Report.{IsOutcome, report};
ghost use Rattle.zq_model.specs.Meaning.{Scored};

use crate::refusal::{Refusal, refuse};
use std::alloc::Global;
use std::io::Write;
use std::sync::Wait;
use std::thread::Threads;
use zq_server::{DrillFault, drill};

/// Drills three sites, each called so many times, and answers the program's status: 0 whether or
/// not they end equal. What they end with is written. A fault has a line of its own, and its
/// status.
pub fn drill_out<R: Threads + Wait + Sync, W: Write>(
    rt: &R,
    alloc: Global,
    seed: u64,
    rounds: u32,
    out: &mut W,
) -> u8
    ensures { ((equal : Bool) × (lists : List (List Scored)) × IsOutcome lists equal
        × Appends (W.contents out.old) (W.contents out.new) (report lists equal)
        × (result ≡ 0)) ⊎ (result ≡ 4) }
{
    match drill(rt, alloc, seed, rounds, out) {
        Ok(_) => 0,
        Err(DrillFault::Device) => refuse(Refusal::Device, out),
        Err(DrillFault::NoMemory) => refuse(Refusal::Memory, out),
    }
}
