//! The greeting that a site sends.

ghost use Rattle.std.specs.Int.{to_be_bytes, w64};
ghost use Rattle.std.specs.Prelude.{◌≡◌, ◌≤◌, ◌<◌, ◌+◌, ◌*◌, ◌++◌, OnErr, OnOk, flat_map, length, option_map, vec_len};
ghost use Rattle.std.specs.Vec.{vec_capacity};
ghost use Rattle.zq_wire.specs.Said.{front_by, nonce_bytes, run_by, said_by};

use crate::form::Form;
use crate::mark::{ONE, RANGE};
use crate::run::MOST_HEAPS;
use crate::side::{MAGIC, Secret, Side};
use std::alloc::AllocError;
use zq_fields::{rule_byte, write_byte, write_bytes, write_u64};

/// The most bytes of a greeting: the magic word, the range of versions behind its mark, the terms,
/// the run with a counter for each of 16 heaps, a byte that says whether there is a secret, and a
/// nonce.
const MOST_GREETING: usize = 183;

/// Appends the greeting of this site, in its form. Where memory is refused nothing is written; it
/// is refused only where there was no room for the 183 bytes of the longest greeting.
pub fn write_greeting(out: &mut Vec<u8>, side: &Side<'_>) -> Result<(), AllocError>
    ensures written { OnOk result (out.new.items ≡ out.old.items ++ said_by side.now) }
    ensures refused { OnErr result (out.new.items ≡ out.old.items) }
    ensures full { OnErr result (vec_capacity out.old < vec_len out.old + 183) }
{
    out.reserve(MOST_GREETING)?;
    write_front(out, side)?;
    write_run(out, side)?;
    write_nonce(out, &side.secret)
}

/// Appends the magic word, the versions and the terms: 14 bytes at most.
fn write_front(out: &mut Vec<u8>, side: &Side<'_>) -> Result<(), AllocError>
    ensures written { OnOk result (out.new.items ≡ out.old.items ++ front_by side.now) }
    ensures most { OnOk result (vec_len out.new ≤ vec_len out.old + 14) }
    ensures full { OnErr result (vec_capacity out.old < vec_len out.old + 14) }
    ensures capacity { vec_capacity out.old ≤ vec_capacity out.new }
{
    let terms = [side.site.value(), side.heaps, rule_byte(side.rule)];
    write_bytes(out, &MAGIC)?;
    match side.form {
        Form::Old => write_byte(out, ONE)?,
        Form::New => write_bytes(out, &[RANGE, side.versions.lowest, side.versions.highest])?,
    }
    write_bytes(out, &terms)
}

/// Appends the run, where it is told: 152 bytes at most.
fn write_run(out: &mut Vec<u8>, side: &Side<'_>) -> Result<(), AllocError>
    ensures written { OnOk result (out.new.items ≡ out.old.items ++ run_by side.now) }
    ensures most { OnOk result (vec_len out.new ≤ vec_len out.old + 152) }
    ensures full { OnErr result (vec_capacity out.old < vec_len out.old + 152) }
    ensures capacity { vec_capacity out.old ≤ vec_capacity out.new }
{
    match side.form {
        Form::Old => Ok(()),
        Form::New => {
            write_bytes(out, &side.run)?;
            write_u64(out, side.start)?;
            let told = side.counters.len().min(MOST_HEAPS);
            write_counters(out, &side.counters[..told])
        }
    }
}

/// Appends the counters, eight bytes each.
fn write_counters(out: &mut Vec<u8>, counters: &[u64]) -> Result<(), AllocError>
    ensures written { OnOk result
        (out.new.items ≡ out.old.items ++ flat_map (to_be_bytes w64) counters.now) }
    ensures exactly { OnOk result (vec_len out.new ≡ vec_len out.old + 8 * length counters.now) }
    ensures full { OnErr result
        (vec_capacity out.old < vec_len out.old + 8 * length counters.now) }
    ensures capacity { vec_capacity out.old ≤ vec_capacity out.new }
{
    for counter in counters {
        write_u64(out, *counter)?;
    }
    Ok(())
}

/// Appends whether there is a secret, and the nonce where there is one: 17 bytes at most.
fn write_nonce(out: &mut Vec<u8>, secret: &Option<Secret<'_>>) -> Result<(), AllocError>
    ensures written { OnOk result (out.new.items
        ≡ out.old.items ++ nonce_bytes (option_map (λ secret. secret.nonce) secret.now)) }
    ensures full { OnErr result (vec_capacity out.old < vec_len out.old + 17) }
    ensures capacity { vec_capacity out.old ≤ vec_capacity out.new }
{
    match secret {
        Some(secret) => {
            write_byte(out, 1)?;
            write_bytes(out, &secret.nonce)
        }
        None => write_byte(out, 0),
    }
}
