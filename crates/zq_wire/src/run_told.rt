//! What a peer tells of its run.

ghost use Rattle.std.specs.Prelude.{◌≡◌};
ghost use Rattle.zq_wire.specs.Steps.{Gives, bytes_at};
ghost use Rattle.zq_wire.specs.Told.{next_number_in, numbers, run_at};

use crate::form::Form;
use crate::run::{MOST_HEAPS, RUN, Run};
use crate::stop::Stop;
use zq_fields::{read_bytes, read_u64};

// The bytes of a number.
const NUMBER: usize = 8;

/// Takes what a peer of so many heaps tells of its run: nothing in the old form.
#[tactic(auto, unfolding(crate::specs::Told::run_at))]
pub(crate) fn read_run(form: Form, heaps: u8, bytes: &[u8]) -> Result<(Option<Run>, &[u8]), Stop>
    ensures { Gives (λ x. (x.0, x.1.now)) result (run_at form heaps bytes.now) }
{
    match form {
        Form::Old => Ok((None, bytes)),
        Form::New => {
            let (name, rest) = read_chunk::<RUN>(bytes)?;
            let (start, rest) = read_chunk::<NUMBER>(rest)?;
            let (counters, rest) = read_many(rest, NUMBER * heaps as usize)?;
            let run = Run {
                name,
                start: u64::from_be_bytes(start),
                counters: numbers_of(counters),
            };
            Ok((Some(run), rest))
        }
    }
}

/// Takes a fixed number of bytes.
fn read_chunk<const N: usize>(bytes: &[u8]) -> Result<([u8; N], &[u8]), Stop>
    ensures { Gives (λ x. (x.0, x.1.now)) result (bytes_at N bytes.now) }
{
    match bytes.split_first_chunk::<N>() {
        Some((chunk, rest)) => Ok((*chunk, rest)),
        None => Err(Stop::Short),
    }
}

/// Takes so many bytes.
fn read_many(bytes: &[u8], count: usize) -> Result<(&[u8], &[u8]), Stop>
    ensures { Gives (λ x. (x.0.now, x.1.now)) result (bytes_at count bytes.now) }
{
    read_bytes(bytes, count).ok_or(Stop::Short)
}

/// The numbers that these bytes are, eight each with the highest first, and 0 where there are no
/// more.
fn numbers_of(bytes: &[u8]) -> [u64; MOST_HEAPS]
    ensures { result ≡ numbers 16 bytes.now }
{
    let mut numbers = [0; MOST_HEAPS];
    let mut rest = bytes;
    for index in 0..MOST_HEAPS {
        let (number, after) = next_number(rest);
        numbers[index] = number;
        rest = after;
    }
    numbers
}

/// The number at the front and the bytes after it, or 0 where there are too few.
fn next_number(bytes: &[u8]) -> (u64, &[u8])
    ensures { (result.0, result.1.now) ≡ next_number_in bytes.now }
{
    match read_u64(bytes) {
        Some(found) => found,
        None => (0, bytes),
    }
}
