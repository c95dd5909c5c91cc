//! Scores and increments, as numbers that are small where the amount is.

ghost use Rattle.std.specs.Prelude.{◌≡◌, ◌≤◌, ◌*◌, ◌++◌, IfOk, OnOk, length, take};
ghost use Rattle.zq_batch.specs.Fields as read_batch;
ghost use Rattle.zq_batch.specs.Spelling.{zigzag};
ghost use Rattle.zq_batch.specs.Varint.{varint};
ghost use Rattle.zq_fields.specs.Reading as read;
ghost use Rattle.zq_model.specs.Operation.{MOST};

use crate::varint::{read_varint, write_varint};
use std::alloc::AllocError;
use zq_dots::{GREATEST, Score};
use zq_fields::PartFault;

// The greatest number of a score.
const LAST_NUMBER: u64 = 2 * GREATEST as u64;

/// Takes a score.
#[tactic(auto, unfolding(crate::specs::Fields::score_at))]
pub(crate) fn read_score(whole: usize, bytes: &mut &[u8]) -> Result<Score, PartFault>
    ensures exact { read.Gives (λ x. (x, bytes.new.now)) result
        (read_batch.score_at whole bytes.old.now) }
    ensures found { IfOk result (λ x. bytes.old.now ≡ varint (zigzag x) ++ bytes.new.now) }
{
    let number = read_varint(whole, bytes, 0, LAST_NUMBER)?;
    Ok(score_of(number))
}

/// The score of a number.
fn score_of(number: u64) -> Score
    requires { number ≤ 2 * MOST }
    ensures score { result ≡ read_batch.unzigzag number }
    ensures number { zigzag result ≡ number }
{
    let half = (number / 2) as i64;
    if number % 2 == 0 {
        Score::new(half).unwrap()
    } else {
        Score::new(-1 - half).unwrap()
    }
}

/// Appends a score. Where memory is refused a part of it may stand behind what stood there.
pub(crate) fn write_score(out: &mut Vec<u8>, score: Score) -> Result<(), AllocError>
    ensures written { OnOk result (out.new.items ≡ out.old.items ++ varint (zigzag score)) }
    ensures kept { take (length out.old.items) out.new.items ≡ out.old.items }
{
    write_varint(out, number_of(score))
}

/// The number of a score.
fn number_of(score: Score) -> u64
    ensures number { result ≡ zigzag score }
    ensures within { result ≤ 2 * MOST }
{
    let amount = score.value().unsigned_abs();
    if score.value() < 0 {
        2 * amount - 1
    } else {
        2 * amount
    }
}
