//! A frame that stands whole at the front.
ghost use Rattle.std.specs.Prelude.{◌≡◌, ◌≤◌, ◌++◌, length, IfErr, IfOk, IfSome, OnOk};
ghost use Rattle.zq_wire.specs.Framed.{IsTooLong, framed};

use crate::fault::StreamFault;
use zq_fields::{read_bytes, read_u32};

/// The frame that stands whole at the front, and the bytes after it. `None` where it is not all
/// there. `TooLong` where its length is there, and above the most.
pub(crate) fn whole_front(most: u32, bytes: &[u8]) -> Result<Option<(&[u8], &[u8])>, StreamFault>
    ensures spelled { IfOk result
        (λ found. IfSome found (λ x. bytes.now ≡ framed x.0.now ++ x.1.now)) }
    ensures small { IfOk result (λ found. IfSome found (λ x. length x.0.now ≤ most)) }
    ensures fault { IfErr result (λ e. e ≡ StreamFault.TooLong) }
    ensures long { IfErr result (λ _. IsTooLong most bytes.now) }
    ensures within { OnOk result (IsTooLong most bytes.now → ⊥) }
{
    let Some((size, rest)) = read_u32(bytes) else {
        return Ok(None);
    };
    if size > most {
        return Err(StreamFault::TooLong);
    }
    let Some((frame, after)) = read_bytes(rest, size as usize) else {
        return Ok(None);
    };
    Ok(Some((frame, after)))
}
