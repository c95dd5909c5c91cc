//! Whether a peer has a secret, and its nonce.

ghost use Rattle.std.specs.Prelude.{◌≡◌};
ghost use Rattle.zq_wire.specs.Reading.{nonce_at, open_at};
ghost use Rattle.zq_wire.specs.Steps.{Gives};

use crate::peer::read_next;
use crate::refusal::Refusal;
use crate::side::NONCE;
use crate::stop::Stop;

/// Takes the byte 0 of a peer that has no secret.
#[tactic(auto, unfolding(crate::specs::Reading::open_at))]
pub(crate) fn read_open(bytes: &[u8]) -> Result<&[u8], Stop>
    ensures { Gives (λ rest. rest.now) result (open_at bytes.now) }
{
    let (byte, rest) = read_next(bytes)?;
    if byte == 0 {
        Ok(rest)
    } else {
        Err(Stop::Refused(Refusal::SecretThere))
    }
}

/// Takes the byte 1 of a peer that has a secret, and its nonce.
#[tactic(auto, unfolding(crate::specs::Reading::nonce_at))]
pub(crate) fn read_nonce(bytes: &[u8]) -> Result<([u8; NONCE], &[u8]), Stop>
    ensures { Gives (λ x. (x.0, x.1.now)) result (nonce_at bytes.now) }
{
    let (byte, rest) = read_next(bytes)?;
    if byte != 1 {
        return Err(Stop::Refused(Refusal::SecretHere));
    }
    match rest.split_first_chunk::<NONCE>() {
        Some((nonce, rest)) => Ok((*nonce, rest)),
        None => Err(Stop::Short),
    }
}
