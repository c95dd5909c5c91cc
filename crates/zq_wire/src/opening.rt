//! What is said of the bytes that were heard of a peer.

ghost use Rattle.std.specs.Prelude.{◌≡◌, Some};
ghost use Rattle.zq_wire.specs.Opened as opened;
ghost use Rattle.zq_wire.specs.Opened.{before, opened_at, opening_of, openly, secret_at};

use crate::answer::{Party, answer, covered, read_answer};
use crate::met::Met;
use crate::nonce::{read_nonce, read_open};
use crate::peer::read_peer;
use crate::refusal::Refusal;
use crate::run::Run;
use crate::side::{Secret, Side};
use crate::stop::Stop;
use zq_dots::SiteNo;

/// How far the opening of a link has come.
#[derive(Clone, Copy, Debug, PartialEq, Eq)]
pub enum Opening {
    /// More bytes of the peer's greeting have to come.
    Waits,
    /// The peer's greeting agrees: this answer has to be sent, once, and the peer's answer has to
    /// come.
    Answers {
        /// What this site owes to the peer.
        answer: [u8; 32],
    },
    /// The peer is welcome: frames follow.
    Welcome {
        /// The peer's number.
        peer: SiteNo,
        /// The version that is spoken: the greatest that both sites speak.
        version: u8,
        /// What the peer said of its run, where it greeted in the new form.
        run: Option<Run>,
        /// What this site owes to the peer, where they share a secret: it has to be sent unless it
        /// was.
        answer: Option<[u8; 32]>,
        /// How many of the bytes that were heard belong to the opening. The rest belong to frames.
        used: usize,
    },
}

/// How far the opening of a link has come for a side that said this greeting, its own, from all
/// bytes that were heard of the peer since the link began.
///
/// # Errors
///
/// The first thing, from the left, that does not agree. More bytes change nothing of that, nor of a
/// welcome.
pub fn hear_opening(side: &Side<'_>, said: &[u8], heard: &[u8]) -> Result<Opening, Refusal>
    ensures { result ≡ opening_of side.now said.now heard.now }
{
    match read_opening(side, said, heard) {
        Ok(opening) => Ok(opening),
        Err(Stop::Short) => Ok(Opening::Waits),
        Err(Stop::Refused(refusal)) => Err(refusal),
    }
}

#[tactic(auto, unfolding(crate::specs::Opened::opened_at))]
fn read_opening(side: &Side<'_>, said: &[u8], heard: &[u8]) -> Result<Opening, Stop>
    ensures { result ≡ opened_at side.now said.now heard.now }
{
    let mut rest = heard;
    let met = read_peer(side, &mut rest)?;
    match &side.secret {
        None => read_welcome(met, heard.len(), rest),
        Some(secret) => read_proof(side, said, secret, met, heard, rest),
    }
}

/// That the peer has no secret, in an opening that began with `whole` bytes.
fn read_welcome(met: Met, whole: usize, bytes: &[u8]) -> Result<Opening, Stop>
    ensures { result ≡ openly met whole bytes.now }
{
    let rest = read_open(bytes)?;
    Ok(welcome(met, None, whole, rest))
}

/// The peer's nonce and, once it has come, its answer.
fn read_proof<'a>(
    side: &Side<'_>,
    said: &'a [u8],
    secret: &Secret<'_>,
    met: Met,
    heard: &'a [u8],
    bytes: &[u8],
) -> Result<Opening, Stop>
    ensures { result ≡ secret_at (Some secret.now) side.now said.now met heard.now bytes.now }
{
    let (nonce, rest) = read_nonce(bytes)?;
    let own = Party {
        site: side.site,
        nonce: secret.nonce,
        greeting: covered(side.form, said),
    };
    let peer = Party {
        site: met.peer,
        nonce,
        greeting: covered(side.form, heard_before(heard, rest)),
    };
    let due = answer(secret.key, met.version, &own, &peer);
    let owed = answer(secret.key, met.version, &peer, &own);
    match read_answer(&owed, rest) {
        Ok(rest) => Ok(welcome(met, Some(due), heard.len(), rest)),
        Err(Stop::Short) => Ok(Opening::Answers { answer: due }),
        Err(Stop::Refused(refusal)) => Err(Stop::Refused(refusal)),
    }
}

/// What was heard before the rest.
fn heard_before<'a>(heard: &'a [u8], rest: &[u8]) -> &'a [u8]
    ensures { result.now ≡ before heard.now rest.now }
{
    &heard[..heard.len().saturating_sub(rest.len())]
}

/// The peer is welcome, in an opening that began with `whole` bytes.
fn welcome(met: Met, answer: Option<[u8; 32]>, whole: usize, rest: &[u8]) -> Opening
    ensures { result ≡ opened.welcome met answer whole rest.now }
{
    Opening::Welcome {
        peer: met.peer,
        version: met.version,
        run: met.run,
        answer,
        used: whole.saturating_sub(rest.len()),
    }
}
