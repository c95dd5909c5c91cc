//! Opening a link over a stream.

ghost use Rattle.std.specs.Prelude.{◌≡◌};

use crate::caller::number_told;
use crate::hasty::Hasty;
use crate::notice::{Reason, reason_at_end};
use crate::shared::Shared;
use crate::standing::Ending;
use crate::times;
use std::io;
use std::net::TcpStream;
use std::random::RandomSource;
use std::sync::Wait;
use std::time::Clock;
use zq_dots::SiteNo;
use zq_serve::{Cause, ServeFault};
use zq_wire::{Form, NONCE, Opened, RUN, Secret, Side, Unopened, Versions, accept_over, dial_over};

/// From this version on the sites of a link push.
pub const PUSHING: u8 = 2;

/// From this version on they give each other heaps in pieces.
pub const STREAMING: u8 = 3;

/// The versions that this site speaks.
const SPOKEN: Versions = Versions {
    lowest: 1,
    highest: STREAMING,
};

/// How a stream came to be.
#[derive(Clone, Copy, Debug, PartialEq, Eq)]
pub enum Way {
    /// This site dialled, and greets in this form.
    Dials(Form),
    /// This site accepted.
    Accepts,
}

/// What names this run of the site: bytes that no other run has.
///
/// `Device` where the system gives no random bytes.
pub fn draw_run<R: RandomSource>(rt: &R) -> Result<[u8; RUN], ServeFault> {
    let mut run = [0u8; RUN];
    match rt.fill_bytes(&mut run) {
        Ok(()) => Ok(run),
        Err(error) => Err(ServeFault::Device(Cause::Random(error.kind()))),
    }
}

/// What came of a peer as a link to it was opened.
#[derive(Clone, Copy, Debug, PartialEq, Eq)]
pub struct Told {
    /// The number that it greets with, as far as that came.
    pub site: Option<SiteNo>,
    /// Why it let this site go, where it says so at the end.
    pub reason: Option<Reason>,
    /// How the stream ended, where the link was not opened.
    pub ending: Ending,
}

impl Told {
    /// Nothing came.
    pub fn nothing() -> Told {
        Told {
            site: None,
            reason: None,
            ending: Ending::Failed,
        }
    }
}

/// Opens a link over the stream to one of these peers. It says also what came of the peer.
pub fn open_link<R: RandomSource + Clock + Wait>(
    rt: &R,
    shared: Shared<'_>,
    stream: &TcpStream,
    peers: &[SiteNo],
    way: Way,
    told: &mut Told,
) -> Result<Opened, Unopened> {
    let secret = match &shared.settings.secret {
        Some(secret) => Some(Secret {
            key: secret.as_bytes(),
            nonce: draw_nonce(rt)?,
        }),
        None => None,
    };
    let form = match way {
        Way::Dials(form) => form,
        Way::Accepts => Form::New,
    };
    let counters = shared.run.counters;
    let heaps = shared.settings.heaps.value() as usize;
    let side = side_of(shared, peers, secret, form, &counters[..heaps]);
    let mut reader = Hasty::new(rt, shared, stream, times::opening())?;
    let mut writer = stream;
    let opened = match way {
        Way::Dials(_) => dial_over(shared.alloc, &side, &mut reader, &mut writer),
        Way::Accepts => accept_over(shared.alloc, &side, &mut reader, &mut writer),
    };
    *told = Told {
        site: number_told(&reader.heard),
        reason: reason_at_end(&reader.heard),
        ending: reader.ending,
    };
    opened
}

/// This site as it opens a link to one of these peers, with this secret and nonce, greets in this
/// form, and began with these counters.
fn side_of<'a>(
    shared: Shared<'a>,
    peers: &'a [SiteNo],
    secret: Option<Secret<'a>>,
    form: Form,
    counters: &'a [u64],
) -> Side<'a>
    ensures site { result.site ≡ shared.entry.settings.now.site }
    ensures heaps { result.heaps ≡ shared.entry.settings.now.heaps }
    ensures rule { result.rule ≡ shared.entry.settings.now.rule }
    ensures peers { result.peers.now ≡ peers.now }
    ensures secret { result.secret ≡ secret.entry }
    ensures form { result.form ≡ form }
    ensures run { result.run ≡ shared.entry.run.name }
    ensures start { result.start ≡ shared.entry.run.start }
    ensures counters { result.counters.now ≡ counters.now }
{
    Side {
        site: shared.settings.site,
        heaps: shared.settings.heaps.value() as u8,
        rule: shared.settings.rule,
        peers,
        secret,
        versions: SPOKEN,
        form,
        run: shared.run.name,
        start: shared.run.start,
        counters,
    }
}

/// A nonce that nobody can guess.
fn draw_nonce<R: RandomSource>(rt: &R) -> Result<[u8; NONCE], Unopened> {
    let mut nonce = [0u8; NONCE];
    rt.fill_bytes(&mut nonce)?;
    Ok(nonce)
}
