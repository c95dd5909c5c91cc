//! How long things take at most, and how large a frame is.

ghost use Rattle.std.specs.Duration.{as_nanos};
ghost use Rattle.std.specs.Prelude.{◌≡◌};
ghost use Rattle.zq_site.specs.Times as wanted;

use std::time::Duration;

/// After how many seconds the link thread is told that a beat has gone by.
const BEAT: u64 = 1;

/// After how many seconds the site tells its peers what it has, where nobody calls it.
const TELLING: u64 = 5;

/// How many seconds nothing may come over a link.
const SILENCE: u64 = 20;

/// After how many seconds in which nothing came to be sent over a link a heartbeat is sent. It is
/// more than the time after which a site tells: the heart of a link beats only where that is late.
const HEARTBEAT: u64 = 6;

// A peer tells what it has four times before it is silent. Where it cannot the heart of the link
// beats three times.
const _: () = prove!(4 * TELLING <= SILENCE && 3 * HEARTBEAT <= SILENCE);

/// How long a dialled peer may take to accept: 800 milliseconds, since a site that ends waits for a
/// dial that is under way.
pub fn connecting() -> Duration
    ensures { as_nanos result ≡ wanted.connecting }
{
    Duration::from_millis(800)
}

/// How long a peer may take to open a link: 5 seconds.
pub fn opening() -> Duration
    ensures { as_nanos result ≡ wanted.opening }
{
    Duration::from_secs(5)
}

/// For how long a read of an opening waits before it is looked whether the site ends: 100
/// milliseconds.
pub fn looking() -> Duration
    ensures { as_nanos result ≡ wanted.looking }
{
    Duration::from_millis(100)
}

/// How long a peer that is let go may take to close its end: a second.
pub fn parting() -> Duration
    ensures { as_nanos result ≡ wanted.parting }
{
    Duration::from_secs(1)
}

/// After what time the link thread is told that a beat has gone by: a second.
pub fn beat() -> Duration
    ensures { as_nanos result ≡ wanted.beat }
{
    Duration::from_secs(BEAT)
}

/// After what time the thread that drains the heaps is called again while they are looked at: 4
/// milliseconds.
pub fn stepping() -> Duration
    ensures { as_nanos result ≡ wanted.stepping }
{
    Duration::from_millis(4)
}

/// The most links for which calls are gathered longer.
const MOST_GATHERED: u64 = 4;

/// For how long calls are gathered before their operations are pushed, where so many links are up: a
/// millisecond for each, at least one and at most four. So up to four peers together cost as many
/// writes as one.
pub fn gathering(links: usize) -> Duration
    ensures { as_nanos result ≡ wanted.gathering links }
{
    Duration::from_millis((links as u64).clamp(1, MOST_GATHERED))
}

/// How long it is waited behind a piece of each heap, of so many, where one call made more: 5
/// milliseconds for each. So peers take it about as fast as it comes into the logs, which drop the
/// oldest operations where they have too many bytes.
pub fn spreading(heaps: u8) -> Duration
    ensures { as_nanos result ≡ wanted.spreading heaps }
{
    Duration::from_millis(5 * u64::from(heaps))
}

/// After what time in which nothing came to be sent over a link a heartbeat is sent: 6 seconds.
pub fn heartbeat() -> Duration
    ensures { as_nanos result ≡ wanted.heartbeat }
{
    Duration::from_secs(HEARTBEAT)
}

/// How long nothing may come over a link: 20 seconds.
pub fn silence() -> Duration
    ensures { as_nanos result ≡ wanted.silence }
{
    Duration::from_secs(SILENCE)
}

/// How long to wait where a connection could not be accepted: 100 milliseconds.
pub fn not_accepted() -> Duration
    ensures { as_nanos result ≡ wanted.not_accepted }
{
    Duration::from_millis(100)
}

/// How long clients are told that another run used the site's number before the site ends: 300
/// milliseconds.
pub fn fencing() -> Duration
    ensures { as_nanos result ≡ wanted.fencing }
{
    Duration::from_millis(300)
}

/// How long a site whose number another run used is waited for: 700 milliseconds, in which its
/// clients are told and its threads end.
pub fn leaving() -> Duration
    ensures { as_nanos result ≡ wanted.leaving }
{
    Duration::from_millis(700)
}

/// How long a site that was told to end waits for its peers: so many seconds.
pub fn draining(seconds: u64) -> Duration
    ensures { as_nanos result ≡ wanted.seconds seconds }
{
    Duration::from_secs(seconds)
}

/// The most bytes of a frame: a gibibyte. A state has some forty bytes and a member's text for each
/// addition, so that some ten million members of a heap fit. A greater number is no length that a
/// peer would send: it would cost the memory of as many bytes as come.
pub fn most_frame() -> u32
    ensures { result ≡ wanted.most_frame }
{
    1 << 30
}

/// How many bytes are read at once.
pub const PIECE: usize = 65_536;
