//! Peers of a site that the tests play.

use super::clients::is_answered;
use super::places::connect;
use super::recorded::{accept_as_recorded, dial_as_recorded, let_newer_go};
use log::sink::Locked;
use log::{LevelFilter, Logged};
use std::alloc::Global;
use std::fs::File;
use std::io::{Read, Write};
use std::net::{Net, Shutdown, SocketAddr, TcpListener, TcpStream};
use std::random::RandomSource;
use std::rt::Files;
use std::sync::Wait;
use std::sync::atomic::AtomicU64;
use std::test::Fail;
use std::thread::Threads;
use std::time::{Clock, Duration, Instant};
use std::{str, thread};
use zq_serve::Memory;
use zq_settings::SiteSettings;
use zq_site::{Ending, serve_site};

/// The greeting of a site of so many heaps with the rule of this byte, which has no secret.
pub fn greeting(site: u8, heaps: u8, rule: u8) -> [u8; 13] {
    let [a, b, c, d, e, f, g, h] = *b"zq-peer\n";
    [a, b, c, d, e, f, g, h, 1, site, heaps, rule, 0]
}

/// The greeting of a peer in the form that has a range of versions, with the rule of this byte: it
/// speaks the versions up to this one, and tells zeros of its run. It has two heaps and no secret.
pub fn range_greeting(site: u8, rule: u8, highest: u8) -> [u8; 55] {
    let mut bytes = [0u8; 55];
    let [a, b, c, d, e, f, g, h] = *b"zq-peer\n";
    let front = [a, b, c, d, e, f, g, h, 0, 1, highest, site, 2, rule];
    for (byte, given) in bytes.iter_mut().zip(front.iter()) {
        *byte = *given;
    }
    bytes
}

/// What a stream gives until it ends, or breaks.
pub fn read_out(alloc: Global, mut stream: &TcpStream) -> Vec<u8> {
    let mut bytes = Vec::new(alloc);
    let _ = stream.read_to_end(&mut bytes);
    bytes
}

/// What the peers of a site are up to, played by a test.
#[derive(Drop)]
pub enum Guests<'a> {
    /// Each dials in with these bytes and is let go.
    Strangers(&'a [&'a [u8]], SocketAddr),
    /// A peer of a smaller number, which listens here.
    Dialled(&'a TcpListener),
    /// Such a peer, which lets go a few times before it says anything.
    Shy(&'a TcpListener),
    /// Each dials in here, and looks at the nonce that it is given.
    Curious(SocketAddr),
    /// A peer of a greater number, which dials in here again while its first link is up.
    Twice(SocketAddr),
    /// Such a peer, which says nothing after its greeting.
    Silent(SocketAddr),
    /// Two runs of such a peer, which dial in here at once.
    Runs(SocketAddr),
    /// A site that dials in here, and says this as it was recorded.
    Dials(SocketAddr, &'a [&'a [u8]]),
    /// A site that listens here, says this, and gives this score of `a`.
    Accepts(&'a TcpListener, &'a [&'a [u8]], &'a [u8]),
    /// Such a site, which does not know the newer form of a greeting.
    Old(&'a TcpListener, &'a [&'a [u8]], &'a [u8]),
}

/// Dials in with these bytes, and waits until the site lets go: what the site said.
pub fn dial_in<N: Net<Listener = TcpListener, Stream = TcpStream>, R: Clock>(
    net: &N,
    rt: &R,
    alloc: Global,
    bytes: &[u8],
    door: SocketAddr,
) -> Result<Vec<u8>, Fail> {
    let mut stream = connect(net, rt, door.port())?;
    stream.write_all(bytes)?;
    Ok(read_out(alloc, &stream))
}

/// How many strangers look at a nonce. That a byte that is drawn is the same for all of them
/// happens once in 2 ^ 56 times.
const LOOKS: usize = 8;

/// Dials in again and again, and looks whether each of the 16 bytes of the nonce varies.
pub fn look_at_nonces<N: Net<Listener = TcpListener, Stream = TcpStream>, R: Clock>(
    net: &N,
    rt: &R,
    alloc: Global,
    door: SocketAddr,
) -> Result<(), Fail> {
    let mut varied = [false; 16];
    let first = dial_in(net, rt, alloc, greeting(1, 2, 0).as_slice(), door)?;
    for _look in 1..LOOKS {
        let said = dial_in(net, rt, alloc, greeting(1, 2, 0).as_slice(), door)?;
        for place in 0..16usize {
            if said.get(13 + place) != first.get(13 + place) {
                varied[place] = true;
            }
        }
    }
    if first.len() == 29 && varied == [true; 16] {
        return Ok(());
    }
    Err("a byte of the nonce stays".into())
}

/// Dials in as a peer that has no secret: the link, once a Have has come over it.
pub fn link_up<N: Net<Listener = TcpListener, Stream = TcpStream>, R: Clock>(
    net: &N,
    rt: &R,
    door: SocketAddr,
) -> Result<TcpStream, Fail> {
    let mut stream = connect(net, rt, door.port())?;
    stream.write_all(greeting(1, 2, 0).as_slice())?;
    let mut heard = [0u8; 18];
    stream.read_exact(&mut heard)?;
    Ok(stream)
}

/// Has the site keep 16 members of a mebibyte each.
pub fn fill(alloc: Global, mut client: &TcpStream) -> Result<(), Fail> {
    for member in 0..16u8 {
        client.write_all(b"*4\r\n$4\r\nZADD\r\n$1\r\nq\r\n$1\r\n1\r\n$1048576\r\n")?;
        client.write_all(&vec![in alloc; member; 1 << 20]?)?;
        if !is_answered(alloc, client, b"\r\n", b":1\r\n")? {
            return Err("a member is not added".into());
        }
    }
    Ok(())
}

/// A Have of each of two heaps, of site 1, which has nothing.
const LACKS_ALL: &[u8] =
    b"\x00\x00\x00\x06\x05\x02\x00\x01\x00\x00\x00\x00\x00\x06\x05\x02\x01\x01\x00\x00";

/// Puts a second link in the place of the first, over which the site is writing some mebibytes that
/// nobody reads: a connection does not hold as much. The site then ends the first. Holds the second
/// until the site ends, which is once its client has left.
pub fn link_twice<N: Net<Listener = TcpListener, Stream = TcpStream>, R: Clock>(
    net: &N,
    rt: &R,
    alloc: Global,
    door: SocketAddr,
    clients: u16,
) -> Result<(), Fail> {
    let client = connect(net, rt, clients)?;
    fill(alloc, &client)?;
    let mut first = link_up(net, rt, door)?;
    first.write_all(LACKS_ALL)?;
    first.read_exact(&mut vec![in alloc; 0u8; 1 << 16]?)?;
    let second = link_up(net, rt, door)?;
    let _ = read_out(alloc, &first);
    drop(client);
    let _ = read_out(alloc, &second);
    Ok(())
}

/// The greeting of site 1 that names its run by 16 such bytes.
fn run_greeting(name: u8) -> [u8; 55] {
    let mut bytes = range_greeting(1, 0, 2);
    for place in 14..30usize {
        bytes[place] = name;
    }
    bytes
}

/// Dials in as one run, which gets the length of a frame, and then as another one: that one is told
/// so by a frame of nine bytes and let go.
pub fn come_as_two<N: Net<Listener = TcpListener, Stream = TcpStream>, R: Clock>(
    net: &N,
    rt: &R,
    alloc: Global,
    door: SocketAddr,
) -> Result<(), Fail> {
    let mut first = connect(net, rt, door.port())?;
    first.write_all(run_greeting(7).as_slice())?;
    first.read_exact(&mut [0u8; 59])?;
    let heard = dial_in(net, rt, alloc, run_greeting(8).as_slice(), door)?;
    if heard.get(55..) == Some(b"\x00\x00\x00\x09zq-note\n\x01".as_slice()) {
        return Ok(());
    }
    Err("the other run is not told".into())
}

/// Dials in and says nothing after its greeting. The site gives it up after 20 seconds, and not
/// before. In these it says four times what it has: as the link comes up, and after 5, 10 and 15
/// seconds, each time with a Have of each of two heaps.
pub fn stay_silent<N: Net<Listener = TcpListener, Stream = TcpStream>, R: Clock>(
    net: &N,
    rt: &R,
    alloc: Global,
    door: SocketAddr,
) -> Result<(), Fail> {
    let mut stream = connect(net, rt, door.port())?;
    let start = Instant::now(rt)?;
    stream.write_all(greeting(1, 2, 0).as_slice())?;
    let heard = read_out(alloc, &stream);
    let time = start.elapsed(rt)?;
    if time < Duration::from_secs(19) || time > Duration::from_secs(30) {
        return Err("not given up after 20 seconds".into());
    }
    if haves_in(&heard) < 8 {
        return Err("a Have comes late".into());
    }
    Ok(())
}

/// How many Haves follow a greeting of 13 bytes. All have the length of the first one, since the
/// site has nothing.
fn haves_in(heard: &[u8]) -> usize {
    let frames = heard.get(13..).unwrap_or(&[]);
    match frames {
        [0, 0, 0, size, ..] => frames.len() / (usize::from(*size) + 4),
        _ => 0,
    }
}

/// Accepts the site, greets it as a peer of version 1, and sends it these bytes.
pub fn greet(listener: &TcpListener, bytes: &[u8]) -> Result<TcpStream, Fail> {
    let (mut stream, _) = listener.accept()?;
    stream.write_all(range_greeting(0, 0, 1).as_slice())?;
    stream.write_all(bytes)?;
    Ok(stream)
}

/// What the site says first where it is greeted: its greeting, and the length and the kind of a
/// Have. It also says whether that came within three seconds.
pub fn heard_of<R: Clock>(rt: &R, listener: &TcpListener) -> Result<([u8; 60], bool), Fail> {
    let mut stream = greet(listener, b"")?;
    let start = Instant::now(rt)?;
    let mut heard = [0u8; 60];
    stream.read_exact(&mut heard)?;
    let soon = start.elapsed(rt)? < Duration::from_secs(3);
    Ok((heard, soon))
}

/// Says these bytes to the site and nothing after them, and reads until the site ends the link.
pub fn say(alloc: Global, listener: &TcpListener, bytes: &[u8]) -> Result<(), Fail> {
    let stream = greet(listener, bytes)?;
    stream.shutdown(Shutdown::Write)?;
    let _ = read_out(alloc, &stream);
    Ok(())
}

/// How often a shy peer lets the site go.
const LET_GO: usize = 6;

/// Lets the site go before anything came over a link, so that its pauses grow: they are 6,300
/// milliseconds from the first dial to the seventh. Then a frame comes, and the first byte of a
/// frame of a gibibyte. The link ends as no more comes, and the next pause is 100 milliseconds
/// again, where it would be 5,000 if it grew on.
pub fn be_shy<R: Clock>(rt: &R, alloc: Global, listener: &TcpListener) -> Result<(), Fail> {
    let start = Instant::now(rt)?;
    for _dial in 0..LET_GO {
        drop(greet(listener, b"")?);
    }
    say(alloc, listener, b"\x00\x00\x00\x01\x09\x40\x00\x00\x00\x05")?;
    if start.elapsed(rt)? < Duration::from_millis(6_300) {
        return Err("the pauses do not grow".into());
    }
    let start = Instant::now(rt)?;
    drop(listener.accept()?);
    if start.elapsed(rt)? > Duration::from_secs(4) {
        return Err("the pauses do not begin again".into());
    }
    Ok(())
}

/// Breaks the link twice, once with a frame that is none and one that is too long, a gibibyte and a
/// byte, and hears what the site says then. One of the links that are up brings a Have within three
/// seconds: else the site would say what it has after five, and after five more.
pub fn break_twice<R: Clock>(rt: &R, alloc: Global, listener: &TcpListener) -> Result<(), Fail> {
    let (_, first_soon) = heard_of(rt, listener)?;
    let stream = greet(listener, b"\x00\x00\x00\x01\x09\x40\x00\x00\x01")?;
    let _ = read_out(alloc, &stream);
    drop(stream);
    let (heard, then_soon) = heard_of(rt, listener)?;
    if !first_soon && !then_soon {
        return Err("a Have comes late".into());
    }
    let said = range_greeting(1, 0, 3);
    if heard.get(..14) == said.get(..14) && heard.get(59) == Some(&5) {
        return Ok(());
    }
    Err("no greeting and no Have".into())
}

/// Lets the guests do what they do, and then a client, whose connection is the last.
pub fn entertain<N: Net<Listener = TcpListener, Stream = TcpStream>, R: Clock>(
    net: &N,
    rt: &R,
    alloc: Global,
    guests: &Guests<'_>,
    clients: u16,
) -> Result<(), Fail> {
    match guests {
        Guests::Strangers(strangers, door) => {
            for bytes in *strangers {
                drop(dial_in(net, rt, alloc, bytes, *door)?);
            }
        }
        Guests::Dialled(listener) => break_twice(rt, alloc, listener)?,
        Guests::Shy(listener) => be_shy(rt, alloc, listener)?,
        Guests::Curious(door) => look_at_nonces(net, rt, alloc, *door)?,
        Guests::Twice(door) => return link_twice(net, rt, alloc, *door, clients),
        Guests::Silent(door) => stay_silent(net, rt, alloc, *door)?,
        Guests::Runs(door) => come_as_two(net, rt, alloc, *door)?,
        Guests::Dials(door, said) => {
            return dial_as_recorded(net, rt, alloc, *door, clients, said);
        }
        Guests::Accepts(listener, said, score) => {
            return accept_as_recorded(net, rt, alloc, listener, clients, said, score);
        }
        Guests::Old(listener, said, score) => {
            let_newer_go(listener, said)?;
            return accept_as_recorded(net, rt, alloc, listener, clients, said, score);
        }
    }
    drop(connect(net, rt, clients)?);
    Ok(())
}

/// What a site logs while guests come.
pub fn logged_with<R>(
    rt: &R,
    alloc: Global,
    settings: &SiteSettings,
    guests: &Guests<'_>,
    clients: u16,
) -> Result<Vec<u8>, Fail>
where
    R: Memory
        + Files<File = File>
        + Net<Listener = TcpListener, Stream = TcpStream>
        + RandomSource
        + Clock
        + Threads
        + Wait
        + Sync,
    R::Dir: Send,
{
    let log = Logged::new(rt, LevelFilter::Warn, Locked::new(rt, Vec::new(alloc)));
    let mut written = Vec::new(alloc);
    let (ended, entertained) = thread::join(
        rt,
        || serve_site(
            rt,
            &log,
            alloc,
            settings,
            None,
            &mut written,
            &Ending::new(),
            &AtomicU64::new(0),
        ),
        || entertain(rt, rt, alloc, guests, clients),
    );
    entertained?;
    if ended.is_err() {
        return Err("the site was not served".into());
    }
    let (_, sink) = log.into_parts();
    Ok(sink.into_inner())
}

/// Whether the log has all these words.
pub fn is_logged(log: &[u8], want: &[&str]) -> Result<bool, Fail> {
    let log = str::from_utf8(log).map_err(|_| Fail::from("no text"))?;
    Ok(want.iter().all(|words| log.contains(*words)))
}
