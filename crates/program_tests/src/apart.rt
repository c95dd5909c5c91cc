//! Sites over loopback.

mod clients;
mod guests;
mod herald;
mod places;
mod recorded;

use clients::{Step, serve_all};
use guests::{Guests, greeting, is_logged, logged_with, read_out};
use herald::Herald;
use log::sink::Locked;
use log::{LevelFilter, Logged};
use places::{Place, free_places, settings_at, settings_of, settings_with};
use recorded::{version_1, version_2, version_3};
use std::alloc::Global;
use std::fs::File;
use std::net::{Net, TcpListener, TcpStream};
use std::random::RandomSource;
use std::rt::Files;
use std::sync::Wait;
use std::sync::atomic::AtomicU64;
use std::test::Fail;
use std::thread::Threads;
use std::time::Clock;
use zq_serve::Memory;
use zq_settings::SiteSettings;
use zq_site::{Ending, serve_site};

const ADD_A: &[u8] = b"*4\r\n$4\r\nZADD\r\n$1\r\nq\r\n$1\r\n3\r\n$1\r\na\r\n";

const ADD_B: &[u8] = b"*4\r\n$4\r\nZADD\r\n$1\r\nq\r\n$1\r\n4\r\n$1\r\nb\r\n";

const RAISE_B: &[u8] = b"*4\r\n$7\r\nZINCRBY\r\n$1\r\nq\r\n$1\r\n4\r\n$1\r\nb\r\n";

const REMOVE_B: &[u8] = b"*3\r\n$4\r\nZREM\r\n$1\r\nq\r\n$1\r\nb\r\n";

const DELETE: &[u8] = b"*2\r\n$3\r\nDEL\r\n$1\r\nq\r\n";

/// What a command that adds is answered where the process has more memory than it may.
const FULL: &[u8] = b"-OOM command not allowed when used memory > 'maxmemory'.\r\n";

const CARD: &[u8] = b"*2\r\n$5\r\nZCARD\r\n$1\r\nq\r\n";

const RANGE: &[u8] = b"*4\r\n$6\r\nZRANGE\r\n$1\r\nq\r\n$1\r\n0\r\n$2\r\n-1\r\n";

const BOTH: &[u8] = b"*2\r\n$1\r\na\r\n$1\r\nb\r\n";

// Site 2, of two heaps and the first rule, says that it has a secret, and gives 16 bytes and an
// answer that it guesses.
const GUESSED: &[u8] =
    b"zq-peer\n\x01\x02\x02\x00\x01sixteen bytes...................................";

// What the first site is told and then the last one, with the number of the last one's place.
fn steps_to(last: usize) -> [Step<'static>; 6] {
    [
        Step::Ask(0, ADD_A, b":1\r\n"),
        Step::Await(last, CARD, b":1\r\n"),
        Step::Ask(last, ADD_B, b":1\r\n"),
        Step::Await(0, CARD, b":2\r\n"),
        Step::Ask(0, RANGE, BOTH),
        Step::Ask(last, RANGE, BOTH),
    ]
}

/// Serves sites at these places with a secret, the clients of the first and of the last of which
/// find what both were told.
fn meet<R>(rt: &R, alloc: Global, places: &[Place], secret: Option<&str>) -> Result<bool, Fail>
where
    R: Memory
        + Files<File = File>
        + Net<Listener = TcpListener, Stream = TcpStream>
        + RandomSource
        + Clock
        + Threads
        + Wait
        + Sync,
    R::Dir: Send,
{
    let mut settings = Vec::new(alloc);
    for place in places {
        settings.push(settings_of(alloc, *place, places, secret)?)?;
    }
    let log = Logged::new(rt, LevelFilter::Warn, Locked::new(rt, Vec::new(alloc)));
    let steps = steps_to(places.len().saturating_sub(1));
    serve_all(rt, &log, alloc, places, &settings, &steps)
}

#[test]
fn what_one_site_is_told_others_have(rt: HostRuntime) -> Result<(), Fail> {
    let rounds = [(2, None), (3, Some("a secret of sites"))];
    for (sites, secret) in rounds {
        let places = free_places(&rt, rt.alloc(), rt.process(), sites)?;
        assert!(rt; meet(&rt, rt.alloc(), &places, secret)?, "{sites}");
    }
    Ok(())
}

/// Whether site 1 of three, with this secret, lets strangers go and warns of them in these words.
fn lets_go<R>(
    rt: &R,
    alloc: Global,
    places: &[Place],
    secret: Option<&str>,
    strangers: &[&[u8]],
    words: &[&str],
) -> Result<bool, Fail>
where
    R: Memory
        + Files<File = File>
        + Net<Listener = TcpListener, Stream = TcpStream>
        + RandomSource
        + Clock
        + Threads
        + Wait
        + Sync,
    R::Dir: Send,
{
    let [_, own, _] = places else {
        return Err("three places".into());
    };
    let settings = settings_of(alloc, *own, places, secret)?;
    let guests = Guests::Strangers(strangers, own.door());
    let log = logged_with(rt, alloc, &settings, &guests, own.clients)?;
    is_logged(&log, words)
}

#[test]
fn who_is_not_welcome_is_let_go(rt: HostRuntime) -> Result<(), Fail> {
    let strangers: [&[u8]; 5] = [
        b"GET / HTTP/1.1\r\n\r\n",
        &greeting(2, 2, 1),
        &greeting(2, 3, 0),
        &greeting(3, 2, 0),
        // A peer that is dialled, and does not dial.
        &greeting(0, 2, 0),
    ];
    let words = [
        "site=1 peer refused address=127.0.0.1:",
        " reason=it does not greet as a site does",
        "site=1 peer refused peer=2 address=127.0.0.1:",
        " reason=it has another rule",
        " reason=it has 3 heaps",
        "site=1 peer refused peer=3 address=127.0.0.1:",
        " reason=site 3 is not expected",
        " reason=site 0 is not expected",
    ];
    let places = free_places(&rt, rt.alloc(), rt.process(), 3)?;
    assert!(rt; lets_go(&rt, rt.alloc(), &places, None, &strangers, &words)?);
    Ok(())
}

#[test]
fn who_does_not_know_the_secret_is_let_go(rt: HostRuntime) -> Result<(), Fail> {
    let strangers: [&[u8]; 2] = [&greeting(2, 2, 0), GUESSED];
    let words = [
        "site=1 peer refused peer=2 address=127.0.0.1:",
        " reason=it has no secret, and this site wants one",
        " reason=it does not know the secret",
    ];
    let secret = Some("a secret of sites");
    let places = free_places(&rt, rt.alloc(), rt.process(), 3)?;
    assert!(rt; lets_go(&rt, rt.alloc(), &places, secret, &strangers, &words)?);
    Ok(())
}

#[test]
fn a_peer_is_dialled_again_after_a_break(rt: HostRuntime) -> Result<(), Fail> {
    let alloc = rt.alloc();
    let places = free_places(&rt, alloc, rt.process(), 2)?;
    let [peer, own] = places.as_slice() else {
        return Err("two places".into());
    };
    let settings = settings_of(alloc, *own, &places, None)?;
    let listener = TcpListener::bind(&rt, peer.door())?;
    let guests = Guests::Dialled(&listener);
    let log = logged_with(&rt, alloc, &settings, &guests, own.clients)?;
    let words = [
        "site=1 link lost peer=0 address=127.0.0.1:",
        " reason=a frame is too long",
        "site=1 frame dropped peer=0 reason=it is no frame",
    ];
    assert!(rt; is_logged(&log, &words)?);
    Ok(())
}

#[test]
fn pauses_grow_until_a_frame_comes(rt: HostRuntime) -> Result<(), Fail> {
    let alloc = rt.alloc();
    let places = free_places(&rt, alloc, rt.process(), 2)?;
    let [peer, own] = places.as_slice() else {
        return Err("two places".into());
    };
    let settings = settings_of(alloc, *own, &places, None)?;
    let listener = TcpListener::bind(&rt, peer.door())?;
    let guests = Guests::Shy(&listener);
    let log = logged_with(&rt, alloc, &settings, &guests, own.clients)?;
    let words = [
        "site=1 frame dropped peer=0 reason=it is no frame",
        "site=1 link lost peer=0 address=127.0.0.1:",
        " reason=it was closed",
    ];
    assert!(rt; is_logged(&log, &words)?);
    assert!(rt; !is_logged(&log, &["too long"])?);
    Ok(())
}

#[test]
fn a_peer_that_says_nothing_is_given_up_after_20_seconds(rt: HostRuntime) -> Result<(), Fail> {
    let alloc = rt.alloc();
    let places = free_places(&rt, alloc, rt.process(), 2)?;
    let [own, _] = places.as_slice() else {
        return Err("two places".into());
    };
    let settings = settings_of(alloc, *own, &places, None)?;
    let guests = Guests::Silent(own.door());
    let log = logged_with(&rt, alloc, &settings, &guests, own.clients)?;
    let words = [
        "site=0 link lost peer=1 address=127.0.0.1:",
        " reason=nothing came for 20 seconds",
    ];
    assert!(rt; is_logged(&log, &words)?);
    Ok(())
}

#[test]
fn each_byte_of_a_nonce_is_drawn(rt: HostRuntime) -> Result<(), Fail> {
    let alloc = rt.alloc();
    let places = free_places(&rt, alloc, rt.process(), 2)?;
    let [own, _] = places.as_slice() else {
        return Err("two places".into());
    };
    let settings = settings_of(alloc, *own, &places, Some("a secret of sites"))?;
    let guests = Guests::Curious(own.door());
    let log = logged_with(&rt, alloc, &settings, &guests, own.clients)?;
    let words = [" reason=it has no secret, and this site wants one"];
    assert!(rt; is_logged(&log, &words)?);
    Ok(())
}

#[test]
fn no_loss_is_warned_of_where_a_newer_link_or_the_end_came(rt: HostRuntime) -> Result<(), Fail> {
    let alloc = rt.alloc();
    let places = free_places(&rt, alloc, rt.process(), 2)?;
    let [own, _] = places.as_slice() else {
        return Err("two places".into());
    };
    let settings = settings_of(alloc, *own, &places, None)?;
    let guests = Guests::Twice(own.door());
    let log = logged_with(&rt, alloc, &settings, &guests, own.clients)?;
    assert_eq!(rt; log.as_slice(), b"".as_slice());
    Ok(())
}

// The sites that play have the numbers 0 and 2, which nobody had as it was recorded.
#[test]
fn a_conversation_of_version_1_is_understood(rt: HostRuntime) -> Result<(), Fail> {
    let alloc = rt.alloc();
    let places = free_places(&rt, alloc, rt.process(), 3)?;
    let [lesser, peer, greater] = places.as_slice() else {
        return Err("three places".into());
    };
    let settings = settings_with(alloc, *lesser, &[*lesser], None, "alone = 0\n")?;
    let guests = Guests::Dials(lesser.door(), &version_1::DIALLED);
    let log = logged_with(&rt, alloc, &settings, &guests, lesser.clients)?;
    assert!(rt; !is_logged(&log, &["dropped"])?);
    let settings = settings_with(alloc, *greater, &[*peer, *greater], None, "alone = 0\n")?;
    let listener = TcpListener::bind(&rt, peer.door())?;
    let guests = Guests::Old(&listener, &version_1::ACCEPTED, b"$4\r\n5000\r\n");
    let log = logged_with(&rt, alloc, &settings, &guests, greater.clients)?;
    assert!(rt; !is_logged(&log, &["dropped"])?);
    Ok(())
}

#[test]
fn a_conversation_of_version_2_is_understood(rt: HostRuntime) -> Result<(), Fail> {
    let alloc = rt.alloc();
    let places = free_places(&rt, alloc, rt.process(), 3)?;
    let [lesser, peer, greater] = places.as_slice() else {
        return Err("three places".into());
    };
    let settings = settings_with(alloc, *lesser, &[*lesser], None, "alone = 0\n")?;
    let guests = Guests::Dials(lesser.door(), &version_2::DIALLED);
    let log = logged_with(&rt, alloc, &settings, &guests, lesser.clients)?;
    assert!(rt; !is_logged(&log, &["dropped"])?);
    let settings = settings_with(alloc, *greater, &[*peer, *greater], None, "alone = 0\n")?;
    let listener = TcpListener::bind(&rt, peer.door())?;
    let guests = Guests::Accepts(&listener, &version_2::ACCEPTED, b"$5\r\n60000\r\n");
    let log = logged_with(&rt, alloc, &settings, &guests, greater.clients)?;
    assert!(rt; !is_logged(&log, &["dropped"])?);
    Ok(())
}

#[test]
fn a_conversation_of_version_3_is_understood(rt: HostRuntime) -> Result<(), Fail> {
    let alloc = rt.alloc();
    let places = free_places(&rt, alloc, rt.process(), 3)?;
    let [lesser, peer, greater] = places.as_slice() else {
        return Err("three places".into());
    };
    let settings = settings_with(alloc, *lesser, &[*lesser], None, "alone = 0\n")?;
    let guests = Guests::Dials(lesser.door(), &version_3::DIALLED);
    let log = logged_with(&rt, alloc, &settings, &guests, lesser.clients)?;
    assert!(rt; !is_logged(&log, &["dropped"])?);
    let settings = settings_with(alloc, *greater, &[*peer, *greater], None, "alone = 0\n")?;
    let listener = TcpListener::bind(&rt, peer.door())?;
    let guests = Guests::Accepts(&listener, &version_3::ACCEPTED, b"$5\r\n60000\r\n");
    let log = logged_with(&rt, alloc, &settings, &guests, greater.clients)?;
    assert!(rt; !is_logged(&log, &["dropped"])?);
    Ok(())
}

#[test]
fn another_run_of_a_number_is_let_go_and_told_so(rt: HostRuntime) -> Result<(), Fail> {
    let alloc = rt.alloc();
    let places = free_places(&rt, alloc, rt.process(), 2)?;
    let [own, _] = places.as_slice() else {
        return Err("two places".into());
    };
    let settings = settings_with(alloc, *own, &[*own], None, "alone = 0\n")?;
    let guests = Guests::Runs(own.door());
    let log = logged_with(&rt, alloc, &settings, &guests, own.clients)?;
    let words = [
        "site=0 peer refused peer=1 address=127.0.0.1:",
        " reason=another run of its number is linked",
    ];
    assert!(rt; is_logged(&log, &words)?);
    Ok(())
}

#[test]
fn no_write_is_taken_before_peers_are_heard(rt: HostRuntime) -> Result<(), Fail> {
    let alloc = rt.alloc();
    let places = free_places(&rt, alloc, rt.process(), 1)?;
    let [own] = places.as_slice() else {
        return Err("a place".into());
    };
    let mut settings = Vec::new(alloc);
    settings.push(settings_with(alloc, *own, &places, None, "alone = 1000\n")?)?;
    let log = Logged::new(&rt, LevelFilter::Warn, Locked::new(&rt, Vec::new(alloc)));
    let steps = [
        Step::Ask(0, ADD_A, b"-LOADING site 0 waits for its peers\r\n"),
        Step::Ask(0, CARD, b":0\r\n"),
    ];
    assert!(rt; serve_all(&rt, &log, alloc, &places, &settings, &steps)?);
    Ok(())
}

// Any process has more than a byte, which is seen as soon as it is looked.
#[test]
fn a_site_past_its_bound_of_memory_takes_nothing_that_adds(rt: HostRuntime) -> Result<(), Fail> {
    let alloc = rt.alloc();
    let places = free_places(&rt, alloc, rt.process(), 1)?;
    let [own] = places.as_slice() else {
        return Err("a place".into());
    };
    let mut settings = Vec::new(alloc);
    let bound = "alone = 0\nmax_memory = 1\n";
    settings.push(settings_with(alloc, *own, &places, None, bound)?)?;
    let log = Logged::new(&rt, LevelFilter::Warn, Locked::new(&rt, Vec::new(alloc)));
    let steps = [
        Step::Await(0, ADD_A, FULL),
        Step::Ask(0, ADD_B, FULL),
        Step::Ask(0, RAISE_B, FULL),
        Step::Ask(0, REMOVE_B, b":0\r\n"),
        Step::Await(0, DELETE, b":0\r\n"),
        Step::Ask(0, CARD, b":0\r\n"),
    ];
    assert!(rt; serve_all(&rt, &log, alloc, &places, &settings, &steps)?);
    let (_, sink) = log.into_parts();
    let words = ["site=0 memory full bytes=", " max_memory=1"];
    assert!(rt; is_logged(&sink.into_inner(), &words)?);
    Ok(())
}

// The port is taken at 127.0.0.1, so that a site that listens there for its clients, or at all
// addresses, is not served.
#[test]
fn clients_are_heard_at_the_address_of_bind(rt: HostRuntime) -> Result<(), Fail> {
    let alloc = rt.alloc();
    let places = free_places(&rt, alloc, rt.process(), 1)?;
    let [own] = places.as_slice() else {
        return Err("a place".into());
    };
    let port = own.clients;
    let _taken = TcpListener::bind(&rt, ("127.0.0.1", port))?;
    let settings = settings_at(alloc, *own, "127.0.0.2")?;
    let log = Logged::new(&rt, LevelFilter::Warn, Locked::new(&rt, Vec::new(alloc)));
    let mut herald = Herald::new(&rt, alloc, *own);
    serve_site(
        &rt,
        &log,
        alloc,
        &settings,
        None,
        &mut herald,
        &Ending::new(),
        &AtomicU64::new(0),
    )?;
    let line = format!(in alloc; "site 0 port {port} peers {}\n", own.door())?;
    assert_eq!(rt; herald.line.as_slice(), line.as_bytes());
    let client = herald.client.as_ref().ok_or("nobody asked")?;
    assert_eq!(rt; read_out(alloc, client).as_slice(), b"+PONG\r\n".as_slice());
    Ok(())
}
