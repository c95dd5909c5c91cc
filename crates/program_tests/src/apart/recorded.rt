//! Conversations of two sites, as they were recorded between programs of each version of the links:
//! site 5 dialled site 1, both of two heaps, under the rule HIGH and without a secret. Site 1 had
//! put `a` so often that its heap 0 is fetched: it goes at once, or in one piece. Then site 5 put `b`
//! by 4, and site 1 added 2 to that, and put `c` by 7 and `d` by 8. `b` and `d` are of heap 1.
//!
//! A change of frames adds one here, which `bench/recorded.py` prints.

pub mod version_1;
pub mod version_2;
pub mod version_3;

use super::clients::is_answered;
use super::places::connect;
use crate::patience::{LOOKS, nap};
use std::alloc::Global;
use std::io::Write;
use std::net::{Net, SocketAddr, TcpListener, TcpStream};
use std::test::Fail;
use std::time::Clock;

/// Says these bytes.
fn say_all(stream: &TcpStream, parts: &[&[u8]]) -> Result<(), Fail> {
    let mut writer = stream;
    for part in parts {
        writer.write_all(part)?;
    }
    Ok(())
}

/// Asks a site's client for the score of a member of `q`, until it is this one.
fn await_score<R: Clock>(
    rt: &R,
    alloc: Global,
    client: &TcpStream,
    request: &[u8],
    score: &[u8],
) -> Result<(), Fail> {
    for _look in 0..LOOKS {
        if is_answered(alloc, client, request, score)? {
            return Ok(());
        }
        nap(rt);
    }
    Err("the score does not come".into())
}

const SCORE_A: &[u8] = b"*3\r\n$6\r\nZSCORE\r\n$1\r\nq\r\n$1\r\na\r\n";

const SCORE_B: &[u8] = b"*3\r\n$6\r\nZSCORE\r\n$1\r\nq\r\n$1\r\nb\r\n";

const SCORE_C: &[u8] = b"*3\r\n$6\r\nZSCORE\r\n$1\r\nq\r\n$1\r\nc\r\n";

/// Dials in and says what site 5 said. The site then has what site 5 had put.
pub fn dial_as_recorded<N: Net<Listener = TcpListener, Stream = TcpStream>, R: Clock>(
    net: &N,
    rt: &R,
    alloc: Global,
    door: SocketAddr,
    clients: u16,
    said: &[&[u8]],
) -> Result<(), Fail> {
    let stream = connect(net, rt, door.port())?;
    say_all(&stream, said)?;
    let client = connect(net, rt, clients)?;
    await_score(rt, alloc, &client, SCORE_B, b"$1\r\n4\r\n")
}

/// Lets a greeting of the newer form go, as a site does that speaks version 1 alone.
pub fn let_newer_go(listener: &TcpListener, said: &[&[u8]]) -> Result<(), Fail> {
    let (newer, _) = listener.accept()?;
    say_all(&newer, said.get(..1).unwrap_or(&[]))
}

/// Is dialled, and says what site 1 said. The site then has the heap that site 1 gave whole, with
/// this score of `a`, and what site 1 put there after that.
pub fn accept_as_recorded<N: Net<Listener = TcpListener, Stream = TcpStream>, R: Clock>(
    net: &N,
    rt: &R,
    alloc: Global,
    listener: &TcpListener,
    clients: u16,
    said: &[&[u8]],
    score: &[u8],
) -> Result<(), Fail> {
    let (stream, _) = listener.accept()?;
    say_all(&stream, said)?;
    let client = connect(net, rt, clients)?;
    await_score(rt, alloc, &client, SCORE_A, score)?;
    await_score(rt, alloc, &client, SCORE_C, b"$1\r\n7\r\n")
}
