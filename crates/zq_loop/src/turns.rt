//! A worker's turn: its connections are served, and then they are written.

ghost use Rattle.std.specs.Prelude.{◌<◌, ◌≡◌, ◌≤◌, length};
ghost use Rattle.zq_loop.specs.Life.{IsTurn, moment};
ghost use Rattle.zq_loop.specs.Turns.{AreOthers};

use crate::attending::{Attended, Attends};
use crate::client::Client;
use crate::socket::Socket;
use crate::watch::Watch;
use std::alloc::Global;

/// A turn of the connections at these places: each is served, then whoever watches settles, and
/// then each is written. So all of them are served as before, those at other places too.
pub fn turn<S: Socket + Drop, C: Drop, A: Attends<C>, W: Watch>(
    clients: &mut [Option<Client<S, C>>],
    places: &[usize],
    alloc: Global,
    attending: &mut Attended<A, C>,
    buffer: &mut [u8],
    now: u64,
    watch: &W,
)
    requires others { AreOthers A.others A.answers }
    requires some { 0 < length buffer.old }
    requires one_read { length buffer.old ≤ 65536 }
    ensures { IsTurn S.does A.others A.answers (moment attending.old.answerer clients.old)
        (moment attending.new.answerer clients.new) }
{
    serve_all(clients, places, alloc, attending, buffer, now);
    watch.settle();
    write_all(clients, places, alloc, now, attending);
}

/// Serves the connections at these places, one after the other.
fn serve_all<S: Socket + Drop, C: Drop, A: Attends<C>>(
    clients: &mut [Option<Client<S, C>>],
    places: &[usize],
    alloc: Global,
    attending: &mut Attended<A, C>,
    buffer: &mut [u8],
    now: u64,
)
    requires others { AreOthers A.others A.answers }
    requires some { 0 < length buffer.old }
    requires one_read { length buffer.old ≤ 65536 }
    ensures { IsTurn S.does A.others A.answers (moment attending.old.answerer clients.old)
        (moment attending.new.answerer clients.new) }
{
    for place in places {
        serve_at(clients, *place, alloc, attending, buffer, now);
    }
}

/// Serves the connection at a place, if there is one.
fn serve_at<S: Socket + Drop, C: Drop, A: Attends<C>>(
    clients: &mut [Option<Client<S, C>>],
    place: usize,
    alloc: Global,
    attending: &mut Attended<A, C>,
    buffer: &mut [u8],
    now: u64,
)
    requires others { AreOthers A.others A.answers }
    requires some { 0 < length buffer.old }
    requires one_read { length buffer.old ≤ 65536 }
    ensures turned { IsTurn S.does A.others A.answers (moment attending.old.answerer clients.old)
        (moment attending.new.answerer clients.new) }
    ensures buffer { length buffer.new ≡ length buffer.old }
{
    if place >= clients.len() {
        return;
    }
    if let Some(client) = &mut clients[place] {
        client.serve(alloc, attending, buffer, now);
    }
}

/// Writes to the connections at these places, one after the other. What answers is there for the
/// proof alone.
fn write_all<S: Socket + Drop, C: Drop, A: Attends<C>>(
    clients: &mut [Option<Client<S, C>>],
    places: &[usize],
    alloc: Global,
    now: u64,
    attending: &Attended<A, C>,
)
    ensures { IsTurn S.does A.others A.answers (moment attending.now.answerer clients.old)
        (moment attending.now.answerer clients.new) }
{
    for place in places {
        write_at(clients, *place, alloc, now, attending);
    }
}

/// Writes to the connection at a place, if there is one.
fn write_at<S: Socket + Drop, C: Drop, A: Attends<C>>(
    clients: &mut [Option<Client<S, C>>],
    place: usize,
    alloc: Global,
    now: u64,
    _attending: &Attended<A, C>,
)
    ensures { IsTurn S.does A.others A.answers (moment _attending.now.answerer clients.old)
        (moment _attending.now.answerer clients.new) }
{
    if place >= clients.len() {
        return;
    }
    if let Some(client) = &mut clients[place] {
        client.write(alloc, now);
    }
}
