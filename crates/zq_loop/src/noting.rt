//! What the system told of a worker's sockets.

ghost use Rattle.zq_loop.specs.Life.{Rests};

use crate::client::Client;
use crate::inbox::WAKER;
use crate::places::{Told, note_at};
use crate::socket::Socket;
use mio::Events;

/// Notes each event at the client that it is of, and says whether the inbox may have more.
pub fn note_all<S: Socket + Drop, C: Drop>(
    events: &Events,
    clients: &mut [Option<Client<S, C>>],
    queue: &mut Vec<usize>,
) -> bool
    ensures { Rests clients.old clients.new }
{
    let mut has_mail = false;
    for event in events.iter() {
        let token = event.token();
        if token == WAKER {
            has_mail = true;
        } else {
            let told = Told {
                is_readable: event.is_readable(),
                is_writable: event.is_writable(),
                is_last: event.is_read_closed() || event.is_error(),
            };
            note_at(clients, queue, token.0.saturating_sub(1), told);
        }
    }
    has_mail
}
