//! What accepts peers.

use crate::caller::Caller;
use crate::link_serving::serve_link;
use crate::opening::Way;
use crate::peer_listener::PeerListener;
use crate::shared::Shared;
use crate::standing::Standing;
use crate::times::not_accepted;
use log::Log;
use std::random::RandomSource;
use std::sync::Wait;
use std::time::Clock;

/// Accepts connections, one after the other, and reads each until it ends, until the site ends.
pub fn accept_peers<L>(log: &L, shared: Shared<'_>, listener: &PeerListener)
where
    L: Log + RandomSource + Clock + Wait,
{
    for _ in log.forever() {
        if shared.halt.is_over(log) {
            break;
        }
        accept_one(log, shared, listener);
    }
    listener.leave();
}

/// Accepts a connection, and reads it until it ends.
fn accept_one<L>(log: &L, shared: Shared<'_>, listener: &PeerListener)
where
    L: Log + RandomSource + Clock + Wait,
{
    match listener.listener.accept() {
        Ok((stream, address)) => {
            if !shared.halt.is_over(log) {
                let caller = Caller {
                    site: None,
                    address,
                };
                shared.hiring.take(log);
                let mut standing = Standing::Well;
                serve_link(
                    log,
                    shared,
                    stream,
                    caller,
                    shared.dialers,
                    Way::Accepts,
                    &mut standing,
                );
                shared.hiring.free(log);
            }
        }
        Err(_) => {
            shared.halt.wait(log, not_accepted());
        }
    }
}
