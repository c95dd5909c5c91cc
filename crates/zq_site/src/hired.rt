//! What starts threads as links come.

use crate::accepting::accept_peers;
use crate::hiring::Job;
use crate::peer_links::peer_link_of;
use crate::peer_listener::PeerListener;
use crate::shared::Shared;
use crate::writing::write_link;
use log::Log;
use std::random::RandomSource;
use std::sync::Wait;
use std::thread;
use std::thread::Threads;
use std::time::Clock;

/// Starts a thread that writes each link that comes up first, and one more that accepts peers where
/// all others have somebody, until the site ends. One that does not start is asked for again when
/// it is wanted next.
pub fn hire_all<L>(log: &L, shared: Shared<'_>, listener: &PeerListener)
where
    L: Log + RandomSource + Clock + Threads + Wait + Sync,
{
    thread::scope(thread::scope_env(), log, move |scope| {
        for _ in log.forever() {
            let Some(job) = shared.hiring.next(log) else {
                break;
            };
            match job {
                Job::Write(peer) => {
                    if let Some(peer_link) = peer_link_of(shared.peer_links, peer)
                        && scope
                            .spawn(move || write_link(log, shared, peer_link))
                            .is_err()
                    {
                        peer_link.lacks_writer();
                    }
                }
                Job::Accept => {
                    listener.enter();
                    if scope
                        .spawn(move || accept_peers(log, shared, listener))
                        .is_err()
                    {
                        listener.leave();
                        shared.hiring.leave(log);
                    }
                }
            }
        }
    });
}
