//! Where peers dial in.

use std::net::{Net, SocketAddr, TcpListener, TcpStream};
use std::sync::atomic::{AtomicU64, Ordering};
use std::thread;
use std::time::{Clock, Duration};

/// A listener, and how many threads accept its connections.
#[derive(Drop)]
pub struct PeerListener {
    pub listener: TcpListener,
    kept: AtomicU64,
}

/// How many milliseconds to wait for a thread that was woken.
const WAKING: u64 = 20;

/// How many seconds a connection that wakes a thread may take.
const KNOCKING: u64 = 1;

impl PeerListener {
    /// The listener, whose connections nobody accepts.
    pub fn new(listener: TcpListener) -> PeerListener {
        PeerListener {
            listener,
            kept: AtomicU64::new(0),
        }
    }

    /// A thread is going to accept.
    pub fn enter(&self) {
        self.kept.fetch_add(1, Ordering::SeqCst);
    }

    /// A thread accepts no more.
    pub fn leave(&self) {
        self.kept.fetch_sub(1, Ordering::SeqCst);
    }

    /// Connects to the listener's address, until no thread accepts any more: each ends where it has
    /// accepted a connection after the site's end was told.
    pub fn wake<N: Net<Listener = TcpListener, Stream = TcpStream>, R: Clock>(
        &self,
        net: &N,
        rt: &R,
        address: SocketAddr,
    ) {
        for _ in 0..u64::MAX {
            if self.kept.load(Ordering::SeqCst) == 0 {
                break;
            }
            let _ = TcpStream::connect_timeout(net, &address, Duration::from_secs(KNOCKING));
            thread::sleep(rt, Duration::from_millis(WAKING));
        }
    }
}
