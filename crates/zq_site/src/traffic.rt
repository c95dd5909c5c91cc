//! What went over the links to a peer.

use crate::meters::Gauge;
use zq_metrics::PeerFigures;

/// What went over the links to a peer, and how far it is behind.
#[derive(Drop)]
pub struct Traffic {
    frames_in: Gauge,
    frames_out: Gauge,
    bytes_in: Gauge,
    bytes_out: Gauge,
    /// How many seconds ago the last frame came, or the site began.
    silence: Gauge,
    /// How many operations of the site the peer has not said to have.
    pub lag: Gauge,
}

impl Traffic {
    /// Nothing.
    pub fn new() -> Traffic {
        Traffic {
            frames_in: Gauge::new(),
            frames_out: Gauge::new(),
            bytes_in: Gauge::new(),
            bytes_out: Gauge::new(),
            silence: Gauge::new(),
            lag: Gauge::new(),
        }
    }

    /// A frame of so many bytes came.
    pub fn come(&self, bytes: u64) {
        self.frames_in.add(1);
        self.bytes_in.add(bytes);
        self.silence.set(0);
    }

    /// A frame of so many bytes went.
    pub fn go(&self, bytes: u64) {
        self.frames_out.add(1);
        self.bytes_out.add(bytes);
    }

    /// A second went by.
    pub fn tick(&self) {
        self.silence.add(1);
    }

    /// Whether anything went over a link.
    pub fn is_used(&self) -> bool {
        self.frames_in.get() > 0 || self.frames_out.get() > 0
    }

    /// What there is to say of the peer of this number, whose link is up or not.
    pub fn figures(&self, site: u8, is_up: bool) -> PeerFigures {
        PeerFigures {
            site,
            is_up,
            lag: self.lag.get(),
            silence: self.silence.get(),
            bytes_in: self.bytes_in.get(),
            bytes_out: self.bytes_out.get(),
            frames_in: self.frames_in.get(),
            frames_out: self.frames_out.get(),
        }
    }
}
