//! How much of a peer's frames may wait for the link thread.

ghost use Rattle.std.specs.Prelude.{IsTrue, false, if◌then◌else◌, min, true, ◌+◌, ◌-◌, ◌^◌, ◌↔◌, ◌≡◌};
ghost use Rattle.zq_site.specs.Quotas.{IsBounded, MayEnter, cost_of as wanted_cost};

use std::sync::{Condvar, Mutex, Wait};

/// The most bytes that a peer's frames take as they wait, unless one waits alone.
const MOST: u64 = 262_144;

/// What a frame takes beside its bytes as it waits.
const BESIDE: u64 = 64;

/// What frames take as they wait: their bytes, and 64 beside the bytes of each. Until nobody waits
/// for room any more that is no more than the most, or there is one frame alone.
#[derive(Drop)]
struct Held {
    frames: u64,
    bytes: u64,
    over: bool,
    ghost bounded: { IsBounded over frames bytes },
}

impl Held {
    /// No frame.
    fn nothing() -> Held
        ensures frames { result.frames ≡ 0 }
        ensures bytes { result.bytes ≡ 0 }
        ensures over { result.over ≡ false }
    {
        Held {
            frames: 0,
            bytes: 0,
            over: false,
        }
    }

    /// Whether a frame that takes so much may wait too: where no other waits, where all together
    /// take no more than the most, and where nobody waits for room any more.
    fn has_room(&self, cost: u64) -> bool
        ensures { IsTrue result
            ↔ MayEnter self.now.over self.now.frames self.now.bytes cost }
    {
        self.over || self.frames == 0 || self.bytes.saturating_add(cost) <= MOST
    }

    /// A frame that takes so much waits, where it may. It says whether it does.
    fn enter(&mut self, cost: u64) -> bool
        ensures room { IsTrue result
            ↔ MayEnter self.old.over self.old.frames self.old.bytes cost }
        ensures over { self.new.over ≡ self.old.over }
        ensures frames { self.new.frames
            ≡ (if result then min (self.old.frames + 1) (2 ^ 64 - 1) else self.old.frames) }
        ensures bytes { self.new.bytes
            ≡ (if result then min (self.old.bytes + cost) (2 ^ 64 - 1) else self.old.bytes) }
    {
        let has_room = self.has_room(cost);
        if has_room {
            *self = Held {
                frames: self.frames.saturating_add(1),
                bytes: self.bytes.saturating_add(cost),
                over: self.over,
            };
        }
        has_room
    }

    /// A frame that took so much waits no more.
    fn leave(&mut self, cost: u64)
        ensures frames { self.new.frames ≡ self.old.frames - 1 }
        ensures bytes { self.new.bytes ≡ self.old.bytes - cost }
        ensures over { self.new.over ≡ self.old.over }
    {
        *self = Held {
            frames: self.frames.saturating_sub(1),
            bytes: self.bytes.saturating_sub(cost),
            over: self.over,
        };
    }

    /// Nobody waits for room any more.
    fn end(&mut self)
        ensures frames { self.new.frames ≡ self.old.frames }
        ensures bytes { self.new.bytes ≡ self.old.bytes }
        ensures over { self.new.over ≡ true }
    {
        self.over = true;
    }
}

/// What a frame of so many bytes takes as it waits.
fn cost_of(length: u64) -> u64
    ensures { result ≡ wanted_cost length }
{
    length.saturating_add(BESIDE)
}

/// How much of a peer's frames waits for the link thread. A reader that finds no room waits, so
/// that the peer is held back by its stream.
#[derive(Drop)]
pub struct Quota {
    held: Mutex<Held>,
    freed: Condvar,
}

impl Quota {
    /// Nothing waits.
    pub fn new() -> Quota {
        Quota {
            held: Mutex::new(Held::nothing()),
            freed: Condvar::new(),
        }
    }

    /// A frame of so many bytes waits, once there is room for it.
    pub fn enter<R: Wait>(&self, rt: &R, length: u64) {
        let cost = cost_of(length);
        let mut held = self.held.lock(rt);
        for _ in rt.forever() {
            if held.enter(cost) {
                return;
            }
            held = self.freed.wait(rt, held);
        }
        unreachable!()
    }

    /// A frame of so many bytes, which had entered, waits no more. Who waits for room is woken.
    pub fn leave<R: Wait>(&self, rt: &R, length: u64) {
        self.held.lock(rt).leave(cost_of(length));
        self.freed.notify_all();
    }

    /// The site ends: nobody waits for room any more.
    pub fn halt<R: Wait>(&self, rt: &R) {
        self.held.lock(rt).end();
        self.freed.notify_all();
    }
}
