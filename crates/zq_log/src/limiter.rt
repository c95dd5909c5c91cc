//! How many lines of a kind there may be.

ghost use Rattle.std.specs.Prelude.{◌≡◌};
ghost use Rattle.zq_log.specs.Limits.{answer, fresh, limited};

/// How many lines of a kind pass in a window.
const PLACES: usize = 10;

/// The milliseconds of a window.
const WINDOW: u64 = 10_000;

/// Lets at most ten lines of a kind pass in any ten seconds, and counts those that it holds back.
#[derive(Clone, Copy, Debug, PartialEq, Eq)]
pub struct Limiter {
    /// The times in milliseconds from which on the places are free, the newest line's first.
    pub free: [u64; PLACES],
    /// How many lines were held back since the last one that passed, within 64 bits.
    pub held: u64,
}

impl Limiter {
    /// One that no line came to.
    pub fn new() -> Limiter
        ensures { result ≡ fresh }
    {
        Limiter {
            free: [0; PLACES],
            held: 0,
        }
    }

    /// A line comes at this time, in milliseconds from any start. Where it passes the answer says
    /// how many were held back before it; where it is held back there is none. A clock that goes
    /// back only holds more back.
    pub fn admit(&mut self, now: u64) -> Option<u64>
        ensures told { result ≡ answer now self.old }
        ensures after { self.new ≡ limited now self.old }
    {
        if self.free[PLACES - 1] > now {
            self.held = self.held.saturating_add(1);
            return None;
        }
        self.free.rotate_right(1);
        self.free[0] = now.saturating_add(WINDOW);
        let held = self.held;
        self.held = 0;
        Some(held)
    }
}
