//! How long a site waits before it dials again.

ghost use Rattle.std.specs.Duration.{as_nanos};
ghost use Rattle.std.specs.Prelude.{◌≡◌, ◌*◌};
ghost use Rattle.zq_site.specs.Pause.{FIRST_PAUSE, longer_pause, next_pause};

use std::marker::Model;
use std::time::Duration;

/// A pause before a peer is dialled again, 100 to 5,000 milliseconds.
#[derive(Clone, Copy, Debug, PartialEq, Eq)]
pub struct Pause {
    millis: u64,
}

impl Model for Pause {
    ghost use Rattle.std.specs.Prelude.{ℕ};
    ghost use Rattle.zq_site.specs.Pause.{IsPause};

    ghost Value = { ℕ };

    ghost view = { λ p. p.millis };

    ghost invariant = { λ p. IsPause p.millis };

    ghost inverse = { λ millis. record { millis = millis } };
}

impl Pause {
    /// The pause after the first attempt, or after a link over which a frame came: 100
    /// milliseconds.
    pub fn first() -> Pause
        ensures { result ≡ FIRST_PAUSE }
    {
        Pause { millis: 100 }
    }

    /// The pause after one more failure: twice this one, at most 5,000 milliseconds.
    pub fn longer(self) -> Pause
        ensures { result ≡ longer_pause self }
    {
        Pause {
            millis: (2 * self.millis).min(5_000),
        }
    }

    /// Its length.
    pub fn duration(self) -> Duration
        ensures { as_nanos result ≡ self * 1_000_000 }
    {
        Duration::from_millis(self.millis)
    }
}

/// The pause after an attempt, from the last one before it, if there was one: the first pause where
/// a frame of the peer was heard or there was none before, and else a longer one than the last.
pub fn pause_after(last: Option<Pause>, heard: bool) -> Pause
    ensures { result ≡ next_pause last heard }
{
    match last {
        Some(last) if !heard => last.longer(),
        _ => Pause::first(),
    }
}
