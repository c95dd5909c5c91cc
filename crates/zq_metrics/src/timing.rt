//! How long requests take, sorted by bounds.

ghost use Rattle.std.specs.Prelude.{◌<◌, ◌≡◌, ◌≤◌, ℕ, slice_index};
ghost use Rattle.zq_metrics.specs.Timing as wanted;

/// How many bounds there are.
pub const BOUNDS: usize = 15;

/// How many sorts there are: one for each bound, and one for what is past the last.
pub const BUCKETS: usize = 16;

/// The bounds, in nanoseconds: from 10 microseconds to 1 second.
const NANOS: [u64; BOUNDS] = [
    10_000,
    25_000,
    50_000,
    100_000,
    250_000,
    500_000,
    1_000_000,
    2_500_000,
    5_000_000,
    10_000_000,
    25_000_000,
    50_000_000,
    100_000_000,
    250_000_000,
    1_000_000_000,
];

/// The sort of what took so many nanoseconds: the place of the first bound that is not below that,
/// or where all are the place behind them.
pub fn bucket_of(nanoseconds: u64) -> usize
    ensures within { result < 16 }
    ensures above { (place : ℕ) → place < result →
        slice_index wanted.bounds place < nanoseconds }
    ensures below { result < 15 → nanoseconds ≤ slice_index wanted.bounds result }
{
    for place in 0..BOUNDS {
        if nanoseconds <= NANOS[place] {
            return place;
        }
    }
    BOUNDS
}

/// How long some things took, sorted by bounds. Each count begins again at 0 past the last value of
/// 64 bits, as a counter of Prometheus may.
#[derive(Clone, Copy, Debug)]
pub struct Durations {
    /// How many took so long, by the bounds of their time.
    pub(crate) buckets: [u64; BUCKETS],
    /// How many nanoseconds all took together.
    pub(crate) nanoseconds: u64,
}

impl Durations {
    ghost use Rattle.std.specs.Prelude.{◌≡◌};
    ghost use Rattle.zq_metrics.specs.Durations as counted;

    /// Of nothing.
    pub fn none() -> Durations
        ensures { result ≡ counted.none }
    {
        Durations {
            buckets: [0; BUCKETS],
            nanoseconds: 0,
        }
    }

    /// Of one thing more, which took so many nanoseconds.
    pub fn add(&mut self, nanoseconds: u64)
        ensures { counted.IsAdded nanoseconds self.old self.new }
    {
        let place = bucket_of(nanoseconds);
        self.buckets[place] = self.buckets[place].wrapping_add(1);
        self.nanoseconds = self.nanoseconds.wrapping_add(nanoseconds);
    }
}

/// A sort's bound in seconds.
#[tactic(auto, unfolding(crate::specs::Timing::bound_text))]
pub(crate) fn bound_text(place: usize) -> &'static str
    ensures { result.now ≡ wanted.bound_text place }
{
    match place {
        0 => "0.00001",
        1 => "0.000025",
        2 => "0.00005",
        3 => "0.0001",
        4 => "0.00025",
        5 => "0.0005",
        6 => "0.001",
        7 => "0.0025",
        8 => "0.005",
        9 => "0.01",
        10 => "0.025",
        11 => "0.05",
        12 => "0.1",
        13 => "0.25",
        14 => "1",
        _ => "+Inf",
    }
}
