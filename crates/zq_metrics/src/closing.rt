//! Why connections are closed that are not ended by their clients.

ghost use Rattle.std.specs.Prelude.{◌<◌, ◌≡◌};
ghost use Rattle.zq_metrics.specs.Closings as wanted;

/// How many reasons there are.
pub const CLOSINGS: usize = 5;

/// Why a connection is closed.
#[derive(Clone, Copy, Debug, PartialEq, Eq)]
pub enum Closing {
    /// It broke the protocol.
    Protocol,
    /// It could not be accepted, read or written.
    Device,
    /// It did not take what it was owed in time.
    Slow,
    /// All connections were owed too much, and it was owed most.
    Output,
    /// It brought nothing for too long.
    Idle,
}

impl Closing {
    /// The reason's place among all.
    pub fn place(self) -> usize
        ensures place { result ≡ wanted.place_of self }
        ensures within { result < 5 }
    {
        match self {
            Closing::Protocol => 0,
            Closing::Device => 1,
            Closing::Slow => 2,
            Closing::Output => 3,
            Closing::Idle => 4,
        }
    }
}

/// The name of the reason at a place.
#[tactic(auto, unfolding(crate::specs::Closings::reason_at))]
pub(crate) fn reason_at(place: usize) -> &'static str
    ensures { result.now ≡ wanted.reason_at place }
{
    match place {
        0 => "protocol",
        1 => "device",
        2 => "slow",
        3 => "output",
        _ => "idle",
    }
}
