//! How long the tail of a book may become.
ghost use Rattle.std.specs.Prelude.{◌≡◌};
ghost use Rattle.zq_model.specs.Limits.{standard};
ghost use Rattle.zq_journal.specs.Limits.{limits_of};

/// How long the tail of a book may become before a call cuts it.
#[derive(Clone, Copy, Debug, Drop)]
pub struct TailLimits {
    /// From this number of records on a tail is cut,
    pub long: usize,
    /// to this number of its newest.
    pub kept: usize,
    /// The bytes of keys and members that a cut leaves at most; `None` where there is no such
    /// limit.
    pub bytes: Option<u64>,
}

impl TailLimits {
    /// Those of a book where nothing else is said: a tail of 4,096 records is cut to 2,048,
    /// whatever their bytes.
    pub fn standard() -> TailLimits
        ensures { limits_of result ≡ standard }
    {
        TailLimits {
            long: 4096,
            kept: 2048,
            bytes: None,
        }
    }
}
