//! What a faulty link does to a frame, by a word.

ghost use Rattle.std.specs.Prelude.{◌≡◌};

/// What a faulty link does to a frame.
#[derive(Clone, Copy, PartialEq, Eq, Debug, Drop)]
pub enum Fault {
    /// The frame is lost.
    Lost,
    /// The frame is passed on twice.
    Doubled,
    /// The frame is held back, behind those that are held.
    HeldBack,
    /// The frame is passed on, and then the one that was held back longest.
    Overtakes,
    /// The frame is passed on.
    Spared,
}

impl Fault {
    ghost use Rattle.zq_links.specs.Faults.{fault_of};

    /// The fault that a word draws, by its remainder modulo 8: 0 lost, 1 doubled, 2 held back, 3
    /// overtakes, 4 to 7 spared.
    pub fn of(word: u32) -> Fault
        ensures { result ≡ fault_of word }
    {
        match word % 8 {
            0 => Fault::Lost,
            1 => Fault::Doubled,
            2 => Fault::HeldBack,
            3 => Fault::Overtakes,
            _ => Fault::Spared,
        }
    }
}
