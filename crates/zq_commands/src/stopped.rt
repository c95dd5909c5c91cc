//! Why a move was not made.

ghost use Rattle.std.specs.Prelude.{true, ◌≡◌};
ghost use Rattle.zq_commands.specs.Stopped.{want_of};
ghost use Rattle.zq_semantics.specs.Run.{Memory};

/// Why a move was not made. Nothing has changed then.
#[derive(Clone, Copy, Debug, PartialEq, Eq)]
pub enum Stopped {
    /// The site's counter in the book of its heap, or that book's count, is at its last value.
    Worn,
    /// A growth was refused.
    NoMemory,
}

impl Stopped {
    /// Whether it was for want of memory.
    pub(crate) fn is_memory(self) -> bool
        ensures { want_of self ≡ Memory → result ≡ true }
    {
        match self {
            Stopped::Worn => false,
            Stopped::NoMemory => true,
        }
    }
}
