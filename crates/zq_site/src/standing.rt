//! How a peer that is dialled takes this site, and what is said of it.

ghost use Rattle.std.specs.Prelude.{◌≡◌};
ghost use Rattle.zq_site.specs.Standings.{standing_after, word_on};

use crate::notice::Reason;
use std::fmt;

/// How the opening of a link ended that was not opened.
#[derive(Clone, Copy, Debug, PartialEq, Eq)]
pub enum Ending {
    /// The peer closed the stream.
    Closed,
    /// The time was over.
    Late,
    /// The stream failed, or there was no memory.
    Failed,
}

impl fmt::Display for Ending {
    ghost use Rattle.std.specs.Prelude.{Some};
    ghost use Rattle.zq_site.specs.Standings.{words_of_ending};

    ghost output = { λ ending. Some (words_of_ending ending) };

    /// How, on one line.
    fn fmt<W: fmt::Write>(&self, f: &mut fmt::Formatter<W>) -> fmt::Result {
        f.write_str(match self {
            Ending::Closed => "it was closed as it was opened",
            Ending::Late => "it was not opened within 5 seconds",
            Ending::Failed => "it failed as it was opened",
        })
    }
}

/// What was said last of how a peer takes this site.
#[derive(Clone, Copy, Debug, PartialEq, Eq)]
pub enum Standing {
    /// Nothing, or that it takes this site again.
    Well,
    /// That it refuses this site, for this reason.
    Refused(Reason),
    /// That a link to it was not opened.
    Unopened,
}

/// What is seen of how a peer takes this site.
#[derive(Clone, Copy, Debug, PartialEq, Eq)]
pub enum Sign {
    /// A frame of it came. A greeting that agrees is no sign that this site is welcome there.
    Frame,
    /// It says that it lets this site go.
    Refusal(Reason),
    /// The opening of a link ended so, and it said nothing of that.
    Unopened(Ending),
}

/// What there is to say.
#[derive(Clone, Copy, Debug, PartialEq, Eq)]
pub enum Word {
    /// Nothing that was not said.
    Nothing,
    /// The peer refuses this site.
    Refused(Reason),
    /// A link to it was not opened.
    Unopened(Ending),
    /// It takes this site again.
    Again,
}

/// What was said last once this was seen. That a link was not opened is not said of a peer that
/// refused this site.
pub fn standing_after(standing: Standing, sign: Sign) -> Standing
    ensures { result ≡ standing_after standing sign }
{
    match (standing, sign) {
        (_, Sign::Frame) => Standing::Well,
        (_, Sign::Refusal(reason)) => Standing::Refused(reason),
        (Standing::Well, Sign::Unopened(_)) => Standing::Unopened,
        (standing, Sign::Unopened(_)) => standing,
    }
}

/// What there is to say as this is seen.
pub fn word_on(standing: Standing, sign: Sign) -> Word
    ensures { result ≡ word_on standing sign }
{
    match (standing, sign) {
        (Standing::Well, Sign::Frame) => Word::Nothing,
        (Standing::Refused(_) | Standing::Unopened, Sign::Frame) => Word::Again,
        (Standing::Refused(Reason::Unexpected), Sign::Refusal(Reason::Unexpected)) => Word::Nothing,
        (Standing::Refused(Reason::Secret), Sign::Refusal(Reason::Secret)) => Word::Nothing,
        (_, Sign::Refusal(reason)) => Word::Refused(reason),
        (Standing::Well, Sign::Unopened(ending)) => Word::Unopened(ending),
        (Standing::Refused(_) | Standing::Unopened, Sign::Unopened(_)) => Word::Nothing,
    }
}
