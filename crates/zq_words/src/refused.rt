//! Why a request is no command.

ghost use Rattle.std.specs.Prelude.{◌≡◌, ◌∷◌, None, IsTrue};
ghost use Rattle.zq_resp.specs.Reply.{reply_bytes, is_writable, line};
ghost use Rattle.zq_resp.specs.declared.reply.Reply.{Reply};
ghost use Rattle.zq_words.specs.Refused.{refused_text};

use std::alloc::AllocError;
use zq_resp::Reply;

/// The first reason for which a request is answered by an error: up to `OnePair` in this order, and
/// then for numbers and bounds as they stand from left to right, and then for memory.
#[derive(Clone, Copy, Debug, PartialEq, Eq)]
pub enum Refused {
    /// No command has this name.
    Unknown,
    /// The command does not take this number of words.
    Words,
    /// An unknown option, a LIMIT without two words behind it or without BYSCORE, scores without
    /// members, or no pair at all.
    Syntax,
    /// Flags of ZADD that exclude each other.
    Flags,
    /// INCR with more than one pair.
    OnePair,
    /// A score or an increment that is no whole number, or is out of range.
    Score,
    /// A place, an offset or a count that is no whole number, or that an `i64` does not hold.
    Whole,
    /// A count to pop below 0.
    Negative,
    /// A bound that is none.
    Bound,
    /// There was no memory for what the command is to hold.
    NoMemory,
}

impl Refused {
    /// The error that is written for it.
    pub fn reply(self) -> Reply
        ensures bytes { reply_bytes result ≡ 45 ∷ line (refused_text self) }
        ensures writable { IsTrue (is_writable result) }
    {
        match self {
            Refused::Unknown => error("ERR unknown command"),
            Refused::Words => error("ERR wrong number of arguments"),
            Refused::Syntax => error("ERR syntax error"),
            Refused::Flags => error("ERR flags exclude each other"),
            Refused::OnePair => error("ERR INCR takes one pair"),
            Refused::Score => error("ERR score is not a whole number in range"),
            Refused::Whole => error("ERR value is not an integer"),
            Refused::Negative => error("ERR count is negative"),
            Refused::Bound => error("ERR min or max is not a bound"),
            Refused::NoMemory => Reply::Error {
                text: "OOM after",
                after: Some(0),
            },
        }
    }
}

fn error(text: &'static str) -> Reply
    ensures { result ≡ Reply.Error text.entry None }
{
    Reply::Error { text, after: None }
}

impl From<AllocError> for Refused {
    ghost use Rattle.std.specs.Prelude.{◌≡◌};
    ghost use Rattle.zq_words.specs.declared.refused.Refused.TheVariants.{NoMemory};

    ghost from_gives = { λ _ refused. refused ≡ NoMemory };

    fn from(_error: AllocError) -> Refused {
        Refused::NoMemory
    }
}
