//! What running a command gives.

ghost use Rattle.std.specs.Prelude.{Bool, IsTrue, true, ◌≡◌};
ghost use Rattle.zq_commands.specs.Stopped.{want_of};
ghost use Rattle.zq_semantics.specs.Replies.{bytes_of};
ghost use Rattle.zq_semantics.specs.Run.{Memory, cut_error};
ghost use Rattle.zq_resp.specs.Reply.{is_writable, reply_bytes};
ghost use Rattle.zq_resp.specs.declared.reply.Reply.{Reply as Replies};

use crate::replies::cut_reply;
use crate::stopped::Stopped;
use zq_resp::Reply;

/// The reply of a command, and whether memory was refused before it was whole.
#[derive(Debug, Drop)]
pub struct Ran {
    pub reply: Reply,
    /// Memory was refused. Where it is not set, the command was cut by a number at its last value
    /// alone, or not at all.
    pub is_short: bool,
}

/// What a run is handed back as: its reply alone, or with whether memory was refused.
pub trait Outcome: Sized {
    /// The reply.
    ghost reply: { Self → Replies };

    /// Whether memory may have been refused.
    ghost is_short: { Self → Bool };

    /// That of a command that was not cut.
    fn of_reply(given: Reply) -> Self
        ensures { reply result ≡ given };

    /// The error of a command of which the first `done` moves stand.
    fn of_cut(cut: Stopped, done: u64) -> Self
        ensures bytes { reply_bytes (reply result) ≡ bytes_of (cut_error done (want_of cut)) }
        ensures writable { IsTrue (is_writable (reply result)) }
        ensures short { want_of cut ≡ Memory → is_short result ≡ true };

    /// That of one that may answer what it did until then.
    fn of_ran(ran: Ran) -> Self
        ensures reply { reply result ≡ ran.reply }
        ensures short { ran.is_short ≡ true → is_short result ≡ true };
}

impl Outcome for Reply {
    ghost reply = { λ given. given };

    ghost is_short = { λ given. true };

    #[inline(always)]
    fn of_reply(given: Reply) -> Reply {
        given
    }

    #[inline(always)]
    fn of_cut(cut: Stopped, done: u64) -> Reply {
        cut_reply(cut, done)
    }

    #[inline(always)]
    fn of_ran(ran: Ran) -> Reply {
        ran.reply
    }
}

impl Outcome for Ran {
    ghost reply = { λ ran. ran.reply };

    ghost is_short = { λ ran. ran.is_short };

    fn of_reply(given: Reply) -> Ran {
        Ran {
            reply: given,
            is_short: false,
        }
    }

    fn of_cut(cut: Stopped, done: u64) -> Ran {
        Ran {
            reply: cut_reply(cut, done),
            is_short: cut.is_memory(),
        }
    }

    fn of_ran(ran: Ran) -> Ran {
        ran
    }
}
