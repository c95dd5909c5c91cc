//! Why a connection refuses a request that belongs to a transaction, or that the site end.

ghost use Rattle.std.specs.Prelude.{IsTrue, None, ◌∷◌, ◌≡◌};
ghost use Rattle.zq_resp.specs.Reply.{is_writable, line, reply_bytes};
ghost use Rattle.zq_resp.specs.declared.reply.Reply.{Reply};
ghost use Rattle.zq_serve.specs.Denials.{denial_text};

use zq_resp::Reply;

/// The reasons for which what begins, ends or guards a transaction is refused, or what would be
/// queued, or SHUTDOWN. The texts are those of Redis but for the last one.
#[derive(Clone, Copy)]
pub enum Denial {
    /// MULTI, where requests wait already.
    Nested,
    /// EXEC, where none wait.
    ExecAlone,
    /// DISCARD, where none wait.
    DiscardAlone,
    /// WATCH, where requests wait.
    WatchInside,
    /// A request that cannot wait.
    Inside,
    /// More requests than may wait, or more bytes of them.
    TooLarge,
    /// EXEC, where a request was refused that was to wait.
    Aborted,
    /// SHUTDOWN, where anybody may ask that reaches the site.
    Shutdown,
}

impl Denial {
    /// The error that is written for it.
    pub fn reply(self) -> Reply
        ensures bytes { reply_bytes result ≡ 45 ∷ line (denial_text self) }
        ensures writable { IsTrue (is_writable result) }
    {
        match self {
            Denial::Nested => error("ERR MULTI calls can not be nested"),
            Denial::ExecAlone => error("ERR EXEC without MULTI"),
            Denial::DiscardAlone => error("ERR DISCARD without MULTI"),
            Denial::WatchInside => error("ERR WATCH inside MULTI is not allowed"),
            Denial::Inside => error("ERR Command not allowed inside a transaction"),
            Denial::TooLarge => error("ERR transaction is too large"),
            Denial::Aborted => {
                error("EXECABORT Transaction discarded because of previous errors.")
            }
            Denial::Shutdown => error("ERR SHUTDOWN wants a password, or a site on loopback"),
        }
    }
}

fn error(text: &'static str) -> Reply
    ensures { result ≡ Reply.Error text.entry None }
{
    Reply::Error { text, after: None }
}
