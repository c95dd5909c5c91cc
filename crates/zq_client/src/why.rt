//! Why a connection refuses a request itself.

ghost use Rattle.std.specs.Prelude.{IsTrue, None, ◌∷◌, ◌≡◌};
ghost use Rattle.zq_client.specs.Texts.{why_text};
ghost use Rattle.zq_resp.specs.Reply.{is_writable, line, reply_bytes};
ghost use Rattle.zq_resp.specs.declared.reply.Reply.{Reply};

use zq_resp::Reply;

/// The reasons for which a connection refuses a request itself, beside those of the words of a
/// command. The texts are those of Redis, but for names in them.
#[derive(Clone, Copy, Debug, PartialEq, Eq)]
pub enum Why {
    /// The password was not shown.
    Unknown,
    /// HELLO, where the password was not shown, and is not shown with it.
    UnknownHello,
    /// A wrong password, or a user that is not there.
    WrongPassword,
    /// A password alone, where there is none to show.
    NoPassword,
    /// HELLO with a version that is no whole number.
    Version,
    /// HELLO with a version of the protocol that is not spoken.
    Protocol,
    /// HELLO with an option that is none.
    Hello,
    /// SELECT of a database that is not there.
    Index,
    /// A name for the connection that is none.
    Name,
    /// A word behind CLIENT, CONFIG or COMMAND that is none.
    Subcommand,
    /// A request behind the one that ended the connection.
    Over,
}

impl Why {
    /// The error that is written for it.
    pub fn reply(self) -> Reply
        ensures bytes { reply_bytes result ≡ 45 ∷ line (why_text self) }
        ensures writable { IsTrue (is_writable result) }
    {
        match self {
            Why::Unknown => error("NOAUTH Authentication required."),
            Why::UnknownHello => error(
                "NOAUTH HELLO must be called with the client already authenticated, otherwise the \
                HELLO AUTH <user> <pass> option can be used to authenticate the client and select \
                the RESP protocol version at the same time",
            ),
            Why::WrongPassword => {
                error("WRONGPASS invalid username-password pair or user is disabled.")
            }
            Why::NoPassword => error(
                "ERR AUTH <password> called without any password configured for the default user. \
                Are you sure your configuration is correct?",
            ),
            Why::Version => error("ERR Protocol version is not an integer or out of range"),
            Why::Protocol => error("NOPROTO unsupported protocol version"),
            Why::Hello => error("ERR Syntax error in HELLO"),
            Why::Index => error("ERR DB index is out of range"),
            Why::Name => error(
                "ERR Client names cannot contain spaces, newlines or special characters.",
            ),
            Why::Subcommand => error("ERR unknown subcommand"),
            Why::Over => error("ERR the connection ends"),
        }
    }
}

fn error(text: &'static str) -> Reply
    ensures { result ≡ Reply.Error text.entry None }
{
    Reply::Error { text, after: None }
}
