//! What is answered.

ghost use Rattle.std.specs.Prelude.{◌≡◌};
ghost use Rattle.zq_admin.specs.Replies as wanted;

use crate::asked::{Asked, Denial};
use crate::readiness::Readiness;

/// What has to be said beside the words.
#[derive(Clone, Copy, Debug, PartialEq, Eq)]
pub enum Hint {
    /// Nothing.
    Nothing,
    /// That the page takes GET and HEAD.
    Reading,
    /// That the page takes POST.
    Post,
    /// That a token is asked for.
    Bearer,
}

/// What is answered: a status, a line, and what has to be said beside it.
#[derive(Clone, Copy, Debug, PartialEq, Eq)]
pub struct Reply {
    /// The status.
    pub code: u16,
    /// The line.
    pub words: &'static str,
    /// What has to be said beside it.
    pub hint: Hint,
}

/// What is answered to who asks this of a site that is so ready. Who asks for a page is answered
/// this where the site does not give it.
pub fn reply_to(asked: Asked, readiness: Readiness) -> Reply
    ensures code { result.code ≡ wanted.code_for asked readiness }
    ensures words { result.words.now ≡ wanted.words_for asked readiness }
{
    let (code, words) = match asked {
        Asked::Alive => (200, "alive\n"),
        Asked::Ready if readiness.is_ready() => (200, readiness.words()),
        Asked::Ready => (503, readiness.words()),
        Asked::Stop => (202, "the site ends\n"),
        Asked::Show(_) => (503, "the site cannot show that now\n"),
    };
    Reply {
        code,
        words,
        hint: Hint::Nothing,
    }
}

/// What is answered where nothing is done.
pub fn reply_to_denied(denial: Denial) -> Reply
    ensures code { result.code ≡ wanted.code_of denial }
    ensures words { result.words.now ≡ wanted.words_of_denial denial }
{
    let (code, words, hint) = match denial {
        Denial::Unknown => (404, "there is no such page\n", Hint::Nothing),
        Denial::ReadOnly => (405, "this page is read alone\n", Hint::Reading),
        Denial::PostOnly => (405, "this page takes POST alone\n", Hint::Post),
        Denial::Foreign => (
            403,
            "this takes the header X-Zqueue-Admin, and a Host that is an address or localhost\n",
            Hint::Nothing,
        ),
        Denial::Elsewhere => (
            403,
            "this takes a Host that is an address or localhost\n",
            Hint::Nothing,
        ),
        Denial::Stranger => (
            401,
            "this takes the header Authorization: Bearer TOKEN\n",
            Hint::Bearer,
        ),
        Denial::Count => (400, "n is a number from 1 to 1000\n", Hint::Nothing),
    };
    Reply { code, words, hint }
}
