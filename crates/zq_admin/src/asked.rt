//! What a request asks for.

ghost use Rattle.std.specs.Prelude.{◌≡◌, option_copied};
ghost use Rattle.zq_admin.specs.Asked as wanted;

use crate::count::count_in;
use crate::page::Page;
use crate::sender::Sender;

/// What is asked of a site.
#[derive(Clone, Copy, Debug, PartialEq, Eq)]
pub enum Asked {
    /// Whether it is alive.
    Alive,
    /// Whether it is ready.
    Ready,
    /// That it ends.
    Stop,
    /// What it shows of itself.
    Show(Page),
}

/// Why nothing is done of what a request asks for.
#[derive(Clone, Copy, Debug, PartialEq, Eq)]
pub enum Denial {
    /// There is no such page.
    Unknown,
    /// The page is read alone, by GET or HEAD.
    ReadOnly,
    /// The page takes POST alone.
    PostOnly,
    /// A page of another origin might send it.
    Foreign,
    /// A page of another origin might read what is answered.
    Elsewhere,
    /// It does not say the token.
    Stranger,
    /// It asks for no number of keys from 1 to 1000.
    Count,
}

/// What a request of this method for this page asks for, with this query. Without the token it may
/// ask whether the site is alive, and for the page for people. It may change something where it can
/// be trusted: no page of another origin can send it.
pub fn asked_by(
    method: &str,
    path: &str,
    query: Option<&str>,
    sender: Sender,
) -> Result<Asked, Denial>
    ensures { result
        ≡ wanted.asked_by method.now path.now (option_copied query.entry) sender }
{
    match path {
        "/healthz" => read_by(method, Asked::Alive),
        "/" => read_by(method, Asked::Show(Page::Front)),
        _ if !sender.known => Err(Denial::Stranger),
        _ => asked_by_known(method, path, query, sender),
    }
}

/// The same of one that said the token, or where none is asked for.
fn asked_by_known(
    method: &str,
    path: &str,
    query: Option<&str>,
    sender: Sender,
) -> Result<Asked, Denial>
    ensures { result
        ≡ wanted.asked_by_known method.now path.now (option_copied query.entry) sender }
{
    match path {
        "/readyz" => read_by(method, Asked::Ready),
        "/stop" => done_by(method, Asked::Stop, sender.trusted),
        "/metrics" => shown_by(method, Page::Metrics, sender.direct),
        "/peers" => shown_by(method, Page::Peers, sender.direct),
        "/keys" => match count_in(query) {
            Some(count) => shown_by(method, Page::Keys(count), sender.direct),
            None => Err(Denial::Count),
        },
        _ => Err(Denial::Unknown),
    }
}

/// A page that says something, where the method reads.
fn read_by(method: &str, asked: Asked) -> Result<Asked, Denial>
    ensures { result ≡ wanted.read_by method.now asked }
{
    match method {
        "GET" => Ok(asked),
        "HEAD" => Ok(asked),
        _ => Err(Denial::ReadOnly),
    }
}

/// A page that shows something of the site, where no page of another origin can read it.
fn shown_by(method: &str, page: Page, direct: bool) -> Result<Asked, Denial>
    ensures { result ≡ wanted.shown_by method.now page direct }
{
    if direct {
        read_by(method, Asked::Show(page))
    } else {
        Err(Denial::Elsewhere)
    }
}

/// A page that does something, where the method is POST and the request can be trusted.
fn done_by(method: &str, asked: Asked, trusted: bool) -> Result<Asked, Denial>
    ensures { result ≡ wanted.done_by method.now asked trusted }
{
    match method {
        "POST" if trusted => Ok(asked),
        "POST" => Err(Denial::Foreign),
        _ => Err(Denial::PostOnly),
    }
}
