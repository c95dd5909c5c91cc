//! Who answers requests.

ghost use Rattle.http_server.specs.Response.{IsBlank};
ghost use Rattle.std.specs.Prelude.{IsTrue, OnOk, option_copied, ◌≡◌};
ghost use Rattle.zq_admin.specs.Clerks.{Answers, HasMark, IsAskedIn, Shows, is_stop as is_stop_in};

use crate::asked::{Asked, Denial, asked_by};
use crate::desk::Desk;
use crate::filling::{fill, fill_page};
use crate::host::is_literal;
use crate::page::Page;
use crate::readiness::Readiness;
use crate::reply::{reply_to, reply_to_denied};
use crate::sender::Sender;
use crate::token::is_known;
use bytes::Bytes;
use http::Request;
use http_server::{Response, Service};
use std::alloc::AllocError;

/// The header that who changes something has to send. A page of another origin may send it only
/// where this port allows that beforehand, which it never does.
const MARK: &str = "x-zqueue-admin";

/// Answers the requests of an admin port.
#[derive(Drop)]
pub struct Clerk<'a, D> {
    /// What gives the pages of the site.
    pub desk: &'a D,
    /// What each request has to say, where that is asked for.
    pub token: Option<&'a str>,
    /// How ready the site is.
    pub readiness: Readiness,
    /// Whether it was asked that the site ends.
    pub stops: bool,
}

impl<D: Desk> Service for Clerk<'_, D> {
    ghost use Rattle.zq_admin.specs.Clerks.{IsAnswered};

    ghost answers = { IsAnswered D.gives };

    fn call(
        &mut self,
        request: &Request<Bytes>,
        response: &mut Response,
    ) -> Result<(), AllocError> {
        let asked = asked_in(request, self.token);
        answer(self.desk, asked, self.readiness, response)?;
        self.stops = self.stops || is_stop(asked);
        Ok(())
    }
}

/// Answers what a request asks for.
fn answer<D: Desk>(
    desk: &D,
    asked: Result<Asked, Denial>,
    readiness: Readiness,
    response: &mut Response,
) -> Result<(), AllocError>
    requires { IsBlank response.old }
    ensures { OnOk result (Answers D.gives desk.now readiness asked response.new) }
{
    match asked {
        Ok(Asked::Alive) => fill(reply_to(Asked::Alive, readiness), response),
        Ok(Asked::Ready) => fill(reply_to(Asked::Ready, readiness), response),
        Ok(Asked::Stop) => fill(reply_to(Asked::Stop, readiness), response),
        Ok(Asked::Show(page)) => show(desk, page, readiness, response),
        Err(denial) => fill(reply_to_denied(denial), response),
    }
}

/// Answers with the text that the site gives for a page, or that it cannot give it.
fn show<D: Desk>(
    desk: &D,
    page: Page,
    readiness: Readiness,
    response: &mut Response,
) -> Result<(), AllocError>
    requires { IsBlank response.old }
    ensures { OnOk result (Shows D.gives desk.now readiness page response.new) }
{
    match desk.show(page) {
        Some(text) => fill_page(page, text, response),
        None => fill(reply_to(Asked::Show(page), readiness), response),
    }
}

/// Whether it is asked that the site ends.
fn is_stop(asked: Result<Asked, Denial>) -> bool
    ensures { result ≡ is_stop_in asked }
{
    match asked {
        Ok(Asked::Stop) => true,
        Ok(Asked::Alive | Asked::Ready | Asked::Show(_)) | Err(_) => false,
    }
}

/// What a request asks for.
fn asked_in(request: &Request<Bytes>, token: Option<&str>) -> Result<Asked, Denial>
    ensures { IsAskedIn (option_copied token.entry) request.now result }
{
    let sender = Sender {
        known: is_known(request, token),
        trusted: is_trusted(request),
        direct: token.is_some() || is_direct(request),
    };
    let uri = request.uri();
    asked_by(request.method().as_str(), uri.path(), uri.query(), sender)
}

/// Whether no page of another origin can have sent the request: it has the mark, and the host is no
/// name that a stranger may have given this machine's address.
fn is_trusted(request: &Request<Bytes>) -> bool
    ensures { IsTrue result → HasMark request.now }
{
    request.headers().contains_key(MARK) && is_direct(request)
}

/// Whether the request says that it was sent to an address or to `localhost`.
fn is_direct(request: &Request<Bytes>) -> bool {
    let Some(host) = request.headers().get("host") else {
        return false;
    };
    match host.to_str() {
        Ok(host) => is_literal(host),
        Err(_) => false,
    }
}
