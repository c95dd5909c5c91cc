//! Responses from what is answered.

ghost use Rattle.http_server.specs.Response.{IsBlank};
ghost use Rattle.std.specs.Prelude.{OnOk, ◌≡◌};
ghost use Rattle.zq_admin.specs.Clerks.{IsFilled};

use crate::page::Page;
use crate::page_text::POLICY;
use crate::reply::{Hint, Reply};
use bytes::Bytes;
use http::StatusCode;
use http::header::{HeaderName, HeaderValue};
use http_server::Response;
use std::alloc::AllocError;

/// Fills a response with a line.
pub fn fill(reply: Reply, response: &mut Response) -> Result<(), AllocError>
    requires { IsBlank response.old }
    ensures { OnOk result (IsFilled reply.code reply.words.now response.new) }
{
    let Ok(status) = StatusCode::from_u16(reply.code) else {
        return Err(AllocError);
    };
    response.status = status;
    add_kind(
        response,
        HeaderValue::from_static("text/plain; charset=utf-8"),
    )?;
    add_hint(response, reply.hint)?;
    response
        .body
        .push(Bytes::from_static(reply.words.as_bytes()))
}

/// Fills a response with the text of a page.
pub fn fill_page(page: Page, text: Vec<u8>, response: &mut Response) -> Result<(), AllocError>
    requires { IsBlank response.old }
    ensures { OnOk result (IsFilled 200 text.items response.new) }
{
    add_kind(response, kind_of(page))?;
    response.add_header(
        HeaderName::from_static("x-content-type-options"),
        HeaderValue::from_static("nosniff"),
    )?;
    if page == Page::Front {
        add_policy(response)?;
    }
    let text = Bytes::from_vec(text)?;
    response.body.push(text)
}

/// What kind of text a page is.
fn kind_of(page: Page) -> HeaderValue {
    match page {
        Page::Front => HeaderValue::from_static("text/html; charset=utf-8"),
        Page::Metrics => HeaderValue::from_static("text/plain; version=0.0.4"),
        Page::Peers | Page::Keys(_) => HeaderValue::from_static("application/json"),
    }
}

/// Says what kind of text the body is, and that it is not to be kept.
fn add_kind(response: &mut Response, kind: HeaderValue) -> Result<(), AllocError>
    ensures status { response.new.status ≡ response.old.status }
    ensures body { response.new.body ≡ response.old.body }
{
    response.add_header(HeaderName::from_static("content-type"), kind)?;
    response.add_header(
        HeaderName::from_static("cache-control"),
        HeaderValue::from_static("no-store"),
    )
}

/// Says what has to be said beside the words.
fn add_hint(response: &mut Response, hint: Hint) -> Result<(), AllocError>
    ensures status { response.new.status ≡ response.old.status }
    ensures body { response.new.body ≡ response.old.body }
{
    match hint {
        Hint::Nothing => Ok(()),
        Hint::Reading => response.add_header(
            HeaderName::from_static("allow"),
            HeaderValue::from_static("GET, HEAD"),
        ),
        Hint::Post => response.add_header(
            HeaderName::from_static("allow"),
            HeaderValue::from_static("POST"),
        ),
        Hint::Bearer => response.add_header(
            HeaderName::from_static("www-authenticate"),
            HeaderValue::from_static("Bearer"),
        ),
    }
}

/// Says what the page for people may do.
fn add_policy(response: &mut Response) -> Result<(), AllocError>
    ensures status { response.new.status ≡ response.old.status }
    ensures body { response.new.body ≡ response.old.body }
{
    response.add_header(
        HeaderName::from_static("content-security-policy"),
        HeaderValue::from_static(POLICY),
    )?;
    response.add_header(
        HeaderName::from_static("referrer-policy"),
        HeaderValue::from_static("no-referrer"),
    )
}
