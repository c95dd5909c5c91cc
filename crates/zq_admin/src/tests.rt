//! What requests come to.

mod pages;

use crate::asked::{Asked, Denial, asked_by};
use crate::clerk::Clerk;
use crate::count::count_in;
use crate::desk::Desk;
use crate::host::is_literal;
use crate::page::Page;
use crate::readiness::Readiness;
use crate::sender::Sender;
use http_server::{Config, Connection};
use std::alloc::Global;
use std::hash::RandomState;
use std::test::Fail;

#[test]
fn a_page_takes_its_methods_alone(rt: HostRuntime) {
    let rows = [
        ("GET", "/healthz", false, Ok(Asked::Alive)),
        ("GET", "/", false, Ok(Asked::Show(Page::Front))),
        ("POST", "/", true, Err(Denial::ReadOnly)),
        ("HEAD", "/metrics", true, Ok(Asked::Show(Page::Metrics))),
        ("GET", "/peers", true, Ok(Asked::Show(Page::Peers))),
        ("GET", "/keys", true, Ok(Asked::Show(Page::Keys(20)))),
        ("GET", "/keys", false, Err(Denial::Elsewhere)),
        ("POST", "/keys", true, Err(Denial::ReadOnly)),
        ("HEAD", "/healthz", false, Ok(Asked::Alive)),
        ("GET", "/readyz", true, Ok(Asked::Ready)),
        ("POST", "/readyz", true, Err(Denial::ReadOnly)),
        ("get", "/readyz", true, Err(Denial::ReadOnly)),
        ("POST", "/stop", true, Ok(Asked::Stop)),
        ("POST", "/stop", false, Err(Denial::Foreign)),
        ("GET", "/stop", true, Err(Denial::PostOnly)),
        ("HEAD", "/stop", true, Err(Denial::PostOnly)),
        ("POST", "/stop/", true, Err(Denial::Unknown)),
        ("GET", "", true, Err(Denial::Unknown)),
    ];
    for (method, path, trusted, wanted) in rows {
        let sender = Sender {
            known: true,
            trusted,
            direct: trusted,
        };
        assert!(rt;
            asked_by(method, path, None, sender) == wanted,
            "{method} {path}"
        );
    }
}

#[test]
fn from_1_to_1000_keys_are_asked_for(rt: HostRuntime) {
    let rows = [
        (None, Some(20)),
        (Some("n=1"), Some(1)),
        (Some("n=1000"), Some(1000)),
        (Some("n=0007"), Some(7)),
        (Some(""), None),
        (Some("n="), None),
        (Some("n=0"), None),
        (Some("n=1001"), None),
        (Some("n=18446744073709551617"), None),
        (Some("n=+1"), None),
        (Some("n=1&m=2"), None),
        (Some("m=1"), None),
        (Some("N=1"), None),
    ];
    for (query, wanted) in rows {
        assert!(rt; count_in(query) == wanted);
    }
}

#[test]
fn who_does_not_say_the_token_is_told_little(rt: HostRuntime) {
    let stranger = Sender {
        known: false,
        trusted: true,
        direct: true,
    };
    for path in ["/readyz", "/stop", "/metrics", "/peers", "/keys", "/none"] {
        for method in ["GET", "POST"] {
            let asked = asked_by(method, path, None, stranger);
            assert!(rt; asked == Err(Denial::Stranger), "{method} {path}");
        }
    }
    let alive = asked_by("GET", "/healthz", None, stranger);
    assert!(rt; alive == Ok(Asked::Alive));
    let front = asked_by("GET", "/", None, stranger);
    assert!(rt; front == Ok(Asked::Show(Page::Front)));
}

#[test]
fn a_literal_host_is_an_address_or_localhost(rt: HostRuntime) {
    let rows = [
        ("127.0.0.1", true),
        ("127.0.0.1:7180", true),
        ("10.0.0.7:7180", true),
        ("::1", true),
        ("[::1]:7180", true),
        ("localhost", true),
        ("LocalHost:7180", true),
        ("", false),
        (":7180", false),
        ("queue.example", false),
        ("queue.example:7180", false),
        ("localhost.example", false),
        ("127.0.0.1.example", false),
        ("127.0.0.1:port", false),
    ];
    for (host, wanted) in rows {
        assert!(rt; is_literal(host) == wanted, "{host}");
    }
}

/// A site that shows its other sites alone.
#[derive(Drop)]
struct Shown {
    alloc: Global,
}

impl Desk for Shown {
    ghost gives = { λ _ _ _. Unit {0} };

    fn token(&self) -> Option<&str> {
        None
    }

    fn readiness(&self) -> Readiness {
        Readiness::Waits
    }

    fn show(&self, page: Page) -> Option<Vec<u8>> {
        match page {
            Page::Peers => Vec::from_slice(self.alloc, b"[]").ok(),
            _ => None,
        }
    }

    fn stop(&self) {}

    fn goes_on(&self) -> bool {
        true
    }
}

/// What is sent in answer to these bytes of a connection to the port of a site that waits, and
/// whether it was asked that the site ends.
fn sent(rt: &HostRuntime, token: Option<&str>, text: &[u8]) -> Result<(Vec<u8>, bool), Fail> {
    let mut connection = Connection::new(rt.alloc(), RandomState::new(rt)?, Config::default());
    let desk = Shown { alloc: rt.alloc() };
    let mut clerk = Clerk {
        desk: &desk,
        token,
        readiness: Readiness::Waits,
        stops: false,
    };
    let mut text = text;
    connection.read_from(&mut text)?;
    connection.advance(&mut clerk);
    let mut written = Vec::new(rt.alloc());
    connection.write_to(&mut written)?;
    Ok((written, clerk.stops))
}

#[test]
fn a_marked_post_alone_ends_a_site(rt: HostRuntime) -> Result<(), Fail> {
    let rows: [(&[u8], &[u8], bool); 5] = [
        (
            b"GET /readyz HTTP/1.1\r\nHost: q\r\n\r\n",
            b"HTTP/1.1 503 ",
            false,
        ),
        (
            b"POST /stop HTTP/1.1\r\nHost: 127.0.0.1\r\nX-Zqueue-Admin: 1\r\n\r\n",
            b"HTTP/1.1 202 ",
            true,
        ),
        (
            b"POST /stop HTTP/1.1\r\nHost: 127.0.0.1\r\n\r\n",
            b"HTTP/1.1 403 ",
            false,
        ),
        (
            b"POST /stop HTTP/1.1\r\nHost: q.example\r\nX-Zqueue-Admin: 1\r\n\r\n",
            b"HTTP/1.1 403 ",
            false,
        ),
        (b"POST /stop\r\n\r\n", b"HTTP/1.1 400 ", false),
    ];
    for (text, begins, stops) in rows {
        let (written, stopped) = sent(&rt, None, text)?;
        assert!(rt; written.starts_with(begins));
        assert!(rt; stopped == stops);
    }
    Ok(())
}

#[test]
fn the_token_alone_lets_who_asks_in(rt: HostRuntime) -> Result<(), Fail> {
    let rows: [(&[u8], &[u8]); 8] = [
        (
            b"GET /peers HTTP/1.1\r\nHost: q\r\nAuthorization: Bearer 0123456789abcdef\r\n\r\n",
            b"HTTP/1.1 200 ",
        ),
        (
            b"GET /metrics HTTP/1.1\r\nHost: q\r\nAuthorization: Bearer 0123456789abcdef\r\n\r\n",
            b"HTTP/1.1 503 ",
        ),
        (
            b"GET /peers HTTP/1.1\r\nHost: 127.0.0.1\r\n\r\n",
            b"HTTP/1.1 401 ",
        ),
        (
            b"GET /peers HTTP/1.1\r\nHost: q\r\nAuthorization: Bearer 0123456789abcdeg\r\n\r\n",
            b"HTTP/1.1 401 ",
        ),
        (
            b"GET /peers HTTP/1.1\r\nHost: q\r\nAuthorization: Bearer 0123456789abcde\r\n\r\n",
            b"HTTP/1.1 401 ",
        ),
        (
            b"GET /peers HTTP/1.1\r\nHost: q\r\nAuthorization: Basic 0123456789abcdef\r\n\r\n",
            b"HTTP/1.1 401 ",
        ),
        (
            b"POST /stop HTTP/1.1\r\nHost: 127.0.0.1\r\nX-Zqueue-Admin: 1\r\n\r\n",
            b"HTTP/1.1 401 ",
        ),
        (
            b"GET /healthz HTTP/1.1\r\nHost: q\r\n\r\n",
            b"HTTP/1.1 200 ",
        ),
    ];
    for (text, begins) in rows {
        let (written, stopped) = sent(&rt, Some("0123456789abcdef"), text)?;
        assert!(rt; written.starts_with(begins));
        assert!(rt; !stopped);
    }
    Ok(())
}
