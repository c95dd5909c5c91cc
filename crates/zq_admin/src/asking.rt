//! Asking at an admin port.

use crate::asked::Asked;
use crate::page::Page;
use http1::{BodySize, Client, Event, Header, Limits};
use httparse::spans::{EMPTY_HEADER_SPAN, HeaderSpan};
use std::alloc::{AllocError, Global};
use std::io;
use std::io::{ErrorKind, Read, Write};
use std::net::{Net, SocketAddr, TcpListener, TcpStream};
use std::time::Duration;

/// The most bytes of an answer.
const MOST: usize = 65_536;

/// How many bytes are read at once.
const PIECE: usize = 4_096;

/// How many fields the head of an answer has at most.
const FIELDS: usize = 64;

/// How many headers a request has that says the token.
const ALL_HEADERS: usize = 4;

/// What an admin port answered.
#[derive(Debug, Drop)]
pub struct Answer {
    /// The status, as of HTTP.
    pub code: u16,
    /// The body.
    pub words: Vec<u8>,
}

/// Asks this at an admin port, and says the token, where there is one. Each of the connection, a
/// write and a read may take so long.
///
/// # Errors
///
/// Nobody is there, or answers in time, or what comes is no answer of at most 65,536 bytes.
pub fn ask<N>(
    net: &N,
    alloc: Global,
    address: &SocketAddr,
    asked: Asked,
    token: Option<&str>,
    patience: Duration,
) -> io::Result<Answer>
where
    N: Net<Listener = TcpListener, Stream = TcpStream>,
{
    let mut stream = TcpStream::connect_timeout(net, address, patience)?;
    stream.set_read_timeout(Some(patience))?;
    stream.set_write_timeout(Some(patience))?;
    let mut client = Client::new(Limits::default());
    let request = request_of(alloc, &mut client, address, asked, token)?;
    stream.write_all(&request)?;
    read_answer(alloc, &mut client, &mut stream)
}

/// The request that asks this.
fn request_of(
    alloc: Global,
    client: &mut Client,
    address: &SocketAddr,
    asked: Asked,
    token: Option<&str>,
) -> io::Result<Vec<u8>> {
    let page = page_of(alloc, asked)?;
    let host = format!(in alloc; "{address}")?;
    let said = format!(in alloc; "Bearer {}", token.unwrap_or(""))?;
    let headers = headers_of(host.as_bytes(), said.as_bytes());
    let count = match token {
        Some(_) => ALL_HEADERS,
        None => ALL_HEADERS - 1,
    };
    let method = method_of(asked);
    let mut request = Vec::new(alloc);
    match client.write_request(
        &mut request,
        method,
        page.as_bytes(),
        &headers[..count],
        BodySize::Empty,
    ) {
        Ok(()) => Ok(request),
        Err(_) => Err(ErrorKind::InvalidInput.into()),
    }
}

/// The headers of a request, of which the last says the token.
fn headers_of<'a>(host: &'a [u8], said: &'a [u8]) -> [Header<'a>; ALL_HEADERS] {
    [
        Header {
            name: b"host",
            value: host,
        },
        Header {
            name: b"x-zqueue-admin",
            value: b"1",
        },
        Header {
            name: b"connection",
            value: b"close",
        },
        Header {
            name: b"authorization",
            value: said,
        },
    ]
}

/// The method that asks this.
fn method_of(asked: Asked) -> &'static [u8] {
    match asked {
        Asked::Stop => b"POST",
        _ => b"GET",
    }
}

/// The page that is asked for.
fn page_of(alloc: Global, asked: Asked) -> Result<String, AllocError> {
    let page = match asked {
        Asked::Alive => "/healthz",
        Asked::Ready => "/readyz",
        Asked::Stop => "/stop",
        Asked::Show(Page::Front) => "/",
        Asked::Show(Page::Metrics) => "/metrics",
        Asked::Show(Page::Peers) => "/peers",
        Asked::Show(Page::Keys(count)) => return format!(in alloc; "/keys?n={count}"),
    };
    String::from_str(alloc, page)
}

/// Reads what is answered.
fn read_answer<R: Read>(alloc: Global, client: &mut Client, reader: &mut R) -> io::Result<Answer> {
    let mut answer = Answer {
        code: 0,
        words: Vec::new(alloc),
    };
    let mut unread = Vec::new(alloc);
    let mut piece = [0u8; PIECE];
    for _ in 0..MOST {
        let count = reader.read(&mut piece)?;
        if count == 0 || count > PIECE {
            return Err(ErrorKind::UnexpectedEof.into());
        }
        unread
            .extend_from_slice(&piece[..count])
            .map_err(AllocError::from)?;
        if take_events(client, &mut unread, &mut answer)? {
            return Ok(answer);
        }
        if unread.len() > MOST || answer.words.len() > MOST {
            break;
        }
    }
    Err(ErrorKind::InvalidData.into())
}

/// Takes what has come into the answer, and says whether that was its end.
fn take_events(client: &mut Client, unread: &mut Vec<u8>, answer: &mut Answer) -> io::Result<bool> {
    let mut fields: [HeaderSpan; FIELDS] = [EMPTY_HEADER_SPAN; FIELDS];
    for _ in 0..=MOST {
        let Ok(progress) = client.read(unread.as_slice(), &mut fields) else {
            return Err(ErrorKind::InvalidData.into());
        };
        match progress.event {
            Event::Head(head) => answer.code = head.code,
            Event::Data(span) => answer
                .words
                .extend_from_slice(span.of(unread.as_slice()))
                .map_err(AllocError::from)?,
            Event::End(_) => return Ok(true),
            Event::NeedMore => {
                drop_first(unread, progress.consumed);
                return Ok(false);
            }
            Event::Informational(_) => {}
            Event::Paused | Event::Upgraded | Event::Closed => {
                return Err(ErrorKind::InvalidData.into());
            }
        }
        drop_first(unread, progress.consumed);
    }
    Err(ErrorKind::InvalidData.into())
}

/// Drops the first so many bytes.
fn drop_first(bytes: &mut Vec<u8>, count: usize) {
    let left = bytes.len().saturating_sub(count);
    bytes.copy_within(count.min(bytes.len()).., 0);
    bytes.truncate(left);
}
