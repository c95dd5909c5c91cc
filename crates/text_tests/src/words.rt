//! Commands and refusals of lines, whose words stand between spaces.

mod commands;
mod numbers;
mod refusals;

use std::alloc::Global;
use std::test::Fail;
use zq_resp::{Reader, Request};

/// The request of a line's words.
fn request(alloc: Global, line: &str) -> Result<Request, Fail> {
    let mut words = Vec::new(alloc);
    for word in line.split(' ') {
        words.push(word)?;
    }
    request_of(alloc, &words)
}

/// The request of some words.
fn request_of(alloc: Global, words: &[&str]) -> Result<Request, Fail> {
    let count = words.len();
    let mut bytes = Vec::new(alloc);
    bytes.extend_from_slice(format!(in alloc; "*{count}\r\n")?.as_bytes())?;
    for word in words {
        let length = word.len();
        bytes.extend_from_slice(format!(in alloc; "${length}\r\n{word}\r\n")?.as_bytes())?;
    }
    let Ok(mut requests) = Reader::new().feed(alloc, bytes.as_slice()) else {
        return Err("no request".into());
    };
    Ok(requests.pop().ok_or("no request")?)
}
