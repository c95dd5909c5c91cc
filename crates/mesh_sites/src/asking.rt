//! What clients send.

use std::alloc::{AllocError, Global};
use zq_resp::{Reader, Request};

/// A line's words as a request is sent.
fn sent(alloc: Global, line: &str) -> Result<String, AllocError> {
    let count = line.split(' ').count();
    let mut text = format!(in alloc; "*{count}\r\n")?;
    for word in line.split(' ') {
        let length = word.len();
        let part = format!(in alloc; "${length}\r\n{word}\r\n")?;
        text.push_str(&part)?;
    }
    Ok(text)
}

/// The request of a line's words; none where there was no memory.
pub(crate) fn request(alloc: Global, line: &str) -> Option<Request> {
    let text = sent(alloc, line).ok()?;
    match Reader::new().feed(alloc, text.as_bytes()) {
        Ok(mut requests) => requests.pop(),
        Err(_) => None,
    }
}
