//! Requests by their words.
use std::alloc::Global;
use zq_resp::{Reader, Request};

/// The request of a line's words, if there is memory for it.
pub fn request(alloc: Global, line: &str) -> Option<Request> {
    let count = line.split(' ').count();
    let mut bytes = format!(in alloc; "*{count}\r\n").ok()?;
    for word in line.split(' ') {
        let length = word.len();
        let part = format!(in alloc; "${length}\r\n{word}\r\n").ok()?;
        bytes.push_str(&part).ok()?;
    }
    let Ok(mut requests) = Reader::new().feed(alloc, bytes.as_bytes()) else {
        return None;
    };
    requests.pop()
}
