//! What a server answers to bytes, and the bytes that it is asked with.

use std::alloc::Global;
use std::test::Fail;
use zq_session::{Answers, End, session};

/// What a session over these bytes writes, which ends cleanly.
pub fn answered<A: Answers>(alloc: Global, server: &mut A, bytes: &[u8]) -> Result<Vec<u8>, Fail> {
    let mut reader = bytes;
    let mut written = Vec::new(alloc);
    match session(alloc, server, &mut reader, &mut written) {
        Ok(End::Clean) => Ok(written),
        _ => Err("not a clean end".into()),
    }
}

/// Appends a bulk string: a word of a request, or a part of a reply.
pub fn push_bulk(alloc: Global, bytes: &mut Vec<u8>, text: &[u8]) -> Result<(), Fail> {
    let length = text.len();
    bytes.extend_from_slice(format!(in alloc; "${length}\r\n")?.as_bytes())?;
    bytes.extend_from_slice(text)?;
    bytes.extend_from_slice(b"\r\n")?;
    Ok(())
}

/// Appends the request of the line's words. The member stands in the place of each word `@`.
pub fn push_request(
    alloc: Global,
    bytes: &mut Vec<u8>,
    line: &str,
    member: &[u8],
) -> Result<(), Fail> {
    let count = line.split(' ').count();
    bytes.extend_from_slice(format!(in alloc; "*{count}\r\n")?.as_bytes())?;
    for word in line.split(' ') {
        let text = if word == "@" { member } else { word.as_bytes() };
        push_bulk(alloc, bytes, text)?;
    }
    Ok(())
}

const LETTERS: &[u8; 26] = b"abcdefghijklmnopqrstuvwxyz";

/// So many letters, each the next one of the alphabet.
pub fn letters(alloc: Global, length: usize) -> Result<Vec<u8>, Fail> {
    let mut text = Vec::new(alloc);
    for place in 0..length {
        text.push(LETTERS[place % 26])?;
    }
    Ok(text)
}
