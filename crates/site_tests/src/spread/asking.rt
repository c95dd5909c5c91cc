//! What a site answers to lines. `None` stands for want of memory, and for a line that is no
//! command.
ghost use Rattle.std.specs.Prelude.{IsTrue};
ghost use Rattle.zq_resp.specs.Reply.{is_writable};
ghost use Rattle.zq_spread.specs.Passes.{IsPassOf};

use std::alloc::Global;
use std::process::Abort;
use std::sync::Wait;
use zq_resp::{Reader, Reply, Request, write_reply};
use zq_spread::{Busy, Pass, Site};
use zq_words::Command;

/// A line, the two words that it is called with, and its answer.
pub type Line = (&'static str, (u64, u64), &'static str);

/// The request of a line's words.
fn request(alloc: Global, line: &str) -> Option<Request> {
    let count = line.split(' ').count();
    let mut text = format!(in alloc; "*{count}\r\n").ok()?;
    for word in line.split(' ') {
        let length = word.len();
        let part = format!(in alloc; "${length}\r\n{word}\r\n").ok()?;
        text.push_str(part.as_str()).ok()?;
    }
    let mut requests = Reader::new().feed(alloc, text.as_bytes()).ok()?;
    requests.pop()
}

/// The bytes of a reply.
fn bytes_of(alloc: Global, reply: &Reply) -> Option<Vec<u8>>
    requires { IsTrue (is_writable reply.now) }
{
    let mut bytes = Vec::new(alloc);
    write_reply(&mut bytes, reply).ok()?;
    Some(bytes)
}

/// The bytes that a site answers to a line by a pass, with two words for ZPOPNEAR.
pub fn ask<R: Wait>(
    rt: &R,
    alloc: Global,
    site: &Site,
    pass: &mut Pass,
    line: &str,
    words: (u64, u64),
) -> Option<Vec<u8>>
    requires { IsPassOf site.now pass.old }
    ensures { IsPassOf site.now pass.new }
{
    let request = request(alloc, line)?;
    let command = Command::read(alloc, &request).ok()?;
    let reply = site.call(rt, alloc, pass, &command, words.0, words.1);
    bytes_of(alloc, &reply)
}

/// The same where nobody holds a heap of the line, and else `Busy`.
pub fn try_ask(
    alloc: Global,
    site: &Site,
    pass: &mut Pass,
    line: &str,
    words: (u64, u64),
) -> Option<Result<Vec<u8>, Busy>>
    requires { IsPassOf site.now pass.old }
    ensures { IsPassOf site.now pass.new }
{
    let request = request(alloc, line)?;
    let command = Command::read(alloc, &request).ok()?;
    match site.try_call(alloc, pass, &command, words.0, words.1) {
        Ok(reply) => Some(Ok(bytes_of(alloc, &reply)?)),
        Err(Busy) => Some(Err(Busy)),
    }
}

/// Asks the lines in turn, and looks at each answer.
pub fn follow<R: Wait + Abort>(rt: &R, alloc: Global, site: &Site, pass: &mut Pass, lines: &[Line])
    requires { IsPassOf site.now pass.old }
    ensures { IsPassOf site.now pass.new }
{
    for (line, words, says) in lines {
        let answer = ask(rt, alloc, site, pass, line, *words);
        assert!(rt; answer.as_deref() == Some(says.as_bytes()), "{line}");
    }
}

/// The same by calls that do not wait, while nobody holds a heap.
pub fn try_follow<R: Abort>(rt: &R, alloc: Global, site: &Site, pass: &mut Pass, lines: &[Line])
    requires { IsPassOf site.now pass.old }
    ensures { IsPassOf site.now pass.new }
{
    for (line, words, says) in lines {
        let answer = try_ask(alloc, site, pass, line, *words);
        let is_said = matches!(&answer, Some(Ok(bytes)) if bytes.as_slice() == says.as_bytes());
        assert!(rt; is_said, "{line}");
    }
}
