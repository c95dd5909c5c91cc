//! Sites that are asked.
ghost use Rattle.std.specs.Prelude.{◌≡◌, ◌+◌, ◌<◌, All, IfSome, IsTrue, length};
ghost use Rattle.zq_dots.specs.declared.rule.Rule.{Rule as Rules};
ghost use Rattle.zq_resp.specs.Reply.{is_writable};
ghost use Rattle.zq_spread.specs.Calls.{heaps_of};
ghost use Rattle.zq_spread.specs.Passes.{IsPassOf};

use std::alloc::Global;
use std::sync::Wait;
use zq_dots::{SiteNo, Vector};
use zq_journal::Since;
use zq_resp::{Reader, Reply, Request, write_reply};
use zq_spread::{Pass, Site};
use zq_words::Command;

/// A reply of these cases has at most so many bytes.
const LONGEST_REPLY: usize = 128;

/// The site of this number, of two heaps, which has done nothing, with so many passes.
pub fn opened_with(alloc: Global, number: SiteNo, passes: usize) -> Option<(Site, Vec<Pass>)>
    ensures number { IfSome result (λ made. made.0.number ≡ number) }
    ensures heaps { IfSome result (λ made. heaps_of made.0 ≡ 2) }
    ensures rule { IfSome result (λ made. made.0.rule ≡ Rules.High) }
    ensures passes { IfSome result (λ made. All (IsPassOf made.0) made.1.items) }
    ensures count { IfSome result (λ made. length made.1.items ≡ passes) }
{
    match Site::new(alloc, number, 2, passes) {
        Ok(made) => Some(made),
        Err(_) => None,
    }
}

/// Takes the last of a site's passes out.
pub fn last_pass(_site: &Site, passes: &mut Vec<Pass>) -> Option<Pass>
    requires { All (IsPassOf _site.now) passes.old.items }
    ensures pass { IfSome result (IsPassOf _site.now) }
    ensures rest { All (IsPassOf _site.now) passes.new.items }
    ensures count { IfSome result (λ pass. length passes.new.items + 1 ≡ length passes.old.items) }
{
    passes.pop()
}

/// A line's words as a request is sent.
fn sent(alloc: Global, line: &str) -> Option<String> {
    let count = line.split(' ').count();
    let mut text = format!(in alloc; "*{count}\r\n").ok()?;
    for word in line.split(' ') {
        let length = word.len();
        let part = format!(in alloc; "${length}\r\n{word}\r\n").ok()?;
        text.push_str(&part).ok()?;
    }
    Some(text)
}

/// The request of a line's words.
pub fn request(alloc: Global, line: &str) -> Option<Request> {
    let text = sent(alloc, line)?;
    match Reader::new().feed(alloc, text.as_bytes()) {
        Ok(mut requests) => requests.pop(),
        Err(_) => None,
    }
}

/// Room for the bytes of a reply.
pub fn room(alloc: Global) -> Option<Vec<u8>> {
    Vec::with_capacity(alloc, LONGEST_REPLY).ok()
}

/// What the site answers a request.
fn reply_of<R: Wait>(
    rt: &R,
    alloc: Global,
    site: &Site,
    pass: &mut Pass,
    request: &Request,
) -> Reply
    requires { IsPassOf site.now pass.old }
    ensures pass { IsPassOf site.now pass.new }
    ensures writable { IsTrue (is_writable result) }
{
    match Command::read(alloc, request) {
        Ok(command) => site.call(rt, alloc, pass, &command, 0, 0),
        Err(refused) => refused.reply(),
    }
}

/// The bytes that the site answers a line by. The line and the bytes have their memory before the
/// site is called, so that `None` says that it was not called.
pub fn answer<R: Wait>(
    rt: &R,
    alloc: Global,
    site: &Site,
    pass: &mut Pass,
    line: &str,
) -> Option<Vec<u8>>
    requires { IsPassOf site.now pass.old }
    ensures { IsPassOf site.now pass.new }
{
    let request = request(alloc, line)?;
    let mut bytes = room(alloc)?;
    let reply = reply_of(rt, alloc, site, pass, &request);
    write_reply(&mut bytes, &reply).ok()?;
    Some(bytes)
}

/// Whether the site answers a line by these bytes.
pub fn is_answered<R: Wait>(
    rt: &R,
    alloc: Global,
    site: &Site,
    pass: &mut Pass,
    line: &str,
    owed: &str,
) -> Option<bool>
    requires { IsPassOf site.now pass.old }
    ensures { IsPassOf site.now pass.new }
{
    let told = answer(rt, alloc, site, pass, line)?;
    Some(told.as_slice() == owed.as_bytes())
}

/// How many operations the records of a heap have.
fn made_in<R: Wait>(rt: &R, alloc: Global, site: &Site, pass: &mut Pass, heap: u8) -> Option<usize>
    requires pass { IsPassOf site.now pass.old }
    requires heap { heap < heaps_of site.now }
    ensures { IsPassOf site.now pass.new }
{
    match site.since(rt, alloc, pass, heap, &Vector::new()) {
        Ok(Since::Ops(ops)) => Some(ops.len()),
        _ => None,
    }
}

/// How many operations the records of both heaps have.
pub fn made<R: Wait>(rt: &R, alloc: Global, site: &Site, pass: &mut Pass) -> Option<usize>
    requires pass { IsPassOf site.now pass.old }
    requires heaps { heaps_of site.now ≡ 2 }
    ensures { IsPassOf site.now pass.new }
{
    let first = made_in(rt, alloc, site, pass, 0)?;
    let second = made_in(rt, alloc, site, pass, 1)?;
    Some(first.saturating_add(second))
}

/// Whether the records of a heap give what it has, with the pass.
fn audited(alloc: Global, site: &Site, pass: Pass, heap: u8) -> Option<(bool, Pass)>
    requires pass { IsPassOf site.now pass }
    requires heap { heap < heaps_of site.now }
    ensures { IfSome result (λ made. IsPassOf site.now made.1) }
{
    let Ok(holding) = site.hold(pass, heap) else {
        return None;
    };
    let audit = holding.book().audit(alloc);
    let pass = site.release(holding);
    Some((audit.ok()?, pass))
}

/// Whether the records of both heaps give what these have.
pub fn are_audited(alloc: Global, site: &Site, pass: Pass) -> Option<bool>
    requires pass { IsPassOf site.now pass }
    requires heaps { heaps_of site.now ≡ 2 }
{
    let (first, pass) = audited(alloc, site, pass, 0)?;
    let (second, _) = audited(alloc, site, pass, 1)?;
    Some(first && second)
}
