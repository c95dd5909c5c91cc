//! Requests that a site answers as one, of which a growth is refused: where a key is watched, where
//! a request is read that is to wait, and where those that wait are answered.
ghost use Rattle.std.specs.Prelude.{◌≡◌, IfErr, IfSome, IsTrue};
ghost use Rattle.zq_resp.specs.Reply.{is_writable};
ghost use Rattle.zq_session.specs.Writable.{AreAllWritable};
ghost use Rattle.zq_spread.specs.Calls.{heaps_of};
ghost use Rattle.zq_spread.specs.Passes.{IsPassOf};

use crate::commands::REFUSED;
use crate::ended::{Ended, Tried, judge};
use crate::sites::{answer, are_audited, is_answered, last_pass, made, opened_with, request, room};
use std::alloc::Global;
use std::sync::Wait;
use zq_dots::SiteNo;
use zq_resp::{Reply, write_reply};
use zq_session::{Calling, Queued, SitePass, Transacted, Transacts};
use zq_spread::{Draws, Pass, Site, Watched};

/// The requests. Of key q the first member lies in heap 0 and the second in heap 1. Their names are
/// too long to lie in a reply: the pop takes memory for one.
const LINES: [&str; 3] = [
    "ZADD q 1 long-member-name-a 2 long-member-name-b",
    "ZPOPMIN q",
    "ZCARD q",
];

/// What is asked to see what stands.
const LOOK: &str = "ZRANGE q 0 -1 WITHSCORES";

/// What that says where nothing stands.
const NONE: &str = "*0\r\n";

/// What that says in the end.
const LAST: &str = "*2\r\n$18\r\nlong-member-name-b\r\n$1\r\n2\r\n";

/// What the requests are answered where the key has no members, with memory.
const OWED: &str = "*3\r\n:2\r\n*2\r\n$18\r\nlong-member-name-a\r\n$1\r\n1\r\n:1\r\n";

/// How many operations that makes.
const MADE: usize = 3;

/// The same where the key has the second member.
const OWED_TO_ONE: &str = "*3\r\n:1\r\n*2\r\n$18\r\nlong-member-name-a\r\n$1\r\n1\r\n:1\r\n";

/// The same where it has both.
const OWED_TO_BOTH: &str = "*3\r\n:0\r\n*2\r\n$18\r\nlong-member-name-a\r\n$1\r\n1\r\n:1\r\n";

/// What the requests are answered where what is watched was changed.
const TOUCHED: &str = "*-1\r\n";

/// What the requests are answered where they had no memory: the answer, after how many of their
/// operations memory was refused, how many stand, and what is left. Then what the same requests are
/// answered once more under the same watch, and what they are answered under a new one.
struct Cut {
    told: &'static str,
    after: usize,
    made: usize,
    left: &'static str,
    again: &'static str,
    anew: &'static str,
}

/// The requests are turned away as one, or one of them is cut and those behind it go by what stands
/// then. The watch still holds where nothing was made, and nowhere else.
const CUTS: [Cut; 4] = [
    Cut {
        told: REFUSED,
        after: 0,
        made: 0,
        left: NONE,
        again: OWED,
        anew: OWED_TO_ONE,
    },
    Cut {
        told: "*3\r\n-OOM after 0\r\n*0\r\n:0\r\n",
        after: 0,
        made: 0,
        left: NONE,
        again: OWED,
        anew: OWED_TO_ONE,
    },
    Cut {
        told: "*3\r\n-OOM after 1\r\n*2\r\n$18\r\nlong-member-name-a\r\n$1\r\n1\r\n:0\r\n",
        after: 1,
        made: 2,
        left: NONE,
        again: TOUCHED,
        anew: OWED,
    },
    Cut {
        told: "*3\r\n:2\r\n-OOM after 0\r\n:2\r\n",
        after: 2,
        made: 2,
        left: "*4\r\n$18\r\nlong-member-name-a\r\n$1\r\n1\r\n$18\r\nlong-member-name-b\r\n$1\r\n2\r\n",
        again: TOUCHED,
        anew: OWED_TO_BOTH,
    },
];

/// What waits to be answered, and what is watched for it.
#[derive(Drop)]
struct Waiting {
    queue: Vec<Queued>,
    watched: Watched,
}

/// The keys that are watched.
fn keys(alloc: Global) -> Option<Vec<Vec<u8>>> {
    let key = Vec::from_slice(alloc, b"q").ok()?;
    let mut keys = Vec::new(alloc);
    keys.push(key).ok()?;
    Some(keys)
}

/// Reads the requests, which are to wait. The reply of the first that is refused.
fn read_all<A: Transacts>(alloc: Global, server: &A) -> Option<Result<Vec<Queued>, Reply>>
    ensures { IfSome result (λ read. IfErr read (λ reply. IsTrue (is_writable reply))) }
{
    let mut queue = Vec::new(alloc);
    for line in &LINES {
        let request = request(alloc, line)?;
        match server.prepare(alloc, &request) {
            Ok(queued) => queue.push(queued).ok()?,
            Err(reply) => return Some(Err(reply)),
        }
    }
    Some(Ok(queue))
}

/// Watches the key, and reads the requests. The reply where the watch or one of them is refused.
fn begun<A: Transacts>(alloc: Global, server: &mut A) -> Option<Result<Waiting, Reply>>
    ensures { IfSome result (λ begun. IfErr begun (λ reply. IsTrue (is_writable reply))) }
{
    let watched = match server.watch(alloc, keys(alloc)?) {
        Ok(watched) => watched,
        Err(reply) => return Some(Err(reply)),
    };
    Some(match read_all(alloc, server)? {
        Ok(queue) => Ok(Waiting { queue, watched }),
        Err(reply) => Err(reply),
    })
}

/// The reply to what was answered as one.
fn reply_of(ended: Transacted) -> Reply
    requires { AreAllWritable ended }
    ensures { IsTrue (is_writable result) }
{
    match ended {
        Transacted::Ran(replies) => Reply::Array(replies),
        Transacted::Touched => Reply::NullArray,
        Transacted::TurnedAway(reply) => reply,
    }
}

/// The bytes of a reply.
fn bytes_of(alloc: Global, reply: &Reply) -> Option<Vec<u8>>
    requires { IsTrue (is_writable reply.now) }
{
    let mut bytes = room(alloc)?;
    write_reply(&mut bytes, reply).ok()?;
    Some(bytes)
}

/// The bytes that the requests which wait are answered by. They have their memory before, so that
/// `None` says that nothing was done.
fn transacted<A: Transacts>(alloc: Global, server: &mut A, waiting: &Waiting) -> Option<Vec<u8>> {
    let mut bytes = room(alloc)?;
    let ended = server.transact(alloc, &waiting.queue, Some(&waiting.watched));
    write_reply(&mut bytes, &reply_of(ended)).ok()?;
    Some(bytes)
}

/// The bytes that the requests are answered by under a new watch, or those of the first refusal.
fn asked_anew<A: Transacts>(alloc: Global, server: &mut A) -> Option<Vec<u8>> {
    match begun(alloc, server)? {
        Ok(waiting) => transacted(alloc, server, &waiting),
        Err(reply) => bytes_of(alloc, &reply),
    }
}

/// Whether so many operations stand, and this is left.
fn stands<R: Wait>(
    rt: &R,
    alloc: Global,
    site: &Site,
    looks: &mut Pass,
    operations: usize,
    left: &str,
) -> Option<bool>
    requires pass { IsPassOf site.now looks.old }
    requires heaps { heaps_of site.now ≡ 2 }
    ensures { IsPassOf site.now looks.new }
{
    let made = made(rt, alloc, site, looks)?;
    let is_left = is_answered(rt, alloc, site, looks, LOOK, left)?;
    Some(made == operations && is_left)
}

/// How it ends where a request, or the watch, is refused by this reply before any is answered.
/// Nothing stands, and all go as they are owed once more.
fn refused<R: Wait, A: Transacts>(
    rt: &R,
    alloc: Global,
    site: &Site,
    looks: &mut Pass,
    server: &mut A,
    reply: &Reply,
) -> Option<Ended>
    requires pass { IsPassOf site.now looks.old }
    requires heaps { heaps_of site.now ≡ 2 }
    requires writable { IsTrue (is_writable reply.now) }
    ensures { IsPassOf site.now looks.new }
{
    let told = bytes_of(alloc, reply)?;
    let kept = stands(rt, alloc, site, looks, 0, NONE)?;
    let again = asked_anew(alloc, server)?;
    Some(if told.as_slice() == REFUSED.as_bytes() {
        judge(Tried::Refused, kept, again.as_slice() == OWED.as_bytes())
    } else {
        Ended::Wrong
    })
}

/// Whether the requests which wait were cut so: by what stands, and by what they are answered under
/// the same watch and under a new one.
fn is_cut<R: Wait, A: Transacts>(
    rt: &R,
    alloc: Global,
    site: &Site,
    looks: &mut Pass,
    server: &mut A,
    waiting: &Waiting,
    cut: &Cut,
) -> Option<bool>
    requires pass { IsPassOf site.now looks.old }
    requires heaps { heaps_of site.now ≡ 2 }
    ensures { IsPassOf site.now looks.new }
{
    let kept = stands(rt, alloc, site, looks, cut.made, cut.left)?;
    let again = transacted(alloc, server, waiting)?;
    let anew = asked_anew(alloc, server)?;
    let is_same = again.as_slice() == cut.again.as_bytes();
    Some(kept && is_same && anew.as_slice() == cut.anew.as_bytes())
}

/// How it ends where the requests wait, and are answered.
fn answered<R: Wait, A: Transacts>(
    rt: &R,
    alloc: Global,
    site: &Site,
    looks: &mut Pass,
    server: &mut A,
    waiting: &Waiting,
) -> Option<Ended>
    requires pass { IsPassOf site.now looks.old }
    requires heaps { heaps_of site.now ≡ 2 }
    ensures { IsPassOf site.now looks.new }
{
    let told = transacted(alloc, server, waiting)?;
    if told.as_slice() == OWED.as_bytes() {
        let operations = made(rt, alloc, site, looks)?;
        return Some(judge(Tried::Done, true, operations == MADE));
    }
    let cut = CUTS
        .iter()
        .find(|cut| cut.told.as_bytes() == told.as_slice());
    match cut {
        Some(cut) if is_cut(rt, alloc, site, looks, server, waiting, cut)? => {
            Some(Ended::Refused(cut.after))
        }
        _ => Some(Ended::Wrong),
    }
}

/// How it ends where the key is watched, the requests are read, and they are answered.
fn asked<R: Wait, A: Transacts>(
    rt: &R,
    alloc: Global,
    site: &Site,
    looks: &mut Pass,
    server: &mut A,
) -> Option<Ended>
    requires pass { IsPassOf site.now looks.old }
    requires heaps { heaps_of site.now ≡ 2 }
    ensures { IsPassOf site.now looks.new }
{
    match begun(alloc, server)? {
        Ok(waiting) => answered(rt, alloc, site, looks, server, &waiting),
        Err(reply) => refused(rt, alloc, site, looks, server, &reply),
    }
}

/// How requests end after which this is left. Where they had their memory and the look at it had
/// none, there is nothing to say of them.
fn in_the_end(ended: Ended, last: &[u8]) -> Option<Ended> {
    match ended {
        Ended::Owed(_) if last == REFUSED.as_bytes() => None,
        _ if last == LAST.as_bytes() => Some(ended),
        _ => Some(Ended::Wrong),
    }
}

/// How the requests end at a site that has done nothing, of which one pass answers them and another
/// looks at what stands.
fn at_site<R: Wait>(
    rt: &R,
    alloc: Global,
    site: &Site,
    looks: &mut Pass,
    answers: Pass,
) -> Option<Ended>
    requires pass { IsPassOf site.now looks.old }
    requires other { IsPassOf site.now answers }
    requires heaps { heaps_of site.now ≡ 2 }
    ensures { IsPassOf site.now looks.new }
{
    let mut own = SitePass::new(site, answers);
    let mut server = Calling::new(rt, &mut own, Draws::new(0), true);
    let ended = asked(rt, alloc, site, looks, &mut server)?;
    let last = answer(rt, alloc, site, looks, LOOK)?;
    in_the_end(ended, &last)
}

/// How the requests end at a new site, after which the records of both heaps have to give what
/// these have.
pub fn transaction<R: Wait>(rt: &R, alloc: Global) -> Option<Ended> {
    let (site, mut passes) = opened_with(alloc, SiteNo::new(0)?, 2)?;
    let mut looks = last_pass(&site, &mut passes)?;
    let answers = last_pass(&site, &mut passes)?;
    let ended = at_site(rt, alloc, &site, &mut looks, answers)?;
    Some(if are_audited(alloc, &site, looks)? {
        ended
    } else {
        Ended::Wrong
    })
}
