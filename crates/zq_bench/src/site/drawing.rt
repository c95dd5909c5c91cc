//! What is asked of the site.
use crate::requests::request;
use rand_core::Rng;
use std::alloc::Global;
use zq_resp::Request;

/// How many keys there are.
const KEYS: u64 = 1000;

/// How many members of a key are asked for.
const MEMBERS: u64 = 10;

/// How many requests are drawn.
const DRAWN: u32 = 12_000;

/// A request for each key, which adds all its members.
pub fn fill(alloc: Global) -> Option<Vec<Request>> {
    let mut requests = Vec::new(alloc);
    for key in 0..KEYS {
        let line = filled(alloc, key)?;
        requests.push(request(alloc, &line)?).ok()?;
    }
    Some(requests)
}

/// The words that add all members of a key.
fn filled(alloc: Global, key: u64) -> Option<String> {
    let mut line = format!(in alloc; "ZADD key:{key}").ok()?;
    for member in 0..MEMBERS {
        let pair = format!(in alloc; " {key} member:{member}").ok()?;
        line.push_str(&pair).ok()?;
    }
    Some(line)
}

/// Drawn requests: half of them ZSCORE, a third ZADD, a twelfth ZINCRBY and a twelfth this word's,
/// which pops of a key.
pub fn draw<R: Rng>(alloc: Global, draws: &mut R, pop: &str) -> Option<Vec<Request>> {
    let mut requests = Vec::new(alloc);
    for _request in 0..DRAWN {
        let line = drawn(alloc, draws, pop)?;
        requests.push(request(alloc, &line)?).ok()?;
    }
    Some(requests)
}

/// The words of a drawn request.
fn drawn<R: Rng>(alloc: Global, draws: &mut R, pop: &str) -> Option<String> {
    let kind = draws.next_u64() % 12;
    let key = draws.next_u64() % KEYS;
    let member = draws.next_u64() % MEMBERS;
    let score = draws.next_u64() % 1_000_000;
    match kind {
        0 => format!(in alloc; "{pop} key:{key}").ok(),
        1 => format!(in alloc; "ZINCRBY key:{key} {score} member:{member}").ok(),
        2..=5 => format!(in alloc; "ZADD key:{key} {score} member:{member}").ok(),
        _ => format!(in alloc; "ZSCORE key:{key} member:{member}").ok(),
    }
}
