//! A queue that loses what it has no memory for. No case may end as its own does.

use crate::ended::{Ended, Tried, judge};
use std::alloc::Global;

/// Takes the last one off, and only then makes room for it.
fn pop(members: &mut Vec<u8>, out: &mut Vec<u8>) -> Tried {
    let Some(member) = members.pop() else {
        return Tried::Done;
    };
    match out.push(member) {
        Ok(()) => Tried::Done,
        Err(_) => Tried::Refused,
    }
}

/// The queue is asked for one of its members, and once more where it had no memory.
fn asked(members: &mut Vec<u8>, out: &mut Vec<u8>) -> Ended {
    let tried = pop(members, out);
    let kept = members.len() == 2;
    if tried == Tried::Refused {
        pop(members, out);
    }
    judge(tried, kept, out.as_slice() == b"b".as_slice())
}

/// The queue is asked for one of its two members.
pub fn careless(alloc: Global) -> Option<Ended> {
    let mut members = Vec::from_slice(alloc, b"ab").ok()?;
    let mut out = Vec::new(alloc);
    Some(asked(&mut members, &mut out))
}
