//! What requests find in sorted sets: words with spaces between.

use itoa::Buffer;
use std::alloc::AllocError;
use zq_words::{Bound, Kind, Limit, Pair, Range, SiteCall, Window};

const LETTERS: [(&[u8], i64); 5] = [(b"z", -4), (b"a", 1), (b"b", 2), (b"bb", 2), (b"c", 3)];

const WIDE: [(&[u8], i64); 7] = [
    (b"low", -9_007_199_254_740_992),
    (b"z", -4),
    (b"a", 1),
    (b"b", 2),
    (b"bb", 2),
    (b"c", 3),
    (b"top", 9_007_199_254_740_992),
];

const FEW: [(&[u8], i64); 3] = [(b"a", 1), (b"b", 2), (b"c", 3)];

/// The members of a key in their order.
fn queue(key: &[u8]) -> &'static [(&'static [u8], i64)] {
    match key {
        b"r:q" | b"t:q" => &LETTERS,
        b"s:q" => &WIDE,
        b"u:q" => &FEW,
        _ => &[],
    }
}

/// The members of a range, a count behind a colon, or what a command was given.
pub fn write_answer(out: &mut Vec<u8>, kind: &Kind) -> Result<(), AllocError> {
    match kind {
        Kind::Zrange {
            key,
            range,
            is_turned,
            with_scores,
        } => write_range(out, queue(key), range, *is_turned, *with_scores),
        Kind::Zcount { key, min, max } => write_count(out, queue(key), *min, *max),
        Kind::Zadd { pairs, .. } => write_pairs(out, pairs.as_slice()),
        Kind::ZaddIncr { pair, .. } | Kind::Zincrby { pair, .. } => write_pair(out, pair),
        Kind::Zscore { member, .. } => write_word(out, member),
        Kind::Del { keys } => write_words(out, keys),
        _ => write_word(out, b"another command"),
    }
}

/// The members of the range that is removed, or what a further request was given.
pub fn write_call(out: &mut Vec<u8>, call: &SiteCall) -> Result<(), AllocError> {
    match call {
        SiteCall::Scores { key, members } => {
            write_word(out, key)?;
            write_words(out, members)
        }
        SiteCall::Exist { keys } => write_words(out, keys),
        SiteCall::TypeOf { key } => write_word(out, key),
        SiteCall::PopLast { key, count } => {
            write_word(out, key)?;
            write_word(out, Buffer::new().format(*count).as_bytes())
        }
        SiteCall::RemoveRange { key, range } => write_range(out, queue(key), range, false, false),
        _ => write_word(out, b"another call"),
    }
}

fn write_range(
    out: &mut Vec<u8>,
    queue: &[(&[u8], i64)],
    range: &Range,
    is_turned: bool,
    with_scores: bool,
) -> Result<(), AllocError> {
    let length = i64::try_from(queue.len()).unwrap_or(0);
    let mut place = 0i64;
    for index in 0..queue.len() {
        let (member, score) = queue[if is_turned {
            queue.len() - 1 - index
        } else {
            index
        }];
        if let Range::ByScore { min, max, .. } = range {
            if !is_between(score, *min, *max) {
                continue;
            }
        }
        if is_asked(range, place, length) {
            write_word(out, member)?;
            if with_scores {
                write_word(out, Buffer::new().format(score).as_bytes())?;
            }
        }
        place = place.saturating_add(1);
    }
    Ok(())
}

/// Whether what stands at this place, among those of the scores, is asked for.
fn is_asked(range: &Range, place: i64, length: i64) -> bool {
    match range {
        Range::ByPlace { start, stop } => {
            from_front(*start, length) <= place && place <= from_front(*stop, length)
        }
        Range::ByScore { window: None, .. } => true,
        Range::ByScore {
            window: Some(Window { offset, count }),
            ..
        } => {
            0 <= *offset
                && *offset <= place
                && (*count < 0 || place < offset.saturating_add(*count))
        }
    }
}

fn from_front(place: i64, length: i64) -> i64 {
    if place < 0 {
        place.saturating_add(length)
    } else {
        place
    }
}

fn write_count(
    out: &mut Vec<u8>,
    queue: &[(&[u8], i64)],
    min: Bound,
    max: Bound,
) -> Result<(), AllocError> {
    let mut count = 0u64;
    for (_, score) in queue {
        if is_between(*score, min, max) {
            count = count.saturating_add(1);
        }
    }
    out.push(b':')?;
    out.extend_from_slice(Buffer::new().format(count).as_bytes())
}

fn is_between(score: i64, min: Bound, max: Bound) -> bool {
    let is_above = match min.limit {
        Limit::Lowest => true,
        Limit::At(limit) if min.is_out => limit < score,
        Limit::At(limit) => limit <= score,
        Limit::Highest => false,
    };
    is_above
        && match max.limit {
            Limit::Lowest => false,
            Limit::At(limit) if max.is_out => score < limit,
            Limit::At(limit) => score <= limit,
            Limit::Highest => true,
        }
}

fn write_pairs(out: &mut Vec<u8>, pairs: &[Pair]) -> Result<(), AllocError> {
    for pair in pairs {
        write_pair(out, pair)?;
    }
    Ok(())
}

fn write_pair(out: &mut Vec<u8>, pair: &Pair) -> Result<(), AllocError> {
    write_word(out, pair.member)?;
    write_word(out, Buffer::new().format(pair.score).as_bytes())
}

fn write_words(out: &mut Vec<u8>, words: &[Vec<u8>]) -> Result<(), AllocError> {
    for word in words {
        write_word(out, word)?;
    }
    Ok(())
}

fn write_word(out: &mut Vec<u8>, word: &[u8]) -> Result<(), AllocError> {
    if !out.is_empty() {
        out.push(b' ')?;
    }
    out.extend_from_slice(word)
}
