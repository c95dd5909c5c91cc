//! The fast path: a short request that stands whole in a piece.

ghost use Rattle.std.specs.Prelude.{◌≡◌, List, ℕ, ◌++◌, ◌+◌, ◌<◌, ◌≤◌, ◌∷◌, [], length, take, drop, IfSome, IfOk, IfErr, OnOk};
ghost use Rattle.zq_resp.specs.declared.fault.FeedFault.TheVariants.{NoMemory};
ghost use Rattle.zq_resp.specs.Front.{Got};
ghost use Rattle.zq_resp.specs.Grammar.{request_at};
ghost use Rattle.zq_resp.specs.Request.{AreWords, IsWord};
ghost use Rattle.zq_resp.specs.Suspended.{IsStep, views};
ghost use Rattle.zq_resp.specs.Spelling.{number_line, word_text};
ghost use Rattle.zq_resp.specs.Stream.{HasCount};

use crate::fault::FeedFault;
use crate::reader::spent::Spent;
use std::alloc::{AllocError, Global};

/// A request that stands whole at the front, with a count of one to nine and words of which each
/// length has one or two digits, and how many bytes it takes. Its words take the memory of a spent
/// request, where there is one. `None` leaves open whether the request is longer, unfinished or
/// wrong.
pub fn short_request(
    alloc: Global,
    bytes: &[u8],
    spent: &mut Spent,
) -> Result<Option<(Vec<Vec<u8>>, usize)>, FeedFault>
    ensures taken { IfOk result (λ found. IfSome found (IsStep bytes.now)) }
    ensures words { IfOk result (λ found. IfSome found (λ x. AreWords (views x.0))) }
    ensures read { IfOk result
        (λ found. IfSome found (λ x. request_at bytes.now ≡ Got (views x.0, drop x.1 bytes.now))) }
    ensures memory { IfErr result (λ e. (e ≡ NoMemory) × HasCount bytes.now) }
{
    let Some(count) = short_count(bytes) else {
        return Ok(None);
    };
    if count == 0 {
        return Ok(None);
    }
    let mut words = match spent.take(count) {
        Some(words) => words,
        None => Vec::with_capacity(alloc, count)?,
    };
    let mut at = 4;
    let mut done = 0;
    while done < count {
        let Some((word, taken)) = short_word(&bytes[at..]) else {
            return Ok(None);
        };
        put_word(alloc, &mut words, done, word)?;
        at += taken;
        done += 1;
    }
    words.truncate(count);
    Ok(Some((words, at)))
}

/// Puts a word in its place, in the memory of the word that stood there, if one did.
fn put_word(
    alloc: Global,
    words: &mut Vec<Vec<u8>>,
    place: usize,
    word: &[u8],
) -> Result<(), FeedFault>
    requires { place ≤ length words.old.items }
    ensures longer { OnOk result (place < length words.new.items) }
    ensures put { OnOk result (take (place + 1) (views words.new)
        ≡ take place (views words.old) ++ word.now ∷ []) }
    ensures memory { IfErr result (λ e. e ≡ NoMemory) }
{
    if let Some(spent) = words.get_mut(place) {
        replace_word(spent, word)?;
        return Ok(());
    }
    words.push(Vec::from_slice(alloc, word)?)?;
    Ok(())
}

/// Puts a word over another one, in its memory. Words of one place often have the same length.
fn replace_word(spent: &mut Vec<u8>, word: &[u8]) -> Result<(), AllocError>
    ensures { OnOk result (spent.new.items ≡ word.now) }
{
    if spent.len() == word.len() {
        overwrite(spent.as_mut_slice(), word);
        return Ok(());
    }
    spent.clear();
    spent.extend_from_slice(word)
}

/// Copies bytes over as many. Most words are short: two copies of a known length, which may share
/// bytes, write them whole.
#[inline(always)]
fn overwrite(bytes: &mut [u8], word: &[u8])
    requires { length bytes.old ≡ length word.now }
    ensures { bytes.new ≡ word.now }
{
    match word.len() {
        4..8 => overwrite_ends::<4>(bytes, word),
        8..=16 => overwrite_ends::<8>(bytes, word),
        _ => bytes.copy_from_slice(word),
    }
}

/// The same, where the first bytes of a word, so many, and its last ones leave none out.
#[inline(always)]
fn overwrite_ends<const N: usize>(bytes: &mut [u8], word: &[u8])
    requires alike { length bytes.old ≡ length word.now }
    requires long { N ≤ length word.now }
    requires short { length word.now ≤ N + N }
    ensures { bytes.new ≡ word.now }
{
    let last = word.len() - N;
    bytes[..N].copy_from_slice(&word[..N]);
    bytes[last..].copy_from_slice(&word[last..]);
}

/// The count of a request that begins at the front, where it has one digit and its line is all
/// there.
pub fn short_count(bytes: &[u8]) -> Option<usize>
    ensures digit { IfSome result (λ count. count ≤ 9) }
    ensures taken { IfSome result (λ _. 4 ≤ length bytes.now) }
    ensures line { IfSome result (λ count. take 4 bytes.now ≡ 42 ∷ number_line count) }
{
    if bytes.len() < 4 || bytes[0] != b'*' || bytes[1] < b'0' || bytes[1] > b'9' {
        return None;
    }
    if bytes[2] != b'\r' || bytes[3] != b'\n' {
        return None;
    }
    Some((bytes[1] - b'0') as usize)
}

/// A word that stands whole at the front, with a length of one or two digits, and how many bytes
/// its spelling takes. `None` leaves open whether the word is longer, unfinished or wrong.
pub fn short_word(bytes: &[u8]) -> Option<(&[u8], usize)>
    ensures taken { IfSome result (λ x. IsStep bytes.now x) }
    ensures small { IfSome result (λ x. IsWord x.0.now) }
    ensures few { IfSome result (λ x. x.1 ≤ 106) }
    ensures word { IfSome result (λ x. word_text x.0.now ≡ take x.1 bytes.now) }
{
    if bytes.len() < 6 || bytes[0] != b'$' || bytes[1] < b'0' || bytes[1] > b'9' {
        return None;
    }
    let first = (bytes[1] - b'0') as usize;
    if bytes[2] == b'\r' && bytes[3] == b'\n' {
        return word_behind(bytes, 4, first);
    }
    if first == 0 || bytes[2] < b'0' || bytes[2] > b'9' || bytes[3] != b'\r' || bytes[4] != b'\n' {
        return None;
    }
    word_behind(bytes, 5, first * 10 + (bytes[2] - b'0') as usize)
}

/// The word of this size behind its line, with CR LF after it.
fn word_behind(bytes: &[u8], start: usize, size: usize) -> Option<(&[u8], usize)>
    requires start { start ≤ 5 }
    requires size { size ≤ 99 }
    requires line { take start bytes.now ≡ 36 ∷ number_line size }
    ensures taken { IfSome result (λ x. IsStep bytes.now x) }
    ensures small { IfSome result (λ x. IsWord x.0.now) }
    ensures few { IfSome result (λ x. x.1 ≤ 106) }
    ensures word { IfSome result (λ x. word_text x.0.now ≡ take x.1 bytes.now) }
{
    let end = start + size;
    if bytes.len() < end + 2 || bytes[end] != b'\r' || bytes[end + 1] != b'\n' {
        return None;
    }
    Some((&bytes[start..end], end + 2))
}
