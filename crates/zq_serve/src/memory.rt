//! How much memory the process has, and whether that is more than it may have.

ghost use Rattle.std.specs.Prelude.{SomeIff, ◌<◌, ◌^◌, ◌≡◌};
ghost use Rattle.std.specs.Str.Parse.{IsNumeral, digits_value, without_leading_plus};
ghost use Rattle.zq_serve.specs.Memory as wanted;

use std::io::Read;
use std::rt::Files;
use std::{fs, str};

/// Where the system says how many pages of memory the process has.
const FILE: &str = "/proc/self/statm";

/// Whether the process has more memory than it may.
#[derive(Clone, Copy, Debug, PartialEq, Eq)]
pub enum Fullness {
    /// It has so many bytes, and may have them.
    Below(u64),
    /// It has so many bytes, which are more than it may have.
    Past(u64),
    /// What it has cannot be read.
    Unread,
}

/// What begins or ends with the memory that the process has.
#[derive(Clone, Copy, Debug, PartialEq, Eq)]
pub enum Turn {
    /// It has so many bytes, which are more than it may have.
    Begins(u64),
    /// It has so many bytes, and no more than it may have any longer.
    Ends(u64),
    /// What it has cannot be read any longer.
    Loses,
}

/// What says how much memory the process has.
pub trait Memory {
    /// How many bytes of memory of the process are resident, as far as the system says.
    fn resident(&self) -> Option<u64>;
}

impl Memory for HostRuntime {
    fn resident(&self) -> Option<u64> {
        resident_memory(self)
    }
}

/// How many bytes of memory of the process are resident, as far as the system says.
fn resident_memory<R: Files>(rt: &R) -> Option<u64> {
    let mut room = [0u8; 256];
    let mut file = fs::open(rt, FILE).ok()?;
    let length = file.read(&mut room).ok()?;
    let text = str::from_utf8(&room[..length]).ok()?;
    let pages = number_of(second_word(text))?;
    Some(bytes_of(pages, page_size()?))
}

/// The second of the words of a text, of which each ends at a blank.
fn second_word(text: &str) -> &str
    ensures { result.now ≡ wanted.second_word text.now }
{
    let rest = match text.split_once(' ') {
        Some((_, rest)) => rest,
        None => "",
    };
    match rest.split_once(' ') {
        Some((word, _)) => word,
        None => rest,
    }
}

/// The number that a word writes: digits, before which a plus may stand.
fn number_of(word: &str) -> Option<u64>
    ensures { SomeIff result
        (IsNumeral 10 (without_leading_plus word.now)
        × (digits_value 10 (without_leading_plus word.now) < 2 ^ 64))
        (digits_value 10 (without_leading_plus word.now)) }
{
    match word.parse::<u64>() {
        Ok(number) => Some(number),
        Err(_) => None,
    }
}

/// The bytes of so many pages of so many bytes.
fn bytes_of(pages: u64, size: u64) -> u64
    ensures { result ≡ wanted.bytes_of pages size }
{
    pages.saturating_mul(size)
}

/// How many bytes a page of memory has, as far as the system says.
fn page_size() -> Option<u64> {
    match u64::try_from(libc::sysconf(libc::_SC_PAGESIZE)) {
        Ok(0) | Err(_) => None,
        Ok(size) => Some(size),
    }
}

/// Whether a process that has so many bytes of memory, where that could be read, has more than the
/// most that it may.
pub(crate) fn fullness_of(most: u64, bytes: Option<u64>) -> Fullness
    ensures { result ≡ wanted.fullness_of most bytes }
{
    match bytes {
        Some(bytes) if most < bytes => Fullness::Past(bytes),
        Some(bytes) => Fullness::Below(bytes),
        None => Fullness::Unread,
    }
}

/// Whether the process has more memory than it may.
pub(crate) fn is_past(seen: Fullness) -> bool
    ensures { result ≡ wanted.is_past seen }
{
    matches!(seen, Fullness::Past(_))
}

/// Whether what it has cannot be read.
fn is_unread(seen: Fullness) -> bool
    ensures { result ≡ wanted.is_unread seen }
{
    matches!(seen, Fullness::Unread)
}

/// What begins or ends with what is seen, after what was seen last.
pub(crate) fn turn_after(last: Fullness, seen: Fullness) -> Option<Turn>
    ensures { result ≡ wanted.turn_after last seen }
{
    match seen {
        Fullness::Past(bytes) if !is_past(last) => Some(Turn::Begins(bytes)),
        Fullness::Below(bytes) if is_past(last) => Some(Turn::Ends(bytes)),
        Fullness::Unread if !is_unread(last) => Some(Turn::Loses),
        _ => None,
    }
}
