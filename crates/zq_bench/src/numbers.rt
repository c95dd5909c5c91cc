//! Numbers on the command line.

/// The number that a word writes.
pub fn number_of(word: &str) -> Option<u32> {
    word.parse::<u32>().ok()
}
