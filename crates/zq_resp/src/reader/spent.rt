//! Requests that were answered, kept for their memory.

use crate::request::Request;

/// One place for each number of words of a request that is kept, and one for none.
const PLACES: usize = 10;

/// Requests that were answered: the memory of their words is used again for a later one of as many
/// words.
#[derive(Drop)]
pub struct Spent {
    requests: [Option<Request>; PLACES],
}

impl Spent {
    /// None.
    pub fn new() -> Self {
        Spent {
            requests: [None, None, None, None, None, None, None, None, None, None],
        }
    }

    /// The words of the one of so many words, as they were; `None` where none is left.
    pub fn take(&mut self, count: usize) -> Option<Vec<Vec<u8>>> {
        let request = self.requests.get_mut(count)?.take()?;
        Some(request.into_words())
    }

    /// Keeps this one if it is small, in place of the one of as many words that was kept before.
    pub fn keep(&mut self, request: Request) {
        if !request.is_small() {
            return;
        }
        if let Some(place) = self.requests.get_mut(request.words().len()) {
            *place = Some(request);
        }
    }
}
