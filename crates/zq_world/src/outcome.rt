//! What a command left.

use zq_dots::Op;
use zq_journal::Book;
use zq_resp::Reply;

/// The books of a site and what was made so far, after a command, and its reply.
#[derive(Drop)]
pub(crate) struct Outcome {
    pub(crate) books: Vec<Book>,
    pub(crate) made: Vec<Op>,
    pub(crate) reply: Reply,
}
