//! A world that is being played.

use crate::answer::Answer;
use zq_dots::Op;
use zq_journal::Book;

/// What the events so far left: the books of each site, by heap, the operations that were made, the
/// oldest first, and what each event was answered.
#[derive(Drop)]
pub(crate) struct Player {
    pub(crate) sites: Vec<Vec<Book>>,
    pub(crate) made: Vec<Op>,
    pub(crate) answers: Vec<Answer>,
}
