//! A book, whose tail is cut to a half where it is long.
use crate::image::members::{Board, KEY};
use crate::members::LENGTH;
use std::alloc::Global;
use zq_dots::{Act, SiteNo};
use zq_journal::Book;

/// A book, and the number of records that is long.
#[derive(Drop)]
pub struct CutBook {
    pub book: Book,
    pub long: usize,
}

impl Board for CutBook {
    fn put(&mut self, alloc: Global, site: SiteNo, member: &[u8; LENGTH], act: Act) {
        let stamp = self.book.stamp();
        let _ = self.book.make(alloc, site, stamp, KEY, member, act);
        cut(&mut self.book, self.long);
    }
}

/// Drops the older half of the records, where there are as many as are long.
fn cut(book: &mut Book, long: usize) {
    let records = book.tail_len();
    if records >= long {
        let _ = book.advance(records - long / 2);
    }
}
