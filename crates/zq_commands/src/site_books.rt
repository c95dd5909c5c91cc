//! The books of all heaps of a site.

ghost use Rattle.std.specs.Prelude.{IfOk, IsErrOf, IsTrue, OnErr, Some, length, set, slice_get, ◌<◌, ◌≡◌, ◌≤◌, ℕ};
ghost use Rattle.zq_commands.specs.Commands.{HasBooks};
ghost use Rattle.zq_commands.specs.Lending.{IsDated, IsLending};
ghost use Rattle.zq_commands.specs.SiteBooks.{AreOfSite, IsKept, IsMerged, IsTaken, empty_book};
ghost use Rattle.zq_commands.specs.VecBooks.{AreRecordedOn, lending_of, rule_in};
ghost use Rattle.zq_dots.specs.Rule.{rule_of};
ghost use Rattle.zq_model.specs.Books.{Book as Books};
ghost use Rattle.zq_journal.specs.Books.{LAST_STAMP};
ghost use Rattle.zq_model.specs.Bounded.{IsBounded};
ghost use Rattle.zq_model.specs.Sets.{IsHeaps, IsIn};
ghost use Rattle.zq_semantics.specs.Run.{IsRun};
ghost use Rattle.zq_resp.specs.Reply.{is_writable, reply_bytes};
ghost use Rattle.zq_words.specs.Command.{Command as Commands};

use crate::running::run;
use std::alloc::{AllocError, Global};
use std::marker::Model;
use zq_dots::{Op, Rule, SiteNo};
use zq_journal::{Book, MergeFault, TakeFault};
use zq_posheap::Seeded;
use zq_resp::Reply;
use zq_shard::{Shard, Taken};
use zq_words::Command;

/// The books of all heaps of a site, 1 to 16, each at the place of its heap's number, and all of
/// one rule.
#[derive(Drop)]
pub struct SiteBooks {
    pub(crate) books: Vec<Book>,
}

impl Model for SiteBooks {
    ghost use Rattle.std.specs.Prelude.{List};
    ghost use Rattle.zq_commands.specs.SiteBooks.{AreOfSite, books_code};
    ghost use Rattle.zq_model.specs.Books.{Book};

    ghost Value = { List Book };

    ghost coded = { books_code };

    ghost view = { λ site. site.books.items };

    ghost invariant = { λ site. AreOfSite site.books.items };
}

impl SiteBooks {
    /// The books of so many heaps of a site that has done nothing. Keys and members are placed by
    /// the hasher.
    pub fn new(
        alloc: Global,
        heaps: u8,
        rule: Rule,
        hasher: Seeded,
    ) -> Result<SiteBooks, AllocError>
        requires heaps { IsHeaps heaps }
        ensures number { IfOk result (λ site. length site ≡ heaps) }
        ensures empty { IfOk result (λ site. (heap : ℕ) (book : Books) →
            slice_get site heap ≡ Some book → book ≡ empty_book heaps (rule_of rule) heap) }
    {
        let mut books = Vec::new(alloc);
        for heap in 0..heaps {
            books.push(empty(alloc, heap, heaps, rule, hasher))?;
        }
        Ok(SiteBooks { books })
    }

    /// The books, by heap. They can be lent to every command.
    pub fn books(&self) -> &[Book]
        ensures same { result.now ≡ self.now }
        ensures site { AreOfSite self.now }
        ensures lent { IsLending (lending_of self.now) }
        ensures homes { (command : Commands) → HasBooks command (lending_of self.now) }
    {
        &self.books
    }

    /// Makes an ordered index of a key in the book of a heap, as the book does.
    pub fn index(&mut self, alloc: Global, heap: u8, key: &[u8], most: usize)
        ensures { self.new ≡ self.old }
    {
        let place = heap as usize;
        if place < self.books.len() {
            self.books[place].index(alloc, key, most);
        }
    }

    /// The greatest of the books' stamps.
    pub fn stamp(&self) -> u64
        ensures dated { IsDated result (lending_of self.now) }
        ensures greatest { (book : Books) × IsIn book self.now × (book.stamp ≡ result) }
    {
        greatest_stamp(&self.books)
    }

    /// Runs a command, as a site and at a stamp that is no less than the books': it makes what the
    /// command plans over their queues, and gives the reply. Where a book's number is at its last
    /// value, or memory is refused, the moves before stand, and the reply says how many.
    pub fn run(&mut self, alloc: Global, site: SiteNo, stamp: u64, command: &Command) -> Reply
        requires dated { IsDated stamp (lending_of self.old) }
        ensures ran { IsRun (rule_in self.old) site stamp command.now self.old self.new
            (reply_bytes result) }
        ensures rule { rule_in self.new ≡ rule_in self.old }
        ensures worked { AreRecordedOn self.old self.new }
        ensures dated { IsDated stamp (lending_of self.new) }
        ensures writable { IsTrue (is_writable result) }
    {
        run(&mut self.books, alloc, site, stamp, command)
    }

    /// Takes an operation of another site in the book of its heap, as the book does. The stamp is
    /// no less than the books'.
    ///
    /// `WrongHeap` where there is no such book, or the operation's number of heaps or its member's
    /// hash is another. What is new is refused with `Worn` where the book's count is at its last
    /// value, else with `NoMemory` where a growth was refused. After each nothing has changed.
    pub fn take(&mut self, alloc: Global, stamp: u64, op: &Op) -> Result<Taken, TakeFault>
        requires dated { IsDated stamp (lending_of self.old) }
        ensures absent { length self.old ≤ op.now.operation.heap →
            IsErrOf result TakeFault.WrongHeap }
        ensures taken { (book : Books) → slice_get self.old op.now.operation.heap ≡ Some book →
            (new : Books) × IsTaken result stamp op.now book new
            × (self.new ≡ set self.old op.now.operation.heap new) }
        ensures refused { OnErr result (self.new ≡ self.old) }
        ensures dated { IsDated stamp (lending_of self.new) }
    {
        let place = op.heap() as usize;
        if place < self.books.len() {
            take_in(&mut self.books[place], alloc, stamp, op)
        } else {
            Err(TakeFault::WrongHeap)
        }
    }

    /// Takes all that another site's heap has in the book of that heap, as the book does. The stamp
    /// is no less than the books'.
    ///
    /// `WrongHeap` where there is no such book, or the number of heaps is another, else `WrongRule`
    /// where the rule is, else `Worn` where the book's count is at its last value, else `NoMemory`
    /// where a growth was refused. After each nothing has changed.
    pub fn merge(&mut self, alloc: Global, stamp: u64, other: &Shard) -> Result<(), MergeFault>
        requires dated { IsDated stamp (lending_of self.old) }
        ensures absent { length self.old ≤ other.now.heap → IsErrOf result MergeFault.WrongHeap }
        ensures merged { (book : Books) → slice_get self.old other.now.heap ≡ Some book →
            (new : Books) × IsMerged result stamp other.now book new
            × (self.new ≡ set self.old other.now.heap new) }
        ensures refused { OnErr result (self.new ≡ self.old) }
        ensures dated { IsDated stamp (lending_of self.new) }
    {
        let place = other.heap() as usize;
        if place < self.books.len() {
            merge_in(&mut self.books[place], alloc, stamp, other)
        } else {
            Err(MergeFault::WrongHeap)
        }
    }
}

/// The greatest stamp of some books.
fn greatest_stamp(books: &[Book]) -> u64
    requires { 0 < length books.now }
    ensures bounded { result ≤ LAST_STAMP }
    ensures above { (place : ℕ) (book : Books) → slice_get books.now place ≡ Some book →
        book.stamp ≤ result }
    ensures among { (book : Books) × IsIn book books.now × (book.stamp ≡ result) }
{
    let mut greatest = books[0].stamp();
    for place in 1..books.len() {
        let stamp = books[place].stamp();
        if greatest < stamp {
            greatest = stamp;
        }
    }
    greatest
}

/// The book of a heap in which nothing was done.
fn empty(alloc: Global, heap: u8, heaps: u8, rule: Rule, hasher: Seeded) -> Book
    requires heaps { IsHeaps heaps }
    requires heap { heap < heaps }
    ensures empty { result ≡ empty_book heaps (rule_of rule) heap }
    ensures bounded { IsBounded result.heaps result.heap result.state }
{
    let book = Book::new(alloc, Shard::new_ruled(alloc, heap, heaps, rule, hasher));
    // For the proof: the book's state is within bounds.
    let _vector = book.shard().vector();
    book
}

/// Takes an operation in a book, which keeps its heap and its rule.
fn take_in(book: &mut Book, alloc: Global, stamp: u64, op: &Op) -> Result<Taken, TakeFault>
    requires stamp { book.old.stamp ≤ stamp }
    requires bounded { stamp ≤ LAST_STAMP }
    ensures taken { IsTaken result stamp op.now book.old book.new }
    ensures refused { OnErr result (book.new ≡ book.old) }
    ensures kept { IsKept book.old book.new }
    ensures stamp { book.new.stamp ≤ stamp }
{
    let taken = book.take(alloc, stamp, op);
    // For the proof: the book's state is within bounds.
    let _vector = book.shard().vector();
    taken
}

/// Takes another heap in a book, which keeps its heap and its rule.
fn merge_in(book: &mut Book, alloc: Global, stamp: u64, other: &Shard) -> Result<(), MergeFault>
    requires stamp { book.old.stamp ≤ stamp }
    requires bounded { stamp ≤ LAST_STAMP }
    ensures merged { IsMerged result stamp other.now book.old book.new }
    ensures refused { OnErr result (book.new ≡ book.old) }
    ensures kept { IsKept book.old book.new }
    ensures stamp { book.new.stamp ≤ stamp }
{
    let merged = book.merge(alloc, stamp, other);
    // For the proof: the book's state is within bounds.
    let _vector = book.shard().vector();
    merged
}
