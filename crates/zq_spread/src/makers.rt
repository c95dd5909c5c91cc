//! How a site is made.
ghost use Rattle.std.specs.Prelude.{◌≡◌, ◌↔◌, List, IfErr, IfOk, IsErrAnd, IsErrOf, IsTrue, length};
ghost use Rattle.zq_dots.specs.Rule.{rule_of};
ghost use Rattle.zq_journal.specs.Books.{opened};
ghost use Rattle.zq_journal.specs.Limits.{limits_of};
ghost use Rattle.zq_model.specs.Books.{Book as Books};
ghost use Rattle.zq_model.specs.Rule.{Greatest};
ghost use Rattle.zq_model.specs.Sets.{IsHeaps};
ghost use Rattle.zq_spread.specs.Makers.{AreEmptyBooks, AreEmptyWithin, AreOfHeaps, IsInBounds, IsMade};

use crate::faults::SiteFault;
use crate::pass::Pass;
use crate::site::Site;
use crate::site_builder::SiteBuilder;
use std::alloc::{AllocError, Global};
use zq_dots::{Rule, SiteNo};
use zq_journal::{Book, TailLimits};
use zq_posheap::Seeded;
use zq_shard::Shard;

const LEAST_HEAPS: usize = 2;

const MOST_HEAPS: usize = 16;

const MOST_PASSES: usize = 128;

/// Whether a site may have so many heaps and passes.
fn are_in_bounds(heaps: usize, passes: usize) -> bool
    ensures { IsTrue result ↔ IsInBounds heaps passes }
{
    LEAST_HEAPS <= heaps && heaps <= MOST_HEAPS && 1 <= passes && passes <= MOST_PASSES
}

/// The books of so many heaps in which nothing was done, whose tails have these limits.
fn empty_books(
    alloc: Global,
    heaps: u8,
    rule: Rule,
    hasher: Seeded,
    limits: TailLimits,
) -> Result<Vec<Book>, AllocError>
    requires heaps { IsHeaps heaps }
    ensures { IfOk result
        (λ books. AreEmptyWithin (limits_of limits) heaps (rule_of rule) books.items) }
{
    let mut books = Vec::new(alloc);
    for heap in 0..heaps {
        let shard = Shard::new_ruled(alloc, heap, heaps, rule, hasher);
        let book = empty_book(alloc, shard, limits);
        books.push(book)?;
    }
    Ok(books)
}

/// The book of this heap, with no records, whose tail has these limits.
fn empty_book(alloc: Global, shard: Shard, limits: TailLimits) -> Book
    ensures { result ≡ record (opened shard 0 0) { limits = limits_of limits } }
{
    let mut book = Book::new(alloc, shard);
    book.set_limits(limits);
    book
}

impl Site {
    /// A site of this number that has done nothing, of 2 to 16 heaps, with 1 to 128 passes. A score
    /// is the greatest of the values. Keys and members are hashed from a fixed seed: where
    /// strangers choose them, take [`Site::new_ruled`] and a seed that they do not know.
    ///
    /// `Bounds` where the number of heaps or of passes is another. Else `NoMemory` where memory was
    /// refused.
    pub fn new(
        alloc: Global,
        number: SiteNo,
        heaps: u8,
        passes: usize,
    ) -> Result<(Site, Vec<Pass>), SiteFault>
        ensures bounds { IsErrOf result SiteFault.Bounds ↔ (IsInBounds heaps passes → ⊥) }
        ensures made { IfOk result (λ made. (books : List Books)
            × AreEmptyBooks heaps Greatest books × IsMade number books passes made.0 made.1.items) }
    {
        Site::new_ruled(alloc, number, heaps, passes, Rule::High, Seeded::new(0))
    }

    /// The same, with scores by the rule. Keys and members are placed by the hasher.
    pub fn new_ruled(
        alloc: Global,
        number: SiteNo,
        heaps: u8,
        passes: usize,
        rule: Rule,
        hasher: Seeded,
    ) -> Result<(Site, Vec<Pass>), SiteFault>
        ensures bounds { IsErrOf result SiteFault.Bounds ↔ (IsInBounds heaps passes → ⊥) }
        ensures made { IfOk result (λ made. (books : List Books)
            × AreEmptyBooks heaps (rule_of rule) books
            × IsMade number books passes made.0 made.1.items) }
    {
        let limits = TailLimits::standard();
        Site::new_within(alloc, number, heaps, passes, rule, hasher, limits)
    }

    /// The same, with these limits for the tails of its heaps, in place of the standard ones. They
    /// decide what is cut from a tail, and so how much a peer may lack that is told the operations
    /// one by one.
    pub fn new_within(
        alloc: Global,
        number: SiteNo,
        heaps: u8,
        passes: usize,
        rule: Rule,
        hasher: Seeded,
        limits: TailLimits,
    ) -> Result<(Site, Vec<Pass>), SiteFault>
        ensures bounds { IsErrOf result SiteFault.Bounds ↔ (IsInBounds heaps passes → ⊥) }
        ensures made { IfOk result (λ made. (books : List Books)
            × AreEmptyWithin (limits_of limits) heaps (rule_of rule) books
            × IsMade number books passes made.0 made.1.items) }
    {
        if !are_in_bounds(usize::from(heaps), passes) {
            return Err(SiteFault::Bounds);
        }
        let Ok(books) = empty_books(alloc, heaps, rule, hasher, limits) else {
            return Err(SiteFault::NoMemory);
        };
        match Site::of_books(alloc, number, books, passes) {
            Ok(made) => Ok(made),
            Err((fault, _)) => Err(fault),
        }
    }

    /// A site of this number over these books, 2 to 16, with 1 to 128 passes. Each book is that of
    /// the heap of its place, and all have one rule. The counts that they have are those that the
    /// site's tally begins with.
    ///
    /// `Bounds` where the number of books or of passes is another. Else `NoMemory` where memory was
    /// refused. Both give the books back.
    pub fn of_books(
        alloc: Global,
        number: SiteNo,
        books: Vec<Book>,
        passes: usize,
    ) -> Result<(Site, Vec<Pass>), (SiteFault, Vec<Book>)>
        requires books { AreOfHeaps books.items }
        ensures bounds { IsErrAnd result (λ e. e.0 ≡ SiteFault.Bounds)
            ↔ (IsInBounds (length books.items) passes → ⊥) }
        ensures back { IfErr result (λ e. e.1.items ≡ books.items) }
        ensures made { IfOk result (λ made. IsMade number books.items passes made.0 made.1.items) }
    {
        if !are_in_bounds(books.len(), passes) {
            return Err((SiteFault::Bounds, books));
        }
        let rule = books[0].shard().rule();
        let Ok(builder) = SiteBuilder::new(alloc, books.len() as u8, passes, rule) else {
            return Err((SiteFault::NoMemory, books));
        };
        let (slots, passes) = builder.build(books);
        let site = Site {
            number,
            rule,
            slots,
        };
        Ok((site, passes))
    }
}
