//! The books of a site, with a list of the operations that are made in them.

ghost use Rattle.std.specs.FinMap.{get};
ghost use Rattle.std.specs.Prelude.{IfOk, IsErrOf, OnErr, OnOk, [], is_some, length, true, ◌++◌, ◌↔◌, ◌∷◌, ◌≡◌, ◌≤◌};
ghost use Rattle.zq_dots.specs.Act.{act_of};
ghost use Rattle.zq_model.specs.Bounded.{IsBounded};
ghost use Rattle.zq_model.specs.Operation.{LONGEST};
ghost use Rattle.zq_model.specs.Lent.{is_home_of, made_in};
ghost use Rattle.zq_semantics.specs.Run.{LAST_COUNT, is_worn};
ghost use Rattle.zq_world.specs.Told.{told_in};

use std::alloc::Global;
use zq_commands::{Books, Stopped};
use zq_dots::{Act, Op, SiteNo};
use zq_journal::Book;
use zq_shard::{MakeFault, Shard};

/// Books of a site, with the operations that were made, the oldest first.
#[derive(Drop)]
pub(crate) struct Holder {
    pub(crate) books: Vec<Book>,
    pub(crate) made: Vec<Op>,
}

impl Books for Holder {
    ghost use Rattle.zq_world.specs.Told.{KeepsHeaps, lending_told};

    ghost lent = { λ holder. lending_told holder.books.items holder.made.items };

    ghost keeps = { λ old new.
        KeepsHeaps old.books.items old.made.items new.books.items new.made.items };

    fn len(&self) -> usize {
        self.books.as_slice().len()
    }

    fn home(&self, key: &[u8], member: &[u8]) -> usize {
        self.books.home(key, member)
    }

    fn shard(&self, place: usize) -> &Shard {
        self.books.shard(place)
    }

    fn index(&mut self, alloc: Global, place: usize, key: &[u8]) {
        self.books.index(alloc, place, key);
    }

    fn make(
        &mut self,
        alloc: Global,
        place: usize,
        site: SiteNo,
        stamp: u64,
        key: &[u8],
        member: &[u8],
        act: Act,
    ) -> Result<bool, Stopped> {
        make_in(
            &mut self.books[place],
            &mut self.made,
            alloc,
            site,
            stamp,
            key,
            member,
            act,
        )
    }

    ghost keeps_itself = { λ holder. λ K heaps are. (heaps, are) };

    ghost keeps_through = { λ x y z first second. λ K heaps are.
        second K (first K heaps are).0 (first K heaps are).1 };
}

/// Makes a site's next operation of an act in the book of its heap, and lists it. It answers
/// whether the member stood before. Nothing has changed after an error.
fn make_in(
    book: &mut Book,
    made: &mut Vec<Op>,
    alloc: Global,
    site: SiteNo,
    stamp: u64,
    key: &[u8],
    member: &[u8],
    act: Act,
) -> Result<bool, Stopped>
    requires home { is_home_of key.now member.now book.old ≡ true }
    requires stamp { book.old.stamp ≤ stamp }
    requires bounded { stamp ≤ LAST_COUNT }
    requires key { length key.now ≤ LONGEST }
    requires member { length member.now ≤ LONGEST }
    ensures made { OnOk result
        (book.new ≡ made_in site stamp
        (record { key = key.now; member = member.now; act = act_of act }) book.old) }
    ensures listed { OnOk result
        (made.new.items ≡ made.old.items ++ told_in site
        (record { key = key.now; member = member.now; act = act_of act }) book.old ∷ []) }
    ensures stood { IfOk result
        (λ stood. stood ≡ is_some (get book.old.state.members (key.now, member.now))) }
    ensures bounded { OnOk result (IsBounded book.new.heaps book.new.heap book.new.state) }
    ensures worn { IsErrOf result Stopped.Worn ↔ (is_worn site book.old ≡ true) }
    ensures refused { OnErr result (book.new ≡ book.old) }
    ensures unlisted { OnErr result (made.new.items ≡ made.old.items) }
{
    let drafted = act;
    let op = draft_in(book, alloc, site, key, member, drafted)?;
    if made.reserve(1).is_err() {
        drop(op);
        return Err(Stopped::NoMemory);
    }
    let Ok(stood) = book.make(alloc, site, stamp, key, member, act) else {
        drop(op);
        return Err(Stopped::NoMemory);
    };
    // For the proof: what a book says of its bounds.
    let _vector = book.shard().vector();
    made.push_reserved(op);
    Ok(stood)
}

/// The next operation of a site in the book of its heap, which is not yet made.
fn draft_in(
    book: &Book,
    alloc: Global,
    site: SiteNo,
    key: &[u8],
    member: &[u8],
    act: Act,
) -> Result<Op, Stopped>
    requires home { is_home_of key.now member.now book.now ≡ true }
    requires key { length key.now ≤ LONGEST }
    requires member { length member.now ≤ LONGEST }
    ensures drafted { IfOk result
        (λ op. op ≡ told_in site (record { key = key.now; member = member.now; act = act_of act })
        book.now) }
    ensures worn { IsErrOf result Stopped.Worn ↔ (is_worn site book.now ≡ true) }
{
    if book.count() == zq_journal::LAST_COUNT {
        return Err(Stopped::Worn);
    }
    match book.shard().draft(alloc, site, key, member, act) {
        Ok(op) => Ok(op),
        Err(MakeFault::Worn) => Err(Stopped::Worn),
        Err(MakeFault::NoMemory) => Err(Stopped::NoMemory),
        Err(MakeFault::WrongHeap) => unreachable!(),
    }
}
