//! How a command sees the books that are lent to it.

ghost use Rattle.std.specs.FinMap.{get};
ghost use Rattle.std.specs.Prelude.{IfOk, IsErrOf, List, OnErr, OnOk, Some, count_by, is_some, length, map, option_map, slice_get, slice_range, ◌<◌, ◌^◌, ◌∷◌, ◌≡◌, ◌≤◌, [], ℕ, true};
ghost use Rattle.zq_commands.specs.Lending.{HasBook, IsDated, IsLending, Lending, lent_after};
ghost use Rattle.zq_commands.specs.FirstPairs.{lent_pair};
ghost use Rattle.zq_dots.specs.Act.{act_of};
ghost use Rattle.zq_journal.specs.Books.{state_of};
ghost use Rattle.zq_model.specs.Books.{Book};
ghost use Rattle.zq_model.specs.Image.{entry_at};
ghost use Rattle.zq_model.specs.Operation.{LONGEST};
ghost use Rattle.zq_model.specs.Score.{score_of};
ghost use Rattle.zq_model.specs.Lent.{is_home_of, queues_of};
ghost use Rattle.zq_model.specs.Moves.{Move};
ghost use Rattle.zq_model.specs.Readings.{is_before};
ghost use Rattle.zq_semantics.specs.Ranges.{is_within, turned_if};
ghost use Rattle.zq_semantics.specs.Run.{IsWhy, Number};

use crate::one_book::count_between;
use crate::stopped::Stopped;
use std::alloc::{AllocError, Global};
use zq_dots::{Act, SiteNo};
use zq_shard::Shard;
use zq_words::Bound;

/// The books of some heaps of a site, each at its place.
pub trait Books {
    /// The books, the rule and the number of heaps.
    ghost lent: { Self → Lending };

    /// What work leaves as it was, or leads on: what else a holder of the books has to know of
    /// them.
    ghost keeps: { Self → Self → Type 0 };

    /// How many.
    fn len(&self) -> usize
        ensures number { result ≡ length (lent self.now).books };

    /// The place of the book in whose heap a member of a key lies.
    fn home(&self, key: &[u8], member: &[u8]) -> usize
        requires lent { IsLending (lent self.now) }
        requires home { HasBook key.now member.now (lent self.now) }
        requires key { length key.now ≤ LONGEST }
        ensures inside { result < length (lent self.now).books }
        ensures home { (book : Book) → slice_get (lent self.now).books result ≡ Some book →
            is_home_of key.now member.now book ≡ true };

    /// The heap of the book at a place.
    fn shard(&self, place: usize) -> &Shard
        requires lent { IsLending (lent self.now) }
        requires inside { place < length (lent self.now).books }
        ensures { (book : Book) → slice_get (lent self.now).books place ≡ Some book →
            result.now ≡ record (state_of book) { rule = (lent self.now).rule } };

    /// The score of a member of a key in the book at a place, and `None` where it does not stand
    /// there.
    fn score(&self, place: usize, key: &[u8], member: &[u8]) -> Option<i128>
        requires lent { IsLending (lent self.now) }
        requires inside { place < length (lent self.now).books }
        ensures { (book : Book) → slice_get (lent self.now).books place ≡ Some book →
            result ≡ score_of (lent self.now).rule
            (entry_at book.state.members (key.now, member.now)) }
    {
        self.shard(place).score(key, member)
    }

    /// The number of members of a key in the book at a place.
    fn count(&self, place: usize, key: &[u8]) -> usize
        requires lent { IsLending (lent self.now) }
        requires inside { place < length (lent self.now).books }
        ensures { (book : Book) → slice_get (lent self.now).books place ≡ Some book →
            result ≡ length (queues_of (lent self.now).rule (book ∷ []) key.now) }
    {
        self.shard(place).count(key)
    }

    /// How many pairs of a key in the book at a place go before this one, which need not stand
    /// there.
    fn count_before(&self, place: usize, key: &[u8], score: &i128, member: &[u8]) -> usize
        requires lent { IsLending (lent self.now) }
        requires inside { place < length (lent self.now).books }
        ensures { (book : Book) → slice_get (lent self.now).books place ≡ Some book →
            result ≡ count_by (λ pair. is_before pair (score.now, member.now))
            (queues_of (lent self.now).rule (book ∷ []) key.now) }
    {
        self.shard(place).count_before(key, *score, member)
    }

    /// How many go after it.
    fn count_after(&self, place: usize, key: &[u8], score: &i128, member: &[u8]) -> usize
        requires lent { IsLending (lent self.now) }
        requires inside { place < length (lent self.now).books }
        ensures { (book : Book) → slice_get (lent self.now).books place ≡ Some book →
            result ≡ count_by (λ pair. is_before (score.now, member.now) pair)
            (queues_of (lent self.now).rule (book ∷ []) key.now) }
    {
        self.shard(place).count_after(key, *score, member)
    }

    /// How many pairs of a key in the book at a place have a score within these bounds.
    fn count_within(&self, place: usize, key: &[u8], min: &Bound, max: &Bound) -> usize
        requires lent { IsLending (lent self.now) }
        requires inside { place < length (lent self.now).books }
        ensures { (book : Book) → slice_get (lent self.now).books place ≡ Some book →
            result ≡ count_by (is_within min.now max.now)
            (queues_of (lent self.now).rule (book ∷ []) key.now) }
    {
        count_between(self.shard(place), key, min, max)
    }

    /// The first pair of a key in the book at a place.
    fn top(&self, place: usize, key: &[u8]) -> Option<(i128, &[u8])>
        requires lent { IsLending (lent self.now) }
        requires inside { place < length (lent self.now).books }
        ensures { (book : Book) → slice_get (lent self.now).books place ≡ Some book →
            option_map lent_pair result
            ≡ slice_get (queues_of (lent self.now).rule (book ∷ []) key.now) 0 }
    {
        self.shard(place).top(key)
    }

    /// The pairs of a key in the book at a place, in order or turned round, from one place of
    /// theirs on and before another; places count from 0.
    fn slice(
        &self,
        alloc: Global,
        place: usize,
        key: &[u8],
        is_turned: bool,
        from: usize,
        to: usize,
    ) -> Result<Vec<(i128, &[u8])>, AllocError>
        requires lent { IsLending (lent self.now) }
        requires inside { place < length (lent self.now).books }
        ensures { (book : Book) → slice_get (lent self.now).books place ≡ Some book →
            IfOk result (λ pairs.
            map lent_pair pairs.items
            ≡ slice_range (turned_if is_turned
            (queues_of (lent self.now).rule (book ∷ []) key.now)) from to) }
    {
        let shard = self.shard(place);
        if is_turned {
            shard.slice_turned(alloc, key, from, to)
        } else {
            shard.slice(alloc, key, from, to)
        }
    }

    /// Makes an ordered index of a key's members in the book at a place, where it has none and
    /// readings in order would look at many members. The books stay as they are. Where memory is
    /// refused there is none.
    fn index(&mut self, alloc: Global, place: usize, key: &[u8])
        requires lent { IsLending (lent self.old) }
        requires inside { place < length (lent self.old).books }
        ensures same { lent self.new ≡ lent self.old }
        ensures keeps { keeps self.old self.new };

    /// Makes a site's next operation of an act in the book at a place, which is that of the
    /// member's heap, and answers whether the member stood before.
    fn make(
        &mut self,
        alloc: Global,
        place: usize,
        site: SiteNo,
        stamp: u64,
        key: &[u8],
        member: &[u8],
        act: Act,
    ) -> Result<bool, Stopped>
        requires inside { place < length (lent self.old).books }
        requires home { (book : Book) → slice_get (lent self.old).books place ≡ Some book →
            is_home_of key.now member.now book ≡ true }
        requires lent { IsLending (lent self.old) }
        requires dated { IsDated stamp (lent self.old) }
        requires key { length key.now ≤ LONGEST }
        requires member { length member.now ≤ LONGEST }
        ensures made { OnOk result
            (lent self.new ≡ lent_after site stamp
            (record { key = key.now; member = member.now; act = act_of act }) (lent self.old)) }
        ensures stood { IfOk result (λ stood. (book : Book) →
            slice_get (lent self.old).books place ≡ Some book →
            stood ≡ is_some (get book.state.members (key.now, member.now))) }
        ensures refused { OnErr result (lent self.new ≡ lent self.old) }
        ensures worn { IsErrOf result Stopped.Worn →
            IsWhy site (Some (record { key = key.now; member = member.now; act = act_of act }))
            (lent self.old).books Number }
        ensures memory { IsErrOf result Stopped.NoMemory →
            IsWhy site (Some (record { key = key.now; member = member.now; act = act_of act }))
            (lent self.old).books Number → ⊥ }
        ensures lent { IsLending (lent self.new) }
        ensures dated { IsDated stamp (lent self.new) }
        ensures keeps { keeps self.old self.new };

    /// Work that does nothing keeps it.
    ghost keeps_itself: { (x : Self) → keeps x x };

    /// And so does work after work.
    ghost keeps_through: { (x y z : Self) → keeps x y → keeps y z → keeps x z };
}
