//! How a book records what its site makes and takes.
ghost use Rattle.std.specs.Prelude.{◌≡◌, ◌≢◌, ◌≤◌, ◌<◌, ◌+◌, ◌↔◌, ◌⊎◌, ◌++◌, ◌∷◌, [], IfOk, IsErrOf, List, OnErr, OnOk, is_some, length, slice_index, true, ℕ};
ghost use Rattle.std.specs.FinMap.{get};
ghost use Rattle.zq_dots.specs.Act.{act_of};
ghost use Rattle.zq_dots.specs.Placed.{IsRanged, LONGEST, renamed};
ghost use Rattle.zq_model.specs.Books.{Book as Books, Made, Step, Took, is_change_over, recorded};
ghost use Rattle.zq_model.specs.Reach.{IsWorked};
ghost use Rattle.zq_journal.specs.Books.{LAST_STAMP, book_taken, state_of, step_of, steps_taken};
ghost use Rattle.zq_journal.specs.Records.{IsRecordable, change_of, placed_in, whole};
ghost use Rattle.zq_model.specs.Heaps as place;
ghost use Rattle.zq_model.specs.Image.{place_of};
ghost use Rattle.zq_model.specs.Operation.{Act as ModelAct, IsAct};
ghost use Rattle.zq_model.specs.Sets as sets;
ghost use Rattle.zq_shard.specs.Shard.{IsOfHeap, next_operation};
ghost use Rattle.zq_shard.specs.Taken.{answer_of};

use crate::book::{Book, LAST_COUNT};
use crate::faults::TakeFault;
use crate::names::Names;
use crate::own::Own;
use crate::records::{Change, Record};
use std::alloc::{AllocError, Global};
use zq_dots::{Act, Dot, Op, SiteNo, heap_of};
use zq_model::{keeping, undoing, working};
use zq_shard::{MakeFault, Taken};

impl Book {
    /// Makes the next operation of a site and takes it, with a record, whose operation
    /// [`Book::newest`] then answers. The stamp is no less than the book's. It answers whether the
    /// member stood before.
    ///
    /// `WrongHeap` where the member lies in another heap, else `Worn` where the site's counter or
    /// the book's count is at its last value, else `NoMemory` where a growth was refused; after
    /// each nothing has changed.
    pub fn make(
        &mut self,
        alloc: Global,
        site: SiteNo,
        stamp: u64,
        key: &[u8],
        member: &[u8],
        act: Act,
    ) -> Result<bool, MakeFault>
        requires stamp { self.old.stamp ≤ stamp }
        requires bounded { stamp ≤ LAST_STAMP }
        requires key { length key.now ≤ LONGEST }
        requires member { length member.now ≤ LONGEST }
        ensures stood { IfOk result
            (λ stood. stood ≡ is_some (get self.old.state.members (key.now, member.now))) }
        ensures wrong_heap { IsErrOf result MakeFault.WrongHeap
            ↔ (place.heap_of key.now member.now self.old.heaps ≢ self.old.heap) }
        ensures worn { IsErrOf result MakeFault.Worn
            ↔ ((place.heap_of key.now member.now self.old.heaps ≡ self.old.heap)
            × ((slice_index self.old.state.vector site ≡ sets.LAST)
            ⊎ (self.old.count ≡ LAST_STAMP))) }
        ensures recorded { OnOk result
            (self.new ≡ recorded self.old stamp
            (Made (next_operation (state_of self.old) site key.now member.now
            (act_of act)).operation)) }
        ensures worked { OnOk result ((a : Books) (steps : List Step) →
            IsWorked self.old a stamp steps →
            IsWorked self.new a stamp
            (steps ++ step_of stamp
            (Made (next_operation (state_of self.old) site key.now member.now
            (act_of act)).operation) ∷ [])) }
        ensures refused { OnErr result (self.new ≡ self.old) }
    {
        if heap_of(key, member, self.shard.heaps()) != self.shard.heap() {
            return Err(MakeFault::WrongHeap);
        }
        self.make_here(alloc, site, stamp, key, member, act)
    }

    /// The same of a member that lies in this heap, which its caller knows: it hashes nothing.
    ///
    /// `Worn` where the site's counter or the book's count is at its last value, else `NoMemory`
    /// where a growth was refused; after each nothing has changed.
    pub fn make_here(
        &mut self,
        alloc: Global,
        site: SiteNo,
        stamp: u64,
        key: &[u8],
        member: &[u8],
        act: Act,
    ) -> Result<bool, MakeFault>
        requires home { place.heap_of key.now member.now self.old.heaps ≡ self.old.heap }
        requires stamp { self.old.stamp ≤ stamp }
        requires bounded { stamp ≤ LAST_STAMP }
        requires key { length key.now ≤ LONGEST }
        requires member { length member.now ≤ LONGEST }
        ensures stood { IfOk result
            (λ stood. stood ≡ is_some (get self.old.state.members (key.now, member.now))) }
        ensures here { IsErrOf result MakeFault.WrongHeap → ⊥ }
        ensures worn { IsErrOf result MakeFault.Worn
            ↔ ((slice_index self.old.state.vector site ≡ sets.LAST)
            ⊎ (self.old.count ≡ LAST_STAMP)) }
        ensures recorded { OnOk result
            (self.new ≡ recorded self.old stamp
            (Made (next_operation (state_of self.old) site key.now member.now
            (act_of act)).operation)) }
        ensures worked { OnOk result ((a : Books) (steps : List Step) →
            IsWorked self.old a stamp steps →
            IsWorked self.new a stamp
            (steps ++ step_of stamp
            (Made (next_operation (state_of self.old) site key.now member.now
            (act_of act)).operation) ∷ [])) }
        ensures refused { OnErr result (self.new ≡ self.old) }
    {
        within(&act);
        let dot = self.next_here(site)?;
        let what = Change::Made(Own {
            dot,
            names: Names::copied(alloc, key, member)?,
            act,
        });
        Ok(self.enter(alloc, stamp, key, member, what)?)
    }

    /// Takes an operation of another site where it is New, with a record; what is Known or Early
    /// changes nothing. The stamp is no less than the book's.
    ///
    /// `WrongHeap` where the heap, the number of heaps or the member's hash is another. A New one
    /// is refused with `Worn` where the book's count is at its last value, else with `NoMemory`
    /// where a growth was refused; after each nothing has changed.
    #[tactic(auto, unfolding(crate::specs::Books::LAST_STAMP))]
    pub fn take(&mut self, alloc: Global, stamp: u64, op: &Op) -> Result<Taken, TakeFault>
        requires stamp { self.old.stamp ≤ stamp }
        requires bounded { stamp ≤ LAST_STAMP }
        ensures judged { IfOk result
            (λ taken. answer_of taken ≡ sets.taken_of self.old.state.vector op.now.operation) }
        ensures wrong_heap { IsErrOf result TakeFault.WrongHeap
            ↔ (IsOfHeap (state_of self.old) op.now → ⊥) }
        ensures placed { OnOk result (IsOfHeap (state_of self.old) op.now) }
        ensures worn { IsErrOf result TakeFault.Worn
            ↔ (IsOfHeap (state_of self.old) op.now
            × (sets.taken_of self.old.state.vector op.now.operation ≡ sets.New)
            × (self.old.count ≡ LAST_STAMP)) }
        ensures no_memory { IsErrOf result TakeFault.NoMemory →
            sets.taken_of self.old.state.vector op.now.operation ≡ sets.New }
        ensures book { OnOk result (self.new ≡ book_taken self.old stamp op.now.operation) }
        ensures worked { OnOk result ((a : Books) (steps : List Step) →
            IsWorked self.old a stamp steps →
            IsWorked self.new a stamp (steps ++ steps_taken self.old stamp op.now.operation)) }
        ensures refused { OnErr result (self.new ≡ self.old) }
    {
        let Ok(taken) = self.shard.judge(op) else {
            return Err(TakeFault::WrongHeap);
        };
        if taken != Taken::New {
            return Ok(taken);
        }
        if self.count == LAST_COUNT {
            return Err(TakeFault::Worn);
        }
        let copy = boxed(alloc, op)?;
        self.enter(alloc, stamp, op.key(), op.member(), Change::Took(copy))?;
        Ok(taken)
    }

    /// Takes an operation of another site as [`Book::take`] does, but copies nothing: where it is
    /// New its key and its member go into the record, and both are empty in the operation that is
    /// left. What is Known or Early is left as it was.
    ///
    /// `WrongHeap` where the heap, the number of heaps or the member's hash is another. A New one
    /// is refused with `Worn` where the book's count is at its last value, else with `NoMemory`
    /// where a growth was refused; after each nothing has changed, and the operation is as it was.
    #[tactic(auto, unfolding(crate::specs::Books::LAST_STAMP))]
    pub fn take_from(&mut self, alloc: Global, stamp: u64, op: &mut Op) -> Result<Taken, TakeFault>
        requires stamp { self.old.stamp ≤ stamp }
        requires bounded { stamp ≤ LAST_STAMP }
        ensures judged { IfOk result
            (λ taken. answer_of taken ≡ sets.taken_of self.old.state.vector op.old.operation) }
        ensures wrong_heap { IsErrOf result TakeFault.WrongHeap
            ↔ (IsOfHeap (state_of self.old) op.old → ⊥) }
        ensures placed { OnOk result (IsOfHeap (state_of self.old) op.old) }
        ensures worn { IsErrOf result TakeFault.Worn
            ↔ (IsOfHeap (state_of self.old) op.old
            × (sets.taken_of self.old.state.vector op.old.operation ≡ sets.New)
            × (self.old.count ≡ LAST_STAMP)) }
        ensures no_memory { IsErrOf result TakeFault.NoMemory →
            sets.taken_of self.old.state.vector op.old.operation ≡ sets.New }
        ensures book { OnOk result (self.new ≡ book_taken self.old stamp op.old.operation) }
        ensures worked { OnOk result ((a : Books) (steps : List Step) →
            IsWorked self.old a stamp steps →
            IsWorked self.new a stamp (steps ++ steps_taken self.old stamp op.old.operation)) }
        ensures handed_over { OnOk result
            (sets.taken_of self.old.state.vector op.old.operation ≡ sets.New →
            op.new ≡ renamed op.old [] []) }
        ensures left { OnOk result
            (sets.taken_of self.old.state.vector op.old.operation ≢ sets.New → op.new ≡ op.old) }
        ensures refused { OnErr result (self.new ≡ self.old) }
        ensures kept { OnErr result (op.new ≡ op.old) }
    {
        let Ok(taken) = self.shard.judge(op) else {
            return Err(TakeFault::WrongHeap);
        };
        if taken != Taken::New {
            return Ok(taken);
        }
        if self.count == LAST_COUNT {
            return Err(TakeFault::Worn);
        }
        self.enter_from(alloc, stamp, op)?;
        Ok(taken)
    }

    /// The dot of the next operation of a site, where a record of it can be counted.
    #[tactic(auto, unfolding(crate::specs::Books::LAST_STAMP))]
    fn next_here(&self, site: SiteNo) -> Result<Dot, MakeFault>
        ensures here { IsErrOf result MakeFault.WrongHeap → ⊥ }
        ensures memory { IsErrOf result MakeFault.NoMemory → ⊥ }
        ensures worn { IsErrOf result MakeFault.Worn
            ↔ ((slice_index self.now.state.vector site ≡ sets.LAST)
            ⊎ (self.now.count ≡ LAST_STAMP)) }
        ensures site { IfOk result (λ dot. dot.site ≡ site) }
        ensures next { IfOk result (λ dot. dot.n ≡ slice_index self.now.state.vector site + 1) }
        ensures bounded { IfOk result (λ dot. dot.n ≤ sets.LAST) }
        ensures sound { OnOk result ((key member : List ℕ) (act : ModelAct) → length key ≤ LONGEST →
            length member ≤ LONGEST → IsAct act →
            IsRanged (next_operation (state_of self.now) site key member act)) }
        ensures room { OnOk result (self.now.count < LAST_STAMP) }
    {
        if self.count == LAST_COUNT {
            return Err(MakeFault::Worn);
        }
        self.shard.next_here(site)
    }

    /// Takes an operation of this key and this member that is new to the state, with a record at
    /// this stamp, and answers whether its member stood before.
    #[tactic(auto, unfolding(crate::specs::Books::LAST_STAMP))]
    #[inline(always)]
    fn enter(
        &mut self,
        alloc: Global,
        at: u64,
        key: &[u8],
        member: &[u8],
        what: Change,
    ) -> Result<bool, AllocError>
        requires stamp { self.old.stamp ≤ at }
        requires bounded { at ≤ LAST_STAMP }
        requires count { self.old.count < LAST_STAMP }
        requires key { key.now
            ≡ (placed_in (whole self.old.heap self.old.heaps self.old.state.vector
            what)).operation.key }
        requires member { member.now
            ≡ (placed_in (whole self.old.heap self.old.heaps self.old.state.vector
            what)).operation.member }
        requires recordable { IsRecordable self.old.heap self.old.heaps
            (placed_in (whole self.old.heap self.old.heaps self.old.state.vector what)) }
        requires over { is_change_over self.old.heaps self.old.heap self.old.state.vector
            (change_of (whole self.old.heap self.old.heaps self.old.state.vector what)) ≡ true }
        ensures stood { IfOk result
            (λ stood. stood ≡ is_some
            (get self.old.state.members
            (place_of (placed_in (whole self.old.heap self.old.heaps self.old.state.vector
            what)).operation))) }
        ensures recorded { OnOk result
            (self.new ≡ recorded self.old at
            (change_of (whole self.old.heap self.old.heaps self.old.state.vector what))) }
        ensures worked { OnOk result ((a : Books) (steps : List Step) →
            IsWorked self.old a at steps →
            IsWorked self.new a at
            (steps ++ step_of at (change_of
            (whole self.old.heap self.old.heaps self.old.state.vector what)) ∷ [])) }
        ensures refused { OnErr result (self.new ≡ self.old) }
    {
        // For the proof: a record of what is new keeps what a book keeps.
        keeping();
        // For the proof: it leaves the base as it was.
        undoing();
        // For the proof: it goes on with a call's work.
        working();
        self.tail.reserve(1)?;
        let before = what.put_in(alloc, &mut self.shard, key, member)?;
        let stood = before.is_some();
        self.tail.push_back_reserved(Record {
            stamp: at,
            what,
            before,
        });
        self.bytes += (key.len() + member.len()) as u128;
        self.stamp = at;
        self.count += 1;
        Ok(stood)
    }

    /// Takes an operation of this heap that is new to the state, with a record at this stamp to
    /// which its key and its member go. Where memory is short nothing changes.
    #[tactic(auto, unfolding(crate::specs::Books::LAST_STAMP))]
    fn enter_from(&mut self, alloc: Global, at: u64, op: &mut Op) -> Result<(), AllocError>
        requires stamp { self.old.stamp ≤ at }
        requires bounded { at ≤ LAST_STAMP }
        requires count { self.old.count < LAST_STAMP }
        requires placed { IsOfHeap (state_of self.old) op.old }
        requires new { sets.taken_of self.old.state.vector op.old.operation ≡ sets.New }
        ensures recorded { OnOk result
            (self.new ≡ recorded self.old at (Took op.old.operation)) }
        ensures worked { OnOk result ((a : Books) (steps : List Step) →
            IsWorked self.old a at steps →
            IsWorked self.new a at (steps ++ step_of at (Took op.old.operation) ∷ [])) }
        ensures handed_over { OnOk result (op.new ≡ renamed op.old [] []) }
        ensures refused { OnErr result (self.new ≡ self.old) }
        ensures kept { OnErr result (op.new ≡ op.old) }
    {
        // For the proof: a record of what is new keeps what a book keeps.
        keeping();
        // For the proof: it leaves the base as it was.
        undoing();
        // For the proof: it goes on with a call's work.
        working();
        let mut own = Box::new(alloc, op.bare(alloc))?;
        self.tail.reserve(1)?;
        let before = self.shard.put_in(alloc, op)?;
        own.swap_names(op);
        let bytes = (own.key().len() + own.member().len()) as u128;
        self.tail.push_back_reserved(Record {
            stamp: at,
            what: Change::Took(own),
            before,
        });
        self.bytes += bytes;
        self.stamp = at;
        self.count += 1;
        Ok(())
    }
}

/// What the type of an act keeps of its number.
fn within(act: &Act)
    ensures { IsAct (act_of act.now) }
{
    match act {
        Act::Put(score) | Act::Bump(score) => {
            // For the proof: the type of a score keeps its range.
            let _value = score.value();
        }
        Act::Drop => {}
    }
}

/// An equal operation in a box.
fn boxed(alloc: Global, op: &Op) -> Result<Box<Op>, AllocError>
    ensures same { IfOk result (λ copy. copy.value ≡ op.now) }
    ensures sound { IfOk result (λ copy. IsRanged copy.value) }
{
    let copy = op.copy(alloc)?;
    Ok(Box::new(alloc, copy)?)
}
