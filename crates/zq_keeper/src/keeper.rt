//! A keeper: its type, how it begins, and what it tells.

ghost use Rattle.std.specs.Prelude.{IfErr, IfOk, List, OnOk, None, Some, false, length, slice_index, true, ◌≡◌, ℕ};
ghost use Rattle.zq_keeper.specs.Keeper.{IsKeeper, Leaves, has_stayed, is_ahead_of, told_of};
ghost use Rattle.zq_keeper.specs.Outline.{outlines_of as outlines};
ghost use Rattle.zq_keeper.specs.Read.{HasRead};
ghost use Rattle.zq_model.specs.Sets.{covers as has_all};
ghost use Rattle.zq_wal.specs.Disk.{LeavesOnly};
ghost use Rattle.zq_wal.specs.Format.{recovered};
ghost use Rattle.zq_wal.specs.Wal.{IsLog};

use crate::fault::KeeperFault;
use crate::next::Next;
use crate::outline::{Outline, are_whole, outlines_of};
use crate::reader::Reader;
use crate::size::Size;
use std::alloc::Global;
use zq_dots::Vector;
use zq_entries::Start;
use zq_recovery::{Identity, Refusal};
use zq_wal::{Disk, Wal, synced_stays};

/// The one writer of a site's log. All records of its log are synced, before and after each call.
///
/// Its fields are what a caller may read; they are changed through the calls alone.
#[derive(Drop)]
pub struct Keeper<D: Disk> {
    pub wal: Wal<D>,
    /// What the settings say of the site.
    pub identity: Identity,
    /// The last start in the log, and `None` before the first.
    pub start: Option<Start>,
    /// Whether the site was started: whether the last start is that of this keeper.
    pub begun: bool,
    /// What the log says of each heap.
    pub heaps: Vec<Outline>,
    /// The next file, where a switch is going on.
    pub next: Option<Next>,
    /// Whether nothing came behind the last Rest.
    pub rested: bool,
    /// Whether it has stopped.
    pub stopped: bool,
    /// How long the files are.
    pub size: Size,
}

/// What these outlines say of a heap, nothing where there is no such heap.
fn vector_of(outlines: &[Outline], heap: u8) -> Vector
    ensures { result ≡ told_of outlines.now heap }
{
    match outlines.get(heap as usize) {
        Some(outline) => outline.vector,
        None => Vector::new(),
    }
}

/// Whether these outlines have all operations of a heap that the others have.
fn covers(outlines: &[Outline], others: &[Outline], heap: u8) -> bool
    ensures { result ≡ has_all (told_of outlines.now heap) (told_of others.now heap) }
{
    vector_of(outlines, heap).covers(&vector_of(others, heap))
}

impl<D: Disk> Keeper<D> {
    /// The keeper of a log whose records this reader has read, and which has so many bytes. Nothing
    /// is written.
    ///
    /// `Refused(NotWhole)` where pieces of a heap are missing, `NoMemory`. An `Err` hands the log
    /// back.
    pub fn new(
        alloc: Global,
        wal: Wal<D>,
        reader: &Reader,
        length: u64,
    ) -> Result<Keeper<D>, (KeeperFault, Wal<D>)>
        requires log { IsLog D.seen D.staged D.may_leave wal }
        requires synced { wal.synced ≡ wal.count }
        requires read { HasRead (recovered (D.seen wal.disk)) reader.now }
        ensures keeper { IfOk result (IsKeeper D.seen D.staged D.may_leave) }
        ensures wal { IfOk result (λ k. k.wal ≡ wal) }
        ensures identity { IfOk result (λ k. k.identity ≡ reader.now.recovery.identity) }
        ensures start { IfOk result (λ k. k.start ≡ reader.now.recovery.start) }
        ensures heaps { IfOk result
            (λ k. k.heaps.items ≡ outlines reader.now.recovery.stages.items) }
        ensures fresh { IfOk result (λ k. (k.begun ≡ false) × (k.next ≡ None)
            × (k.rested ≡ false) × (k.stopped ≡ false)) }
        ensures back { IfErr result (λ e. e.1 ≡ wal) }
    {
        let Ok(heaps) = outlines_of(alloc, &reader.recovery.stages) else {
            return Err((KeeperFault::NoMemory, wal));
        };
        if !are_whole(&heaps) {
            return Err((KeeperFault::Refused(Refusal::NotWhole), wal));
        }
        Ok(Keeper {
            wal,
            identity: reader.recovery.identity,
            start: reader.recovery.start,
            begun: false,
            heaps,
            next: None,
            rested: false,
            stopped: false,
            size: Size::found(length),
        })
    }

    /// For the proofs: a crash before anything is written leaves the records that are there.
    pub(crate) fn stand(&self)
        ensures { IsKeeper D.seen D.staged D.may_leave self.now → (those : List (List ℕ)) →
            LeavesOnly D.moment D.left_since self.now.wal.disk self.now.wal.disk
            (Leaves self.now.identity self.now.heaps.items
            (recovered (D.seen self.now.wal.disk)) those) }
    {
        synced_stays();
    }

    /// The start of the site, where it takes a call that is no beginning.
    pub(crate) fn started(&self) -> Result<Start, KeeperFault>
        ensures going { OnOk result (self.now.stopped ≡ false) }
        ensures begun { OnOk result (self.now.begun ≡ true) }
        ensures start { IfOk result (λ s. self.now.start ≡ Some s) }
        ensures fault { IfErr result (λ e. has_stayed e ≡ true) }
    {
        if self.stopped {
            return Err(KeeperFault::Stopped);
        }
        match self.start {
            Some(start) if self.begun => Ok(start),
            _ => Err(KeeperFault::Refused(Refusal::NoStart)),
        }
    }

    /// The operations of a heap that are on the disk, none where the site has no such heap. From
    /// then on each crash leaves them.
    pub fn told(&self, heap: u8) -> Vector
        ensures { result ≡ told_of self.now.heaps.items heap }
    {
        vector_of(&self.heaps, heap)
    }

    /// Whether the next file has operations of a heap that the log lacks. Its operations go there
    /// alone, by `round_next`, until the switch is done.
    pub fn is_ahead(&self, heap: u8) -> bool
        ensures { result ≡ is_ahead_of self.now.heaps.items self.now.next heap }
    {
        match &self.next {
            Some(next) => !covers(&self.heaps, &next.heaps, heap),
            None => false,
        }
    }

    /// Up to which counter the site's own operations of a heap are on the disk.
    pub fn durable(&self, heap: u8) -> u64
        ensures { result ≡ slice_index (told_of self.now.heaps.items heap) self.now.identity.site }
    {
        self.told(heap).get(self.identity.site)
    }
}
