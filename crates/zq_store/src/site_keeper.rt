//! The keeper of a log on disk, with what always holds of one as the invariant of its type.

ghost use Rattle.std.specs.Prelude.{IfErr, ◌≡◌};
ghost use Rattle.zq_keeper.specs.Read.{HasRead};
ghost use Rattle.zq_model.specs.Sets.{IsHeaps};
ghost use Rattle.zq_wal.specs.Format.{recovered};
ghost use Rattle.zq_wal.specs.Wal.{IsLog};

use std::alloc::Global;
use std::marker::Model;
use zq_dots::SiteNo;
use zq_entries::{Batch, FOLDER, Start};
use zq_keeper::{Keeper, KeeperFault, Reader, Size};
use zq_links::Piece;
use zq_wal::{Behind, Disk, Wal};

/// The keeper of a site's log on disk: as long as it has not stopped all records of the log are
/// synced, and are read as what it tells. That is so of each one, so that who has one, or hands it
/// on, need not say it.
///
/// A contract sees the operations of each heap that it tells: of each site up to which one.
#[derive(Drop)]
pub(crate) struct SiteKeeper<D: Disk> {
    keeper: Keeper<D>,
}

impl<D: Disk> Model for SiteKeeper<D> {
    ghost use Rattle.std.specs.Prelude.{List, map, ℕ};
    ghost use Rattle.zq_keeper.specs.Keeper.{GoesOn};

    ghost Value = { List (List ℕ) };

    ghost view = { λ s. map (λ heap. heap.vector) s.keeper.heaps.items };

    ghost invariant = { λ s. GoesOn D.seen D.staged D.may_leave s.keeper };
}

impl<D: Disk> SiteKeeper<D> {
    /// The keeper of a log whose records this reader has read, and which has so many bytes.
    ///
    /// Faults as of `Keeper::new`, which hands the log back.
    pub(crate) fn new(
        alloc: Global,
        wal: Wal<D>,
        reader: &Reader,
        length: u64,
    ) -> Result<SiteKeeper<D>, (KeeperFault, Wal<D>)>
        requires log { IsLog D.seen D.staged D.may_leave wal }
        requires synced { wal.synced ≡ wal.count }
        requires heaps { IsHeaps reader.now.recovery.identity.heaps }
        requires read { HasRead (recovered (D.seen wal.disk)) reader.now }
        ensures back { IfErr result (λ e. e.1 ≡ wal) }
    {
        let keeper = Keeper::new(alloc, wal, reader, length)?;
        Ok(SiteKeeper { keeper })
    }

    /// Its disk, which says what failed.
    pub(crate) fn disk(&self) -> &D {
        &self.keeper.wal.disk
    }

    /// How long the files are.
    pub(crate) fn size(&self) -> Size {
        self.keeper.size
    }

    /// The last start in the log.
    pub(crate) fn start(&self) -> Option<Start> {
        self.keeper.start
    }

    /// The site that the log is of.
    pub(crate) fn site(&self) -> SiteNo {
        self.keeper.identity.site
    }

    /// Up to which counter the site's own operations of a heap are on the disk.
    pub(crate) fn durable(&self, heap: u8) -> u64 {
        self.keeper.durable(heap)
    }

    /// Starts the site, as `Keeper::begin` says.
    pub(crate) fn begin(
        &mut self,
        alloc: Global,
        folder: [u8; FOLDER],
    ) -> Result<u64, KeeperFault> {
        self.keeper.begin(alloc, folder)
    }

    /// Commits a round of batches, as `Keeper::round` says.
    pub(crate) fn round(&mut self, alloc: Global, batches: &[Batch]) -> Result<(), KeeperFault> {
        self.keeper.round(alloc, batches)?;
        Ok(())
    }

    /// Has room on the disk ahead, as `Keeper::room` says.
    pub(crate) fn room(&mut self, behind: Behind, bytes: u64) -> Result<bool, KeeperFault> {
        self.keeper.room(behind, bytes)
    }

    /// Whether the next file has operations of a heap that the log lacks.
    pub(crate) fn is_ahead(&self, heap: u8) -> bool {
        self.keeper.is_ahead(heap)
    }

    /// Writes batches to the next file alone, as `Keeper::round_next` says.
    pub(crate) fn round_next(
        &mut self,
        alloc: Global,
        batches: &[Batch],
    ) -> Result<(), KeeperFault> {
        self.keeper.round_next(alloc, batches)
    }

    /// Commits that nothing came for a while, as `Keeper::rest` says.
    pub(crate) fn rest(&mut self, alloc: Global) -> Result<bool, KeeperFault> {
        self.keeper.rest(alloc)
    }

    /// Begins a switch, as `Keeper::begin_switch` says.
    pub(crate) fn begin_switch(&mut self, alloc: Global) -> Result<(), KeeperFault> {
        self.keeper.begin_switch(alloc)
    }

    /// Writes a piece of a heap to the next file, as `Keeper::piece` says.
    pub(crate) fn piece(&mut self, alloc: Global, piece: Piece) -> Result<(), KeeperFault> {
        self.keeper.piece(alloc, piece)
    }

    /// Has the next file on the disk as far as it is written, as `Keeper::flush` says.
    pub(crate) fn flush(&mut self) -> Result<(), KeeperFault> {
        self.keeper.flush()
    }

    /// Writes to the next file that all pieces of a heap came, as `Keeper::seal` says.
    pub(crate) fn seal(&mut self, alloc: Global, heap: u8) -> Result<(), KeeperFault> {
        self.keeper.seal(alloc, heap)
    }

    /// Puts the next file in the log's place, as `Keeper::publish` says.
    pub(crate) fn publish(&mut self, alloc: Global) -> Result<(), KeeperFault> {
        self.keeper.publish(alloc)
    }
}
