//! What writes a site's log on disk.

ghost use Rattle.std.specs.Prelude.{◌≡◌};

use crate::fault::{of_data, of_keeper};
use crate::room::Refused;
use crate::round::Round;
use crate::site_keeper::SiteKeeper;
use crate::switch::{Switch, Switched};
use crate::work::Work;
use std::fs::File;
use std::rt::Files;
use std::time::{Clock, Duration};
use zq_keeper::KeeperFault;
use zq_posheap::Seeded;
use zq_serve::{DataFault, ServeFault};
use zq_wal::Disk;
use zq_wal_file::FileDisk;

/// The one writer of a site's log on disk, in the thread that takes what the heaps make.
#[derive(Drop)]
pub struct Writer<D: Disk> {
    pub(crate) keeper: SiteKeeper<D>,
    /// By what the members lie that a switch copies.
    pub(crate) hasher: Seeded,
    /// The switch of the log to another file, where one is going on.
    pub(crate) switch: Option<Switch>,
    /// Whether a heap has what the log cannot take as operations: nobody who waits goes on until a
    /// switch is done.
    pub(crate) is_behind: bool,
    /// Whether the disk is full: it has not the room that is kept ahead.
    pub(crate) is_full: bool,
    /// Whether the last turn ended before all was taken, since the disk has not the room that is kept
    /// ahead: the next turn follows at once.
    pub(crate) is_short: bool,
    /// What room was refused lately to the log, and to the next file.
    pub(crate) refused: Refused,
    pub(crate) refused_next: Refused,
    /// What is to be written next, where there was no room for it.
    pub(crate) waiting: Option<Round>,
    /// What was done on the disk since the log was opened.
    pub(crate) work: Work,
    /// The last switch that was done, where it was not told yet.
    pub(crate) switched: Option<Switched>,
    /// How many tickets waited as the last round was ended.
    pub(crate) crowd: u64,
    /// For how long it is waited for so many before a round: a part of what the last one took.
    pub(crate) patience: Duration,
    /// How many zeros there are for the next file, while it is not begun yet.
    pub(crate) spare: u64,
    /// When a switch may begin again after one that was given up.
    pub(crate) again_at: Duration,
    /// When a round was written last.
    pub(crate) wrote_at: Duration,
}

impl<D: Disk> Writer<D> {
    /// The writer of a log that was started.
    pub(crate) fn new(keeper: SiteKeeper<D>, hasher: Seeded) -> Writer<D>
        ensures { result.keeper ≡ keeper }
    {
        let work = Work::new(keeper.size());
        Writer {
            keeper,
            hasher,
            switch: None,
            is_behind: false,
            is_full: false,
            is_short: false,
            refused: Refused::new(),
            refused_next: Refused::new(),
            waiting: None,
            work,
            switched: None,
            crowd: 0,
            patience: Duration::from_millis(0),
            spare: 0,
            again_at: Duration::from_millis(0),
            wrote_at: Duration::from_millis(0),
        }
    }
}

impl<N: Files<File = File>> Writer<FileDisk<&N>> {
    /// Why nothing more can be written, where a call said this.
    pub fn why(&self, fault: KeeperFault) -> ServeFault {
        let files = self.keeper.disk().fault();
        if files.is_none() && self.lacks_room() {
            return of_data(DataFault::Full);
        }
        of_keeper(fault, files)
    }
}

/// The time that the clock shows.
pub(crate) fn now_of<R: Clock>(rt: &R) -> Duration {
    match rt.monotonic() {
        Ok(now) => now,
        Err(_) => Duration::from_millis(0),
    }
}
