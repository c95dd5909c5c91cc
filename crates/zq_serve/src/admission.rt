//! Which commands a site answers.

ghost use Rattle.std.specs.Prelude.{◌≡◌};
ghost use Rattle.zq_serve.specs.Admission.{admits_by};

use std::sync::atomic::{AtomicBool, Ordering};
use zq_dots::SiteNo;

/// Which commands a site answers.
#[derive(Clone, Copy, Debug, PartialEq, Eq)]
pub enum Admits {
    /// All of them.
    All,
    /// Those that write nothing: the site waits for its peers.
    Readings,
    /// Those that write nothing: the disk is full.
    NoChanges,
    /// Those that add nothing: the process has more memory than it may.
    NoAdditions,
    /// PING alone: another run used the site's number.
    Pings,
}

/// Which commands a site answers by now. Its threads share it.
#[derive(Drop)]
pub struct Admission {
    pub(crate) site: SiteNo,
    waits: AtomicBool,
    is_fenced: AtomicBool,
    is_full: AtomicBool,
    is_disk_full: AtomicBool,
}

impl Admission {
    /// Of this site, which waits for its peers or answers all commands.
    pub fn new(site: SiteNo, waits: bool) -> Admission {
        Admission {
            site,
            waits: AtomicBool::new(waits),
            is_fenced: AtomicBool::new(false),
            is_full: AtomicBool::new(false),
            is_disk_full: AtomicBool::new(false),
        }
    }

    /// The site waits for its peers no more.
    pub fn open(&self) {
        self.waits.store(false, Ordering::SeqCst);
    }

    /// Another run used the site's number. That is for good.
    pub fn fence(&self) {
        self.is_fenced.store(true, Ordering::SeqCst);
    }

    /// Whether the process has more memory than it may.
    pub fn fill(&self, is_full: bool) {
        self.is_full.store(is_full, Ordering::SeqCst);
    }

    /// Whether the disk is full on which the site keeps its log.
    pub fn fill_disk(&self, is_full: bool) {
        self.is_disk_full.store(is_full, Ordering::SeqCst);
    }

    /// Whether the site waits for its peers.
    pub fn waits(&self) -> bool {
        self.waits.load(Ordering::SeqCst)
    }

    /// Whether another run used the site's number.
    pub fn is_fenced(&self) -> bool {
        self.is_fenced.load(Ordering::SeqCst)
    }

    /// Whether the process has more memory than it may.
    pub fn is_full(&self) -> bool {
        self.is_full.load(Ordering::SeqCst)
    }

    /// Whether the disk is full on which the site keeps its log.
    pub fn is_disk_full(&self) -> bool {
        self.is_disk_full.load(Ordering::SeqCst)
    }

    /// Which commands are answered.
    pub(crate) fn admits(&self) -> Admits {
        admits_by(
            self.is_fenced(),
            self.waits(),
            self.is_disk_full(),
            self.is_full(),
        )
    }
}

/// Which commands a site answers: PING alone where another run used its number, else those that
/// write nothing while it waits for its peers, or while its disk is full, and else those that add
/// nothing while the process has more memory than it may.
fn admits_by(is_fenced: bool, waits: bool, is_disk_full: bool, is_full: bool) -> Admits
    ensures { result ≡ admits_by is_fenced waits is_disk_full is_full }
{
    match (is_fenced, waits, is_disk_full, is_full) {
        (true, _, _, _) => Admits::Pings,
        (false, true, _, _) => Admits::Readings,
        (false, false, true, _) => Admits::NoChanges,
        (false, false, false, true) => Admits::NoAdditions,
        (false, false, false, false) => Admits::All,
    }
}
