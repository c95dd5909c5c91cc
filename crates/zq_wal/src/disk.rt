//! A disk as a log sees it: what its file has, and what a crash may leave.
ghost use Rattle.std.specs.Prelude.{◌≡◌, ◌≤◌, ◌++◌, ◌⊎◌, [], List, ℕ, length, take, OnOk};
ghost use Rattle.zq_wal.specs.Disk.{Cut, Elapses, Follows, HasCause, NoLonger, Only, Torn};

use crate::WalError;

/// Behind the end of which file room is asked for.
#[derive(Clone, Copy, Debug, PartialEq, Eq)]
pub enum Behind {
    /// The log.
    Log,
    /// The next file, which need not be begun.
    Next,
}

/// The file of a log, and the next file, which is to take its place.
///
/// Nothing is read through it: `Source` reads a log. What a call may leave behind is said for a
/// crash at any moment of it. After `Failed` what the call did is not known.
pub trait Disk {
    /// The bytes of the log.
    ghost seen: { Self → List ℕ };

    /// What a crash at this moment may leave of the log.
    ghost may_leave: { Self → List ℕ → Type 0 };

    /// The bytes of the next file.
    ghost staged: { Self → List ℕ };

    /// What a crash at this moment may leave of the next file.
    ghost staged_may_leave: { Self → List ℕ → Type 0 };

    /// The moment, as a number that does not fall.
    ghost moment: { Self → ℕ };

    /// What a crash at some moment from that one on might have left of the log, during a call or
    /// between two.
    ghost left_since: { Self → ℕ → List ℕ → Type 0 };

    /// How often the disk has failed.
    ghost faults: { Self → ℕ };

    /// Writes these bytes behind the log's end. Until a sync a crash may leave zeros in the place
    /// of some of them, and may leave out a part of the end.
    fn append(&mut self, bytes: &[u8]) -> Result<(), WalError>
        requires { NoLonger (seen self.old) (may_leave self.old) }
        ensures written { OnOk result (seen self.new ≡ seen self.old ++ bytes.now) }
        ensures staged { staged self.new ≡ staged self.old }
        ensures crash { Follows (Torn (length (seen self.old)) bytes.now)
            (may_leave self.old) (may_leave self.new) }
        ensures time { Elapses (moment self.old) (moment self.new)
            (left_since self.old) (left_since self.new) (may_leave self.new) }
        ensures cause { HasCause (faults self.old) (faults self.new) result };

    /// Cuts the log, all of which is on the disk, to a length. Until a sync a crash may leave more.
    fn cut(&mut self, len: usize) -> Result<(), WalError>
        requires within { len ≤ length (seen self.old) }
        requires durable { Only (seen self.old) (may_leave self.old) }
        ensures cut { OnOk result (seen self.new ≡ take len (seen self.old)) }
        ensures staged { staged self.new ≡ staged self.old }
        ensures crash { Follows (Cut len) (may_leave self.old) (may_leave self.new) }
        ensures time { Elapses (moment self.old) (moment self.new)
            (left_since self.old) (left_since self.new) (may_leave self.new) }
        ensures cause { HasCause (faults self.old) (faults self.new) result };

    /// After it a crash leaves all of the log's bytes: they are on the disk, and so is its name.
    fn sync(&mut self) -> Result<(), WalError>
        ensures durable { OnOk result (Only (seen self.old) (may_leave self.new)) }
        ensures seen { seen self.new ≡ seen self.old }
        ensures staged { staged self.new ≡ staged self.old }
        ensures crash { (c : List ℕ) → may_leave self.new c → may_leave self.old c }
        ensures time { Elapses (moment self.old) (moment self.new)
            (left_since self.old) (left_since self.new) (may_leave self.new) }
        ensures cause { HasCause (faults self.old) (faults self.new) result };

    /// Begins the next file, empty. One that was begun before is gone.
    fn begin_next(&mut self) -> Result<(), WalError>
        ensures staged { OnOk result (staged self.new ≡ []) }
        ensures seen { seen self.new ≡ seen self.old }
        ensures crash { (c : List ℕ) → may_leave self.new c → may_leave self.old c }
        ensures time { Elapses (moment self.old) (moment self.new)
            (left_since self.old) (left_since self.new) (may_leave self.new) }
        ensures cause { HasCause (faults self.old) (faults self.new) result };

    /// Writes these bytes behind the end of the next file.
    fn append_next(&mut self, bytes: &[u8]) -> Result<(), WalError>
        ensures staged { OnOk result (staged self.new ≡ staged self.old ++ bytes.now) }
        ensures seen { seen self.new ≡ seen self.old }
        ensures crash { (c : List ℕ) → may_leave self.new c → may_leave self.old c }
        ensures time { Elapses (moment self.old) (moment self.new)
            (left_since self.old) (left_since self.new) (may_leave self.new) }
        ensures cause { HasCause (faults self.old) (faults self.new) result };

    /// After it a crash leaves all of the next file's bytes, wherever its name stands.
    fn sync_next(&mut self) -> Result<(), WalError>
        ensures durable { OnOk result (Only (staged self.old) (staged_may_leave self.new)) }
        ensures staged { staged self.new ≡ staged self.old }
        ensures seen { seen self.new ≡ seen self.old }
        ensures crash { (c : List ℕ) → may_leave self.new c → may_leave self.old c }
        ensures time { Elapses (moment self.old) (moment self.new)
            (left_since self.old) (left_since self.new) (may_leave self.new) }
        ensures cause { HasCause (faults self.old) (faults self.new) result };

    /// The next file takes the log's name. Until a sync a crash may leave the log from before.
    fn publish_next(&mut self) -> Result<(), WalError>
        ensures published { OnOk result (seen self.new ≡ staged self.old) }
        ensures crash { (c : List ℕ) → may_leave self.new c →
            may_leave self.old c ⊎ staged_may_leave self.old c }
        ensures time { Elapses (moment self.old) (moment self.new)
            (left_since self.old) (left_since self.new) (may_leave self.new) }
        ensures cause { HasCause (faults self.old) (faults self.new) result };

    /// Has room on the disk for so many bytes more behind the end of a file, as zeros that are no
    /// part of it, and says whether it has: it has not where the disk is full. Nothing else changes,
    /// whatever the answer: what the files have, and what a crash may leave of them, is what it was,
    /// and after `Ok` each later call does what it did before.
    fn room(&mut self, behind: Behind, bytes: u64) -> Result<bool, WalError>
        ensures seen { seen self.new ≡ seen self.old }
        ensures staged { staged self.new ≡ staged self.old }
        ensures crash { (c : List ℕ) → may_leave self.new c → may_leave self.old c }
        ensures crash_next { (c : List ℕ) →
            staged_may_leave self.new c → staged_may_leave self.old c }
        ensures time { Elapses (moment self.old) (moment self.new)
            (left_since self.old) (left_since self.new) (may_leave self.new) }
        ensures same { OnOk result (faults self.new ≡ faults self.old) }
        ensures cause { HasCause (faults self.old) (faults self.new) result };

    /// This moment is one of those since an earlier one.
    ghost counts_now: { (disk : Self) (t : ℕ) (c : List ℕ) → t ≤ moment disk →
        may_leave disk c → left_since disk t c };

    /// Since this moment there is no other.
    ghost only_now: { (disk : Self) (c : List ℕ) →
        left_since disk (moment disk) c → may_leave disk c };
}
