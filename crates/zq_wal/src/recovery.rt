//! Reading a log again after a crash.
ghost use Rattle.std.specs.Prelude.{◌≡◌, ◌≤◌, ◌<◌, ◌^◌, ◌++◌, [], length, take, drop, false, true, IfErr, IfNone, IfOk, IfSome, IsErrOf, OnOk};
ghost use Rattle.zq_wal.specs.Disk.{HasCause, LeavesOnly, Only};
ghost use Rattle.zq_wal.specs.Format.{file_of, is_corrupt, recovered};
ghost use Rattle.zq_wal.specs.Found.{IsFound};
ghost use Rattle.zq_wal.specs.Replay.{Replayed};
ghost use Rattle.zq_wal.specs.Wal.{IsLog, Reads};
ghost use Rattle.zq_wal.specs.Walk.{IsRoomy, IsWalk};

use crate::walk::Walk;
use crate::{Disk, Replay, Source, Wal, WalError};
use std::alloc::Global;

/// How many bytes are read at once.
const PIECE: usize = 1 << 16;

/// How many bytes a file has at most.
const MAX_BYTES: usize = 1 << 60;

/// What was found in a file: how many records it begins with, and where the last of them ends.
#[derive(Clone, Copy, Debug, PartialEq, Eq)]
pub struct Found {
    pub count: usize,
    pub end: usize,
}

/// Reads a file that a crash may have left, from its first byte to its last, and has its records
/// taken again, each as soon as it is whole. It holds one record and a piece of 64 KiB at a time.
///
/// A torn end is passed over. A file with damage that no crash leaves is `Corrupt`; that is known
/// at its end, so what was taken before is then to be thrown away, as after every error. `Full`:
/// the file has 2^60 bytes.
pub fn read_records<S: Source, R: Replay>(
    alloc: Global,
    source: &mut S,
    replay: &mut R,
) -> Result<Found, WalError>
    requires { S.given source.old ≡ [] }

    ensures found { IfOk result (λ found. IsFound (S.given source.new) found) }
    ensures end { OnOk result (S.at_end source.new) }
    // All of its records are taken, in their order, and nothing else.
    ensures replayed { OnOk result
        (Replayed R.replays replay.old (recovered (S.given source.new)) replay.new) }

    ensures corrupt { IsErrOf result WalError.Corrupt → is_corrupt (S.given source.new) ≡ true }
    ensures whole { IsErrOf result WalError.Corrupt → S.at_end source.new }
    ensures stopped { IsErrOf result WalError.Stopped → R.has_stopped replay.new }
    ensures failed { IsErrOf result WalError.Failed →
        S.failures source.old < S.failures source.new }
    ensures full { IsErrOf result WalError.Full → 2 ^ 60 ≤ length (S.given source.new) }
{
    let mut piece = vec![in alloc; 0u8; PIECE]?;
    let mut walk = Walk::new(alloc);
    while walk_piece(source, &mut piece, &mut walk, replay)? {}
    walk.known.found()
}

/// Reads the next bytes of a file, of which those before have been walked, and walks over them.
/// Answers whether there were any.
fn walk_piece<S: Source, R: Replay>(
    source: &mut S,
    piece: &mut Vec<u8>,
    walk: &mut Walk,
    replay: &mut R,
) -> Result<bool, WalError>
    requires walk { IsWalk (S.given source.old) walk.old }
    requires room { IsRoomy walk.old piece.old.items }
    ensures walk { OnOk result (IsWalk (S.given source.new) walk.new) }
    ensures replayed { OnOk result ((first : R) →
        Replayed R.replays first (recovered (S.given source.old)) replay.old →
        Replayed R.replays first (recovered (S.given source.new)) replay.new) }
    ensures room { OnOk result (IsRoomy walk.new piece.new.items) }
    ensures more { IfOk result (λ more. more ≡ true → walk.old.walked < walk.new.walked) }
    ensures end { IfOk result (λ more. more ≡ false → S.at_end source.new) }
    ensures failures { S.failures source.old ≤ S.failures source.new }
    ensures failed { IsErrOf result WalError.Failed →
        S.failures source.old < S.failures source.new }
    ensures full { IsErrOf result WalError.Full → 2 ^ 60 ≤ length (S.given source.new) }
    ensures stopped { IsErrOf result WalError.Stopped → R.has_stopped replay.new }
    ensures sound { IsErrOf result WalError.Corrupt → ⊥ }
{
    let Some(n) = next_piece(source, piece)? else {
        return Ok(false);
    };
    if n > MAX_BYTES - walk.walked {
        return Err(WalError::Full);
    }
    walk.take_all(&piece[..n], replay)?;
    Ok(true)
}

/// Reads the next bytes into the front of the piece, and answers how many; `None` where there are
/// no more.
fn next_piece<S: Source>(source: &mut S, piece: &mut Vec<u8>) -> Result<Option<usize>, WalError>
    requires { 0 < length piece.old.items }
    ensures some { IfOk result (λ more. IfSome more (λ n. (0 < n) × (n ≤ length piece.new.items)
        × (S.given source.new ≡ S.given source.old ++ take n piece.new.items))) }
    ensures none { IfOk result (λ more. IfNone more (S.given source.new ≡ S.given source.old)) }
    ensures end { IfOk result (λ more. IfNone more (S.at_end source.new)) }
    ensures long { length piece.new.items ≡ length piece.old.items }
    ensures cause { HasCause (S.failures source.old) (S.failures source.new) result }
{
    let n = source.read(piece)?;
    if n == 0 {
        return Ok(None);
    }
    Ok(Some(n))
}

/// The log of a file whose records were read, and whose torn end is now cut off. That may be broken
/// off by a crash too: at any moment what is left is read alike. An `Err` hands the disk back.
pub fn reopen<D: Disk>(found: Found, mut disk: D) -> Result<Wal<D>, (WalError, D)>
    // What was read is what is on the disk.
    requires found { IsFound (D.seen disk) found }
    requires durable { Only (D.seen disk) (D.may_leave disk) }

    ensures log { IfOk result (λ log. IsLog D.seen D.staged D.may_leave log) }
    ensures same { IfOk result (λ log. recovered (D.seen log.disk) ≡ recovered (D.seen disk)) }
    ensures synced { IfOk result (λ log. log.synced ≡ length (recovered (D.seen disk))) }
    ensures any_moment { IfOk result (λ log.
        LeavesOnly D.moment D.left_since disk log.disk (Reads (D.seen disk))) }

    ensures any_moment_err { IfErr result (λ e.
        LeavesOnly D.moment D.left_since disk e.1 (Reads (D.seen disk))) }
    ensures failed { IfErr result (λ e. e.0 ≡ WalError.Failed → D.faults disk < D.faults e.1) }
    ensures sound { IfErr result (λ e. e.0 ≡ WalError.Corrupt → ⊥) }
{
    match cut_end(found.end, &mut disk) {
        Ok(()) => Ok(Wal::new(disk, found.count)),
        Err(error) => Err((error, disk)),
    }
}

/// Cuts off what stands behind the records, which end here.
fn cut_end<D: Disk>(end: usize, disk: &mut D) -> Result<(), WalError>
    requires within { end ≤ length (D.seen disk.old) }
    requires front { take end (D.seen disk.old) ≡ file_of (recovered (D.seen disk.old)) }
    requires rest { recovered (drop end (D.seen disk.old)) ≡ [] }
    requires durable { Only (D.seen disk.old) (D.may_leave disk.old) }
    ensures file { OnOk result (D.seen disk.new ≡ file_of (recovered (D.seen disk.old))) }
    ensures reads { OnOk result (Reads (D.seen disk.old) (D.seen disk.new)) }
    ensures durable { OnOk result (Only (D.seen disk.new) (D.may_leave disk.new)) }
    ensures any_moment { LeavesOnly D.moment D.left_since disk.old disk.new
        (Reads (D.seen disk.old)) }
    ensures cause { HasCause (D.faults disk.old) (D.faults disk.new) result }
{
    disk.cut(end)?;
    disk.sync()
}
