//! Laws of records, and of what a crash leaves of them. The functions do nothing: each stands for
//! its contract.
ghost use Rattle.zq_wal.specs.Laws.{AreReadAgain, HasOneSpelling, IsBodyOf, IsFloorOf, SyncedIsRead, TornIsKept};

/// Records that were written are read again, and nothing else is read as one. A payload gives back
/// the floor and the body that it was made of.
pub fn records_again()
    ensures read { AreReadAgain }
    ensures spelling { HasOneSpelling }
    ensures floor { IsFloorOf }
    ensures body { IsBodyOf }
{}

/// Of a log whose last writes were torn the records are read up to some one, those that were synced
/// at least, and nothing is taken for damage. What was synced is read first, whatever came behind
/// it.
pub fn synced_stays()
    ensures torn { TornIsKept }
    ensures read { SyncedIsRead }
{}
