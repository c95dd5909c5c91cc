//! How a log is adopted.

ghost use Rattle.std.specs.Prelude.{[], ◌≡◌};
ghost use Rattle.zq_keeper.specs.Read.{HasRead, IsBlank};
ghost use Rattle.zq_model.specs.Sets.{IsHeaps};
ghost use Rattle.zq_wal.specs.Format.{recovered};
ghost use Rattle.zq_wal.specs.Found.{IsFound};
ghost use Rattle.zq_wal_file.specs.FileDisk.{IsRead, given_of};

use crate::adopted::{Adopted, operations_of};
use crate::copying::write_log;
use crate::fault::{AdoptFault, of_files, of_wal, of_write};
use crate::new_folder::NewFolder;
use std::alloc::Global;
use std::fs::File;
use std::rt::Files;
use zq_dots::SiteNo;
use zq_entries::FOLDER;
use zq_keeper::{Keeper, Reader};
use zq_posheap::Seeded;
use zq_recovery::Identity;
use zq_stage::Stage;
use zq_wal::{Found, read_records, reopen};
use zq_wal_file::{FileDisk, FoundLog};

/// The site that adopts a log.
#[derive(Clone, Copy)]
pub struct Heir<'a> {
    /// The path of its folder, which is made.
    pub path: &'a str,
    pub site: SiteNo,
    /// By what its log names the folder: bytes that no other has.
    pub folder: [u8; FOLDER],
}

/// A log that was made, and how many members it has.
#[derive(Drop)]
struct Made<'d, N: Files<File = File>> {
    keeper: Keeper<FileDisk<&'d N>>,
    members: u64,
}

/// Makes the new folder of a site, with a log that has all that these heaps have. The folder must
/// not be there, or be empty.
///
/// `NotEmpty`: nothing was changed. After any other fault no site takes what is in the folder.
pub fn adopt<R>(
    rt: &R,
    alloc: Global,
    reader: &Reader,
    heir: Heir<'_>,
    hasher: Seeded,
) -> Result<Adopted, AdoptFault>
where
    R: Files<File = File> + Alloc<A = Global> + Clone + Drop,
    requires { IsHeaps reader.now.recovery.identity.heaps }
{
    let Identity { heaps, rule, .. } = reader.recovery.identity;
    let Heir { path, site, folder } = heir;
    let identity = Identity { site, heaps, rule };
    let stages = reader.recovery.stages.as_slice();
    let new = NewFolder::make(rt, alloc, path)?;
    let log = new.open(rt, alloc)?;
    let blank = Reader::new(alloc, identity, hasher)?;
    let Made { members, .. } = make_log(alloc, log, blank, folder, stages, hasher)?;
    new.finish(rt, alloc)?;
    Ok(Adopted {
        site,
        heaps,
        members,
        operations: operations_of(stages),
    })
}

/// Makes a log of these heaps where there is one in which nothing is, which this reader reads first.
fn make_log<'d, N: Files<File = File>>(
    alloc: Global,
    log: FoundLog<&'d N>,
    blank: Reader,
    folder: [u8; FOLDER],
    stages: &[Stage],
    hasher: Seeded,
) -> Result<Made<'d, N>, AdoptFault>
    requires fresh { given_of log ≡ [] }
    requires blank { IsBlank blank }
{
    let (mut log, mut reader) = (log, blank);
    let found = match read_records(alloc, &mut log, &mut reader) {
        Ok(found) => found,
        Err(error) => return Err(of_wal(error, log.fault())),
    };
    fill_log(alloc, found, log, &reader, folder, stages, hasher)
}

/// Writes these heaps to a log whose records this reader has read.
fn fill_log<'d, N: Files<File = File>>(
    alloc: Global,
    found: Found,
    log: FoundLog<&'d N>,
    reader: &Reader,
    folder: [u8; FOLDER],
    stages: &[Stage],
    hasher: Seeded,
) -> Result<Made<'d, N>, AdoptFault>
    requires read { IsRead log }
    requires found { IsFound (given_of log) found }
    requires all { HasRead (recovered (given_of log)) reader.now }
{
    let wal = match reopen(found, log.into_disk()) {
        Ok(wal) => wal,
        Err((_, disk)) => return Err(of_files(disk.fault())),
    };
    let mut keeper = match Keeper::new(alloc, wal, reader, found.end as u64) {
        Ok(keeper) => keeper,
        Err((fault, wal)) => return Err(of_write(fault.into(), wal.disk.fault())),
    };
    match write_log(alloc, &mut keeper, folder, stages, hasher) {
        Ok(members) => Ok(Made { keeper, members }),
        Err(fault) => Err(of_write(fault, keeper.wal.disk.fault())),
    }
}
