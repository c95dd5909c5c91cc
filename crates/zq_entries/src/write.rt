//! How an entry is written.

ghost use Rattle.std.specs.Prelude.{IfOk, Ok, ◌≡◌};
ghost use Rattle.zq_entries.specs.Entry as model;
ghost use Rattle.zq_entries.specs.Reading.{entry_at};
ghost use Rattle.zq_entries.specs.Spelling.{entry_bytes};

use crate::entry::Entry;
use crate::kind::Kind;
use crate::laws::entry_has_one_spelling;
use crate::round::write_batches;
use crate::sealed::write_sealed;
use crate::start::write_start;
use std::alloc::{AllocError, Global};
use zq_fields::write_byte;
use zq_links::write_piece;

/// The bytes of an entry, which are read as it. It fails only where memory is refused.
pub fn write_entry(alloc: Global, entry: &Entry) -> Result<Vec<u8>, AllocError>
    requires { model.IsWritable entry.now }
    ensures written { IfOk result (λ v. v.items ≡ entry_bytes (model.entry_of entry.now)) }
    ensures again { IfOk result (λ v. model.IsEntry (model.entry_of entry.now) →
        entry_at v.items ≡ Ok (model.entry_of entry.now)) }
{
    // For the proof: a spelling is read as its entry.
    entry_has_one_spelling();
    write_whole(alloc, entry)
}

fn write_whole(alloc: Global, entry: &Entry) -> Result<Vec<u8>, AllocError>
    requires { model.IsWritable entry.now }
    ensures { IfOk result (λ v. v.items ≡ entry_bytes (model.entry_of entry.now)) }
{
    let mut out = Vec::new(alloc);
    match entry {
        Entry::Start(start) => {
            write_byte(&mut out, Kind::Start.byte())?;
            write_start(&mut out, start)?;
        }
        Entry::Round(batches) => {
            write_byte(&mut out, Kind::Round.byte())?;
            write_batches(alloc, &mut out, batches)?;
        }
        Entry::Piece(piece) => return write_piece(alloc, piece),
        Entry::Sealed(whole) => {
            write_byte(&mut out, Kind::Sealed.byte())?;
            write_sealed(&mut out, whole)?;
        }
        Entry::Rest => write_byte(&mut out, Kind::Rest.byte())?,
    }
    Ok(out)
}
