//! The key and the member of a record.
ghost use Rattle.std.specs.Prelude.{◌≡◌, ◌≤◌, ◌+◌, ◌++◌, IfOk, length, take};
ghost use Rattle.zq_journal.specs.Names.{names_of};

use std::alloc::{AllocError, Global};
use std::marker::Model;
use zq_posheap::overwrite;

/// How many bytes of a key and a member lie in a record itself.
const SHORT: usize = 37;

/// Where a key and a member lie, one behind the other: here, after the end of the key and of both,
/// or in memory of their own with the end of the key.
#[derive(Drop)]
enum Kept {
    Short(u8, u8, [u8; SHORT]),
    Long(usize, Vec<u8>),
}

/// The key and the member of an operation. Where they have at most 37 bytes together they take no
/// memory of their own.
#[derive(Drop)]
pub(crate) struct Names {
    kept: Kept,
}

impl Model for Names {
    ghost use Rattle.std.specs.Prelude.{List, ℕ};
    ghost use Rattle.std.specs.Coded.{coded_list, coded_ℕ, coded×};

    ghost Value = { List ℕ × List ℕ };

    ghost coded = { coded× (coded_list coded_ℕ) (coded_list coded_ℕ) };

    ghost use Rattle.zq_journal.specs.Names.{names_of};

    ghost view = { λ a. names_of a.kept };
}

impl Names {
    /// Copies of a key and a member.
    #[inline(always)]
    pub(crate) fn copied(alloc: Global, key: &[u8], member: &[u8]) -> Result<Names, AllocError>
        ensures { IfOk result (λ names. names ≡ (key.now, member.now)) }
    {
        let end = key.len() + member.len();
        if end > SHORT {
            let mut bytes = Vec::with_capacity(alloc, end)?;
            bytes.extend_from_slice(key)?;
            bytes.extend_from_slice(member)?;
            return Ok(Names {
                kept: Kept::Long(key.len(), bytes),
            });
        }
        let mut bytes = [0; SHORT];
        put_both(&mut bytes, key, member);
        Ok(Names {
            kept: Kept::Short(key.len() as u8, end as u8, bytes),
        })
    }

    /// The key.
    pub(crate) fn key(&self) -> &[u8]
        ensures { result.now ≡ self.now.0 }
    {
        let (key, _) = self.kept.both();
        key
    }

    /// The member.
    pub(crate) fn member(&self) -> &[u8]
        ensures { result.now ≡ self.now.1 }
    {
        let (_, member) = self.kept.both();
        member
    }
}

/// Writes a key and a member at the front, one behind the other.
#[inline(always)]
fn put_both(bytes: &mut [u8], key: &[u8], member: &[u8])
    requires { length key.now + length member.now ≤ length bytes.old }
    ensures { take (length key.now + length member.now) bytes.new ≡ key.now ++ member.now }
{
    let end = key.len() + member.len();
    overwrite(&mut bytes[..key.len()], key);
    overwrite(&mut bytes[key.len()..end], member);
}

impl Kept {
    /// The key and the member.
    fn both(&self) -> (&[u8], &[u8])
        ensures key { result.0.now ≡ (names_of self.now).0 }
        ensures member { result.1.now ≡ (names_of self.now).1 }
    {
        let (end, bytes) = match self {
            Kept::Short(key, end, bytes) => {
                let end = usize::from(*end).min(SHORT);
                (usize::from(*key), &bytes[..end])
            }
            Kept::Long(key, bytes) => (*key, bytes.as_slice()),
        };
        bytes.split_at(end.min(bytes.len()))
    }
}
