//! `Name` and `NameRef`.
ghost use Rattle.std.specs.Prelude.{IfOk, length, nat_eq, ◌≡◌, ◌≤◌};
ghost use Rattle.std.proofs.Common.{ap};
ghost use Rattle.std.specs.Cmp.{on_equiv, on_per, partial_equiv_from_equiv};
ghost use Rattle.std.specs.Cmp.Lexicographic.{bytes_decides, nat_list_eq_equiv, pointwise};
ghost use Rattle.zq_posheap.specs.Hashing.{words_of};

use crate::hashing::write_words;
use crate::same::{is_same, overwrite};
use indexmap::Equivalent;
use std::alloc::{AllocError, Global};
use std::hash::{Hash, Hasher};
use std::marker::Model;

/// How many bytes lie in a name itself.
const SHORT: usize = 30;

/// Where a name's bytes lie: here, after their number, or in memory of their own.
#[derive(Drop)]
enum Kept {
    Short(u8, [u8; SHORT]),
    Long(Vec<u8>),
}

/// The bytes of a key or of a member, to be a map's key. At most 30 lie in the name itself: a
/// look-up that comes to the name has come to its bytes, and they take no memory of their own.
#[derive(Drop)]
pub struct Name {
    kept: Kept,
}

impl Model for Name {
    ghost use Rattle.std.specs.Prelude.{List, ℕ};
    ghost use Rattle.std.specs.Coded.{coded_list, coded_ℕ};

    ghost Value = { List ℕ };

    ghost coded = { coded_list coded_ℕ };

    ghost use Rattle.zq_posheap.specs.Kept.{bytes_of};

    ghost view = { λ a. bytes_of a.kept };
}

impl Name {
    /// A copy of these bytes, in memory of its own where they are more than 30.
    pub fn copied(alloc: Global, bytes: &[u8]) -> Result<Name, AllocError>
        ensures { IfOk result (λ name. name ≡ bytes.now) }
    {
        if bytes.len() <= SHORT {
            return Ok(Name::short(bytes));
        }
        let bytes = bytes.to_vec(alloc)?;
        Ok(Name {
            kept: Kept::Long(bytes),
        })
    }

    /// These bytes. It takes no memory, and gives theirs back where they are at most 30.
    pub fn of(bytes: Vec<u8>) -> Name
        ensures { result ≡ bytes.items }
    {
        if bytes.len() <= SHORT {
            Name::short(&bytes)
        } else {
            Name {
                kept: Kept::Long(bytes),
            }
        }
    }

    /// Bytes that lie in the name.
    fn short(bytes: &[u8]) -> Name
        requires { length bytes.now ≤ 30 }
        ensures { result ≡ bytes.now }
    {
        let mut kept = [0; SHORT];
        overwrite(&mut kept[..bytes.len()], bytes);
        Name {
            kept: Kept::Short(bytes.len() as u8, kept),
        }
    }

    /// The bytes.
    pub fn as_slice(&self) -> &[u8]
        ensures { result.now ≡ self.now }
    {
        match &self.kept {
            Kept::Short(len, bytes) => {
                let len = usize::from(*len).min(SHORT);
                &bytes[..len]
            }
            Kept::Long(bytes) => bytes.as_slice(),
        }
    }
}

impl PartialEq for Name {
    ghost eq = { pointwise nat_eq };

    ghost laws = { partial_equiv_from_equiv nat_list_eq_equiv };

    fn eq(&self, other: &Self) -> bool {
        self.as_slice() == other.as_slice()
    }
}

impl Eq for Name {
    ghost laws = { nat_list_eq_equiv };
}

impl Hash for Name {
    ghost hash_input = { words_of };

    ghost respects_eq = { λ x y same. ap words_of ((bytes_decides x y).0 same) };

    fn hash<H: Hasher>(&self, state: &mut H) {
        write_words(self.as_slice(), state);
    }
}

/// Bytes by which a name is looked up.
#[derive(Clone, Copy)]
pub struct NameRef<'a>(pub &'a [u8]);

impl<'a> PartialEq for NameRef<'a> {
    ghost eq = { λ x y. pointwise nat_eq x.0.now y.0.now };

    ghost laws = { on_per (λ x. x.0.now) (partial_equiv_from_equiv nat_list_eq_equiv) };

    fn eq(&self, other: &Self) -> bool {
        self.0 == other.0
    }
}

impl<'a> Eq for NameRef<'a> {
    ghost laws = { on_equiv (λ x. x.0.now) nat_list_eq_equiv };
}

impl<'a> Hash for NameRef<'a> {
    ghost hash_input = { λ name. words_of name.0.now };

    ghost respects_eq = { λ x y same. ap words_of ((bytes_decides x.0.now y.0.now).0 same) };

    fn hash<H: Hasher>(&self, state: &mut H) {
        write_words(self.0, state);
    }
}

impl<'a> Equivalent<Name> for NameRef<'a> {
    ghost equivalent = { λ sought name. pointwise nat_eq sought.0.now name };

    ghost respects_hash = { λ sought name same.
        ap words_of ((bytes_decides sought.0.now name).0 same) };

    ghost respects_eq = { λ sought x y. nat_list_eq_equiv.congr sought.0.now x y };

    fn equivalent(&self, name: &Name) -> bool {
        is_same(self.0, name.as_slice())
    }
}
