//! Where a look-up in a map of names begins.
ghost use Rattle.std.specs.Prelude.{IfSome, IsTrue, Some, is_some, slice_get, true, ◌<◌, ◌≡◌};
ghost use Rattle.std.specs.Option.{option_copied};
ghost use Rattle.indexmap.specs.IndexMap.{get_by, index_map_len, keys, values};
ghost use Rattle.zq_posheap.specs.Order.{same_key};

use crate::name::{Name, NameRef};
use crate::same::is_same;
use crate::seeded::Seeded;
use indexmap::IndexMap;
use std::cell::Cell;

/// Where the last look-up in a map ended, and the next one begins: a call often looks for the name
/// that the one before it found, and then hashes nothing. A name that ends in other bytes is looked
/// for at once, so that a wrong guess reads nothing of the map. What is found does not depend on it.
#[derive(Drop)]
pub struct Guess {
    index: Cell<usize>,
    // How the name there ends, where that is known.
    ending: Cell<Option<u64>>,
}

impl Guess {
    /// The first index.
    pub fn new() -> Guess {
        Guess {
            index: Cell::new(0),
            ending: Cell::new(None),
        }
    }

    /// The index of a name in a map, and `None` where it is not there.
    #[inline(always)]
    pub fn find<V>(&self, names: &IndexMap<Name, V, Seeded>, name: &[u8]) -> Option<usize>
        ensures within { IfSome result (λ index. index < index_map_len names.now) }
        ensures found { is_some result ≡ is_some (get_by (same_key name.now) names.now) }
        ensures there { IfSome result (λ index. slice_get (keys names.now) index ≡ Some name.now) }
        ensures value { IfSome result
            (λ index. slice_get (values names.now) index ≡ get_by (same_key name.now) names.now) }
    {
        let guess = self.index.get();
        let ending = ending_of(name);
        if self.fits(ending) && is_at(names, guess, name) {
            return Some(guess);
        }
        let index = names.get_index_of(NameRef(name))?;
        self.index.set(index);
        self.ending.set(Some(ending));
        Some(index)
    }

    /// Whether a name that ends so may be the one at the guess.
    #[inline(always)]
    fn fits(&self, ending: u64) -> bool {
        match self.ending.get() {
            Some(known) => known == ending,
            None => true,
        }
    }

    /// What a map has for a name, and `None` where the name is not there.
    pub fn get<'a, V>(&self, names: &'a IndexMap<Name, V, Seeded>, name: &[u8]) -> Option<&'a V>
        ensures { option_copied result ≡ get_by (same_key name.now) names.now }
    {
        let index = self.find(names, name)?;
        let (_, value) = names.get_index(index)?;
        Some(value)
    }

    /// Notes an index at which the next look-up is to begin, whatever its name.
    pub fn note(&self, index: usize) {
        self.index.set(index);
        self.ending.set(None);
    }
}

/// The last eight bytes of a name, or the last four of a shorter one.
#[inline(always)]
fn ending_of(name: &[u8]) -> u64 {
    match name.last_chunk::<8>() {
        Some(bytes) => u64::from_le_bytes(*bytes),
        None => match name.last_chunk::<4>() {
            Some(bytes) => u64::from(u32::from_le_bytes(*bytes)),
            None => 0,
        },
    }
}

/// Whether a name stands at an index of a map.
#[inline(always)]
fn is_at<V>(names: &IndexMap<Name, V, Seeded>, index: usize, name: &[u8]) -> bool
    ensures there { IsTrue result → slice_get (keys names.now) index ≡ Some name.now }
    ensures value { IsTrue result → slice_get (values names.now) index
        ≡ get_by (same_key name.now) names.now }
    ensures within { IsTrue result → index < index_map_len names.now }
    ensures found { IsTrue result → is_some (get_by (same_key name.now) names.now) ≡ true }
{
    match names.get_index(index) {
        Some((there, _)) => is_same(there.as_slice(), name),
        None => false,
    }
}
