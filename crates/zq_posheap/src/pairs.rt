//! What a `PosHeap` has, one member after another.
ghost use Rattle.std.specs.Prelude.{map, ◌≡◌};
ghost use Rattle.std.specs.Iterator.{YieldsFirstBy, item_count};
ghost use Rattle.zq_posheap.specs.Listing.{AllInRange, entry_row, lent_row};

use crate::heap::ScoredValue;
use crate::name::Name;
use indexmap::map;
use std::marker::Model;

/// The scores with their members and values, in no order. It takes no memory.
#[derive(Drop)]
pub struct Pairs<'a, V> {
    entries: map::Iter<'a, Name, ScoredValue<V>>,
}

impl<'a, V> Model for Pairs<'a, V> {
    ghost use Rattle.std.specs.Prelude.{List, map, ℕ, ℤ};
    ghost use Rattle.std.specs.Coded.{coded×, coded_list, coded_ℕ, coded_ℤ};

    ghost Value = { List ((ℤ × V) × List ℕ) };

    ghost coded = { coded_list (coded× (coded× coded_ℤ V.code) (coded_list coded_ℕ)) };

    ghost use Rattle.zq_posheap.specs.Listing.{AllInRange, entry_row};

    ghost view = { λ a. map entry_row a.entries };

    ghost invariant = { λ a. AllInRange (map entry_row a.entries) };
}

impl<'a, V> Pairs<'a, V> {
    pub(crate) fn new(entries: map::Iter<'a, Name, ScoredValue<V>>) -> Self
        requires in_range { AllInRange (map entry_row entries) }
        ensures { result ≡ map entry_row entries.entry }
    {
        Pairs { entries }
    }
}

impl<'a, V> Iterator for Pairs<'a, V> {
    type Item = ((i128, &'a [u8]), &'a V);

    ghost next_gives = { YieldsFirstBy lent_row (λ rows. rows) };

    ghost remaining = { item_count (λ rows. rows) };

    fn next(&mut self) -> Option<((i128, &'a [u8]), &'a V)> {
        let (member, held) = self.entries.next()?;
        Some(((held.score, member.as_slice()), &held.value))
    }
}
