//! The members of a key, one after another.

ghost use Rattle.std.specs.Iterator.{YieldsFirstBy, item_count};
ghost use Rattle.zq_queue.specs.Lent.{lent_turned};

use crate::few::Member;
use std::marker::Model;
use zq_entry::Entry;
use zq_posheap::Pairs;

/// What is left of either form.
#[derive(Drop)]
pub(crate) enum Left<'a> {
    Few(&'a [Member]),
    Many(Pairs<'a, Entry>),
}

/// The members of a key with their entries, in no order. It takes no memory.
#[derive(Drop)]
pub(crate) struct Each<'a> {
    pub(crate) left: Left<'a>,
}

impl<'a> Model for Each<'a> {
    ghost use Rattle.std.specs.Prelude.{List, ℕ};
    ghost use Rattle.std.specs.Coded.{coded×, coded_list, coded_ℕ};
    ghost use Rattle.zq_model.specs.Codes.{entry_code};
    ghost use Rattle.zq_model.specs.Image.{Entry as ModelEntry};

    ghost Value = { List (ModelEntry × List ℕ) };

    ghost coded = { coded_list (coded× entry_code (coded_list coded_ℕ)) };

    ghost use Rattle.zq_queue.specs.Left.{rows_left};

    ghost view = { λ a. rows_left a.left };
}

impl<'a> Iterator for Each<'a> {
    type Item = (&'a [u8], &'a Entry);

    ghost next_gives = { YieldsFirstBy lent_turned (λ rows. rows) };

    ghost remaining = { item_count (λ rows. rows) };

    fn next(&mut self) -> Option<(&'a [u8], &'a Entry)> {
        match &mut self.left {
            Left::Few(list) => {
                let (first, others) = list.split_first()?;
                *list = others;
                Some((first.name.as_slice(), &first.entry))
            }
            Left::Many(pairs) => {
                let ((_, member), entry) = pairs.next()?;
                Some((member, entry))
            }
        }
    }
}
