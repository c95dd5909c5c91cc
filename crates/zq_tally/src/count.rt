//! The seat of one pass.

ghost use Rattle.std.specs.Prelude.{◌≡◌, None, [], ◌∷◌};

use crate::view::View;

/// How many steps one pass has made. It is one part of its table.
#[derive(Drop)]
pub struct Count {
    pub(crate) place: atomic_table::Seat<(), View>,
    pub(crate) steps: u64,
    ghost counted: { place.me.0.steps ≡ steps ∷ [] },
    ghost one_part: { place.me.0.kept ≡ 0 },
    ghost no_total: { place.me.0.total ≡ None },
    ghost no_slot: { place.me.1 ≡ [] },
}

impl Count {
    ghost use Rattle.zq_tally.specs.Words.{steps_of};

    /// How many steps the pass has made.
    pub fn steps(&self) -> u64
        ensures { result ≡ steps_of self.now }
    {
        self.steps
    }
}
