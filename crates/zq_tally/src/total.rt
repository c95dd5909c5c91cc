//! The seat of the total.

ghost use Rattle.std.specs.Prelude.{◌≡◌, Some, []};

use crate::view::View;

/// How many steps all passes of a table have made, with the parts that no pass has. Counts can be
/// joined in it.
#[derive(Drop)]
pub struct Total {
    pub(crate) place: atomic_table::Seat<(), View>,
    pub(crate) steps: u64,
    ghost counted: { place.me.0.total ≡ Some steps },
    ghost no_slot: { place.me.1 ≡ [] },
}

impl Total {
    ghost use Rattle.zq_tally.specs.Words.{total_of};

    /// How many steps all passes have made.
    pub fn steps(&self) -> u64
        ensures { result ≡ total_of self.now }
    {
        self.steps
    }
}
