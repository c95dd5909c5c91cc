//! The rule of all views, how they are split and joined, and what a look tells.

ghost use Rattle.zq_tally.specs.Views.{nothing, untouched};
ghost use Rattle.zq_tally.specs.Rule.{IsTallied};
ghost use Rattle.zq_tally.specs.Steps.{joined, first_out, first_of, stepped_out, stepped_of, one_less, no_steps, Learned};

use crate::view::View;
use atomic_table::{Join, Play, Split, TableRule};

/// The rule.
pub struct Counting;

impl TableRule<(), View, ()> for Counting {
    ghost holds = { λ _. IsTallied };

    ghost first = { λ _. untouched };
}

/// A load that learns what the rule says of the seat's view.
pub struct Look;

impl Play<(), View> for Look {
    ghost then = { Learned };
}

/// The second seat's passes come before those of the first.
pub struct Gather;

impl Join<View> for Gather {
    ghost both = { joined };

    ghost spent = { nothing };
}

/// The new seat gets all that the seat had.
pub struct Leave;

impl Split<View> for Leave {
    ghost left = { λ _. nothing };

    ghost right = { λ view. view };
}

/// The new seat gets the pass that was joined last.
pub struct First;

impl Split<View> for First {
    ghost left = { first_out };

    ghost right = { first_of };
}

/// The new seat gets the pass that was joined last, which has made one more step, and the total
/// counts it.
pub struct Advance;

impl Split<View> for Advance {
    ghost left = { stepped_out };

    ghost right = { stepped_of };
}

/// The new seat gets one part that was kept, for a pass that has made no step.
pub struct Deal;

impl Split<View> for Deal {
    ghost left = { one_less };

    ghost right = { no_steps };
}
