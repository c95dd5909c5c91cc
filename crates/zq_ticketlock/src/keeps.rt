//! What a value has to be to lie under a lock.

/// What a lock keeps of its value, and how its values follow one another.
pub trait Keeps {
    /// True of the value whenever nobody holds it.
    ghost holds: { Self → Type 0 };

    /// Of a later value and an earlier one, as where a list only grows.
    ghost follows: { Self → Self → Type 0 };

    /// A value follows itself.
    ghost reflexive: { (x : Self) → follows x x };

    /// What follows a value follows all that this one follows.
    ghost transitive: { (x y z : Self) → follows x y → follows y z → follows x z };
}
