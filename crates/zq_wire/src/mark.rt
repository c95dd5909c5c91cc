//! The byte behind the magic word.

/// A range of versions follows: the greeting is in the new form.
pub(crate) const RANGE: u8 = 0;

/// The version 1, and no range: the greeting is in the old form.
pub(crate) const ONE: u8 = 1;
