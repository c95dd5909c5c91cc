//! The two forms of a greeting.

/// The form in which a site greets.
#[derive(Clone, Copy, Debug, PartialEq, Eq)]
pub enum Form {
    /// The version 1 alone.
    Old,
    /// A range of versions and the run of the site, all of which an answer covers.
    New,
}
