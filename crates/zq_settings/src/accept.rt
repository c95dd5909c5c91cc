//! Whom a site accepts.

/// Which sites of greater numbers a site accepts, where they agree with it.
#[derive(Clone, Copy, Debug, PartialEq, Eq)]
pub enum Accept {
    /// All of them.
    Any,
    /// Those among its peers alone.
    Listed,
}
