//! Which protocol goes over a link.

/// Which protocol goes over a link that is up.
#[derive(Clone, Copy, Debug, PartialEq, Eq)]
pub enum Protocol {
    /// The peer is told what this site has, and asks for what it lacks.
    Asking,
    /// Each pushes to the other what it lacks, and gives it a whole heap at once.
    Pushing,
    /// Each pushes to the other what it lacks, and gives it a heap in pieces.
    Streaming,
}
