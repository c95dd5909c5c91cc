//! What a site is asked to show.

/// A page whose text the site gives.
#[derive(Clone, Copy, Debug, PartialEq, Eq)]
pub enum Page {
    /// A page for people, which has nothing of the site in it, and asks for the others.
    Front,
    /// What is counted, as Prometheus reads it.
    Metrics,
    /// The other sites.
    Peers,
    /// So many of the largest keys.
    Keys(u64),
}
