//! What stands at both ends of a worker's calls.

/// What workers go through before and after each of their calls. They share it: a gate that has a
/// call wait for another shows that the two are under way at once.
pub trait Gate: Sync {
    /// The call of this number is about to begin.
    fn before(&self, call: u64);

    /// The call of this number was answered.
    fn after(&self, call: u64);
}
