//! What waits for the disk.

/// What waits until it is on the disk, at a site that keeps a log there. Frames to its peers do in
/// any case.
#[derive(Clone, Copy, Debug, PartialEq, Eq)]
pub enum SyncMode {
    /// Each reply.
    Always,
    /// No reply: a crash can take back what clients were told.
    Soon,
}
