//! Rows: a member of a key with its additions.

use zq_entry::{Addition, Entry};

/// A member of a key with its additions by rising site.
#[derive(Debug, Drop)]
pub struct Row {
    pub key: Vec<u8>,
    pub member: Vec<u8>,
    pub additions: Vec<Addition>,
}

/// A member of a key with its entry, which a shard lends.
#[derive(Clone, Copy)]
pub struct RowRef<'a> {
    pub key: &'a [u8],
    pub member: &'a [u8],
    pub entry: &'a Entry,
}
