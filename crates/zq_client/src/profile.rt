//! What a site tells of itself.

use crate::password::Password;

/// What a site tells of itself to its clients, and what it asks of them. It stays as it is while
/// the site runs.
#[derive(Clone, Copy, Debug)]
pub struct Profile {
    /// The password that clients have to show; with `None` they need none.
    pub password: Option<Password>,
    /// The version of the program.
    pub version: &'static str,
    /// How many names of commands the site knows.
    pub commands: u32,
    /// The most bytes of memory that commands may add to; 0 for no limit.
    pub max_memory: u64,
    /// The seconds after which a silent connection is closed; 0 for never.
    pub timeout: u64,
}
