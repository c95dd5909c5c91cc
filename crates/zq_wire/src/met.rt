//! A peer whose greeting agrees.

use crate::run::Run;
use zq_dots::SiteNo;

/// A peer whose greeting agrees, up to the secret.
#[derive(Clone, Copy, Debug)]
pub(crate) struct Met {
    /// The peer.
    pub(crate) peer: SiteNo,
    /// The version that is spoken with it.
    pub(crate) version: u8,
    /// What it said of its run.
    pub(crate) run: Option<Run>,
}
