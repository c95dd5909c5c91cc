//! A site that was made.

use zq_spread::{Pass, Site};

/// A site that was made, with all its passes.
#[derive(Drop)]
pub struct MadeSite {
    pub site: Site,
    pub passes: Vec<Pass>,
}
