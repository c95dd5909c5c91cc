//! A site that is lent.

use crate::site_pass::SitePass;
use zq_spread::Site;

/// A site that is lent, with all its passes.
#[derive(Drop)]
pub struct LentSite<'a> {
    pub site: &'a Site,
    /// A pass for each of its servers.
    pub passes: Vec<SitePass<'a>>,
    /// A pass more. Who takes it out has to put it back.
    pub spare: Option<SitePass<'a>>,
    /// Another one.
    pub other: Option<SitePass<'a>>,
}
