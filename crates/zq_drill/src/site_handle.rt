//! `SiteHandle`.

ghost use Rattle.std.specs.Arc.{arc_value};
ghost use Rattle.zq_session.specs.PassFacts.{pass_fact};
ghost use Rattle.zq_spread.specs.Passes.{IsPassOf};

use crate::drill_site::DrillSite;
use std::sync::Arc;
use zq_spread::Pass;

/// A site of a drill, and one of the passes by which it is used.
#[derive(Drop)]
pub struct SiteHandle {
    pub(crate) drill_site: Arc<DrillSite>,
    pub(crate) pass: Pass,
    pub(crate) ghost own: { IsPassOf (arc_value drill_site).site pass } by { pass_fact (arc_value drill_site).site pass },
}
