//! How a log begins: with a start of the site that the settings say.

ghost use Rattle.std.specs.Prelude.{IfErr, IfSome, OnErr, OnOk, Some, ◌≡◌};
ghost use Rattle.zq_recovery.specs.Opening.{IsAfter, IsNextStart, IsOf};
ghost use Rattle.zq_recovery.specs.Refused.{IsNotAfter, IsOfAnother, IsOutOfOrder, IsStartRefused};

use crate::refusal::Refusal;
use zq_dots::{Rule, SiteNo};
use zq_entries::Start;

/// What the settings say of the site.
#[derive(Clone, Copy, Debug, PartialEq, Eq)]
pub struct Identity {
    /// Its number.
    pub site: SiteNo,
    /// Its number of heaps, 1 to 16.
    pub heaps: u8,
    /// The rule of its scores.
    pub rule: Rule,
}

/// Notes a start: the first one, or one after that which was noted before.
pub(crate) fn note_start(
    identity: &Identity,
    noted: &mut Option<Start>,
    start: &Start,
) -> Result<(), Refusal>
    ensures next { OnOk result (IsNextStart identity.now noted.old start.now) }
    ensures noted { OnOk result (noted.new ≡ Some start.now) }
    ensures refused { OnErr result (noted.new ≡ noted.old) }
    ensures cause { IfErr result (λ r. IsStartRefused identity.now noted.old start.now r) }
{
    judge_identity(identity, start)?;
    judge_order(noted, start)?;
    *noted = Some(*start);
    Ok(())
}

/// Whether the log is of the site that the settings say.
fn judge_identity(identity: &Identity, start: &Start) -> Result<(), Refusal>
    ensures same { OnOk result (IsOf identity.now start.now) }
    ensures another { IfErr result (λ r. IsOfAnother identity.now start.now r) }
{
    if start.site != identity.site {
        return Err(Refusal::OtherSite);
    }
    if start.heaps != identity.heaps {
        return Err(Refusal::OtherHeaps);
    }
    if start.rule != identity.rule {
        return Err(Refusal::OtherRule);
    }
    Ok(())
}

/// Whether a start comes after the one before.
fn judge_order(noted: &Option<Start>, start: &Start) -> Result<(), Refusal>
    ensures after { OnOk result (IfSome noted.now (λ before. IsAfter before start.now)) }
    ensures order { IfErr result (λ r. IsOutOfOrder noted.now start.now r) }
{
    match noted {
        None => Ok(()),
        Some(before) => judge_after(before, start),
    }
}

/// Whether a start is of the same folder as the one before, and has a higher number.
fn judge_after(before: &Start, start: &Start) -> Result<(), Refusal>
    ensures after { OnOk result (IsAfter before.now start.now) }
    ensures order { IfErr result (λ r. IsNotAfter before.now start.now r) }
{
    if start.folder != before.folder {
        return Err(Refusal::OtherFolder);
    }
    if start.number <= before.number {
        return Err(Refusal::OldStart);
    }
    Ok(())
}
