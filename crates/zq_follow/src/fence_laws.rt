//! Laws of how a site finds out that another run used its number. The functions do nothing: each
//! stands for its contract.

ghost use Rattle.zq_follow.specs.FenceLaws as laws;

/// Where each operation of a site's number was made by its only run, and so is among those that the
/// site has, no peer knows more of them than the site, whatever frame tells what it knows: its
/// vector, or an operation.
pub fn an_only_run_is_never_fenced()
    ensures vectors { laws.VectorsFenceNobody }
    ensures operations { laws.OperationsFenceNobody }
{}
