//! A worker: it makes the calls of a list of jobs, one after the other.
ghost use Rattle.std.specs.Prelude.{◌≡◌, IfOk, IsTrue};
ghost use Rattle.zq_node.specs.Workers.{AreWorked};
ghost use Rattle.zq_resp.specs.Reply.{is_writable, reply_bytes};
ghost use Rattle.zq_spread.specs.Dispatch.{IsCalled};
ghost use Rattle.zq_spread.specs.Passes.{IsPassOf};

use crate::gate::Gate;
use crate::job::Job;
use crate::work_fault::WorkFault;
use std::alloc::Global;
use std::sync::Wait;
use zq_resp::Reply;
use zq_spread::{Pass, Site};

/// Makes the call of a job, between the two sides of the gate.
fn call_once<G: Gate, R: Wait>(
    rt: &R,
    alloc: Global,
    site: &Site,
    pass: &mut Pass,
    job: &Job,
    gate: &G,
) -> Reply
    requires pass { IsPassOf site.now pass.old }
    ensures pass { IsPassOf site.now pass.new }
    ensures called { IsCalled site.now job.now.command job.now.w1 job.now.w2
        (reply_bytes result) pass.old pass.new }
    ensures writable { IsTrue (is_writable result) }
{
    gate.before(job.number);
    let reply = site.call(rt, alloc, pass, &job.command, job.w1, job.w2);
    gate.after(job.number);
    reply
}

/// Makes the calls of the jobs on the pass, one after the other, and gives their replies and the
/// pass back. `NoMemory` comes before the first call.
pub(crate) fn run<G: Gate, R: Wait>(
    rt: &R,
    alloc: Global,
    site: &Site,
    mut pass: Pass,
    jobs: Vec<Job>,
    gate: &G,
) -> Result<(Vec<Reply>, Pass), WorkFault>
    requires pass { IsPassOf site.now pass }
    ensures worked { IfOk result
        (λ done. AreWorked site.now jobs.entry.items done.0.items pass done.1) }
    ensures pass { IfOk result (λ done. IsPassOf site.now done.1) }
{
    let mut replies = Vec::with_capacity(alloc, jobs.len())?;
    for job in &jobs {
        replies.push_reserved(call_once(rt, alloc, site, &mut pass, job, gate));
    }
    Ok((replies, pass))
}
