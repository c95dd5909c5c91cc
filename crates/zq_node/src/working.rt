//! Workers, each in a thread of its own.
ghost use Rattle.std.specs.List.{AllZip};
ghost use Rattle.std.specs.Prelude.{◌≡◌, [], All, IfOk, IsOk, length};
ghost use Rattle.zq_node.specs.Workers.{AreAllWorked, AreWorked};
ghost use Rattle.zq_node.specs.Duties.{AreDuties, IsDone, duties_of};
ghost use Rattle.zq_spread.specs.Passes.{IsPassOf};

use crate::duty::Duty;
use crate::gate::Gate;
use crate::job::Job;
use crate::work_fault::WorkFault;
use crate::worker::run;
use std::alloc::Global;
use std::snapshot::Snapshot;
use std::sync::Wait;
use std::thread;
use std::thread::{PromisedHandle, Scope, Threads};
use zq_resp::Reply;
use zq_spread::{Pass, Site};

type Worker<'a> = PromisedHandle<Result<(Vec<Reply>, Pass), WorkFault>, Duty<'a>>;

/// Has the site called once for each job: each list of jobs in a thread of its own, by the pass at
/// its place, one call after the other. Each call goes through the gate: `before` with the job's
/// number, the call, `after` with the number.
///
/// Gives, at the place of each list, the replies of its jobs in their order, and its pass, which is
/// the site's as before. It takes as many passes as lists. Where there is none of either it gives
/// an empty list, and starts no thread.
///
/// # Errors
///
/// `Start` where a thread could not be started, `NoMemory` where a growth was refused. The passes
/// are gone then, and the calls that were made stand; those of threads that had started go on to
/// their end, and are waited for.
pub fn work<G: Gate, R: Threads + Wait + Sync>(
    rt: &R,
    alloc: Global,
    site: &Site,
    passes: Vec<Pass>,
    jobs: Vec<Vec<Job>>,
    gate: &G,
) -> Result<Vec<(Vec<Reply>, Pass)>, WorkFault>
    requires lists { length passes.items ≡ length jobs.items }
    requires passes { All (IsPassOf site.now) passes.items }
    ensures worked { IfOk result
        (λ done. AreAllWorked site.now jobs.entry.items passes.items done.items) }
    ensures passes { IfOk result (λ done. All (λ d. IsPassOf site.now d.1) done.items) }
    ensures none { jobs.entry.items ≡ [] → IsOk result }
{
    if jobs.is_empty() {
        return Ok(Vec::new(alloc));
    }
    thread::scope(
        thread::scope_env(),
        rt,
        move |scope| -> Result<Vec<(Vec<Reply>, Pass)>, WorkFault>
            requires { (length passes.items ≡ length jobs.items)
                × All (IsPassOf site.now) passes.items }
            ensures { IfOk result
                (λ done. AreAllWorked site.entry.now jobs.entry.items passes.items done.items)
                × IfOk result (λ done. All (λ d. IsPassOf site.entry.now d.1) done.items) }
        {
            let workers = start_all(scope, rt, alloc, site, passes, jobs, gate)?;
            join_all(rt, alloc, workers)
        },
    )
}

/// Starts a thread for each list of jobs, with the pass at its place.
fn start_all<'s, 'e: 's, G: Gate, R: Threads + Wait + Sync>(
    scope: &'s Scope<'s, &'e ()>,
    rt: &'e R,
    alloc: Global,
    site: &'e Site,
    passes: Vec<Pass>,
    jobs: Vec<Vec<Job<'e>>>,
    gate: &'e G,
) -> Result<Vec<Worker<'e>>, WorkFault>
    requires lists { length passes.items ≡ length jobs.items }
    requires passes { All (IsPassOf site.now) passes.items }
    ensures duties { IfOk result
        (λ workers. AreDuties site.now jobs.entry.items passes.items (duties_of workers.items)) }
{
    let mut workers = Vec::with_capacity(alloc, jobs.len())?;
    let mut passes = passes.into_iter();
    for list in jobs {
        let Some(pass) = passes.next() else {
            unreachable!()
        };
        let duty = Duty {
            site,
            jobs: Snapshot::of(&list),
            pass: Snapshot::of(&pass),
        };
        let task = move || -> Result<(Vec<Reply>, Pass), WorkFault>
            requires { IsPassOf site.now pass }
            ensures { IfOk result
                (λ done. AreWorked site.entry.now list.entry.items done.0.items pass done.1
                × IsPassOf site.entry.now done.1) }
        { run(rt, alloc, site, pass, list, gate) };
        match scope.spawn_with(duty, task) {
            Ok(worker) => workers.push_reserved(worker),
            Err(_) => return Err(WorkFault::Start),
        }
    }
    Ok(workers)
}

/// Waits for each worker in turn, and gives what they gave.
fn join_all<R: Threads>(
    rt: &R,
    alloc: Global,
    workers: Vec<Worker>,
) -> Result<Vec<(Vec<Reply>, Pass)>, WorkFault>
    ensures done { IfOk result (λ done. AllZip IsDone (duties_of workers.entry.items) done.items) }
{
    let mut done = Vec::with_capacity(alloc, workers.len())?;
    for worker in workers {
        done.push_reserved(worker.join(rt)?);
    }
    Ok(done)
}
