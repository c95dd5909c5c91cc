//! What a worker is to do.

use crate::job::Job;
use crate::work_fault::WorkFault;
use std::snapshot::Snapshot;
use std::thread::Promise;
use zq_resp::Reply;
use zq_spread::{Pass, Site};

/// What is known of a worker's result before it is there: it is that of these jobs on this pass.
#[derive(Drop)]
pub(crate) struct Duty<'a> {
    pub(crate) site: &'a Site,
    pub(crate) jobs: Snapshot<Vec<Job<'a>>>,
    pub(crate) pass: Snapshot<Pass>,
}

impl<'a> Promise<Result<(Vec<Reply>, Pass), WorkFault>> for Duty<'a> {
    ghost use Rattle.std.specs.Prelude.{IfOk};
    ghost use Rattle.zq_node.specs.Duties.{IsDone};

    ghost kept_by = { λ duty result. IfOk result (IsDone duty) };
}
