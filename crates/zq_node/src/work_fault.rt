//! What workers refuse.

use std::alloc::AllocError;

/// Why the work was not done to its end.
#[derive(Clone, Copy, Debug, PartialEq, Eq)]
pub enum WorkFault {
    /// A growth was refused.
    NoMemory,
    /// A thread could not be started.
    Start,
}

impl From<AllocError> for WorkFault {
    ghost use Rattle.std.specs.Prelude.{◌≡◌};
    ghost use Rattle.zq_node.specs.declared.work_fault.WorkFault.{WorkFault};

    ghost from_gives = { λ _ fault. fault ≡ WorkFault.NoMemory };

    fn from(_error: AllocError) -> WorkFault {
        WorkFault::NoMemory
    }
}
