//! How a case ends.

/// What a call said that was tried.
#[derive(Clone, Copy, PartialEq, Eq)]
pub enum Tried {
    /// It did what it does.
    Done,
    /// It had no memory.
    Refused,
    /// It said something else.
    Other,
}

/// How a case ended.
#[derive(Clone, Copy)]
pub enum Ended {
    /// So many tries went as they are owed, and no memory was missed.
    Owed(usize),
    /// The call had no memory. So much of it stands, nothing else has changed, and the same call
    /// once more ended as one with memory does.
    Refused(usize),
    /// Something was lost, or came otherwise than it is owed.
    Wrong,
}

/// How a case ended in which the call was tried, and once more where it had no memory: `kept` says
/// whether all was as before it then, and `owed` whether all was as it is owed in the end.
pub fn judge(tried: Tried, kept: bool, owed: bool) -> Ended {
    match tried {
        Tried::Done if owed => Ended::Owed(1),
        Tried::Refused if kept && owed => Ended::Refused(0),
        _ => Ended::Wrong,
    }
}
