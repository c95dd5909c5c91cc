//! How much the program's log says.

/// The least severe lines that the program's log says: it says those and more severe ones.
#[derive(Clone, Copy, Debug, PartialEq, Eq)]
pub enum LogLevel {
    /// What went wrong, and what somebody may have to do something about.
    Warn,
    /// What happened beside that.
    Info,
    /// What helps to find out why.
    Debug,
}
