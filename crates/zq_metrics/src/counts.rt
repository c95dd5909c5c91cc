//! What was counted.

ghost use Rattle.std.specs.Prelude.{◌≡◌, length};
ghost use Rattle.zq_metrics.specs.Counts as wanted;

use crate::command::{COMMANDS, Command};
use crate::timing::BUCKETS;

/// What one worker counted, or several together. Each count begins again at 0 past the last value
/// of 64 bits, as a counter of Prometheus may.
#[derive(Clone, Copy, Debug)]
pub struct Counts {
    /// How many requests of each command were answered.
    pub(crate) answered: [u64; COMMANDS],
    /// How many of them by an error.
    pub(crate) errors: [u64; COMMANDS],
    /// How many took so long, by the bounds of their time.
    pub(crate) buckets: [u64; BUCKETS],
    /// How many nanoseconds all took together.
    pub(crate) nanoseconds: u64,
}

impl Counts {
    /// Nothing was counted.
    pub fn none() -> Counts
        ensures { result ≡ wanted.none }
    {
        Counts {
            answered: [0; COMMANDS],
            errors: [0; COMMANDS],
            buckets: [0; BUCKETS],
            nanoseconds: 0,
        }
    }

    /// What was counted elsewhere is counted here too.
    pub fn add(&mut self, other: &Counts)
        ensures { wanted.AreAdded self.old other.now self.new }
    {
        add_each(&mut self.answered, &other.answered);
        add_each(&mut self.errors, &other.errors);
        add_each(&mut self.buckets, &other.buckets);
        self.nanoseconds = self.nanoseconds.wrapping_add(other.nanoseconds);
    }

    /// How many requests of a command were answered.
    pub fn answered(&self, command: Command) -> u64
        ensures { result ≡ wanted.answered_of self.now command }
    {
        self.answered[command.place()]
    }

    /// How many of them by an error.
    pub fn errors(&self, command: Command) -> u64
        ensures { result ≡ wanted.errors_of self.now command }
    {
        self.errors[command.place()]
    }
}

/// Adds to each of these counts the one at its place among others.
fn add_each(to: &mut [u64], from: &[u64])
    requires { length to.old ≡ length from.now }
    ensures added { wanted.AreAddedEach to.old from.now to.new }
{
    for place in 0..to.len() {
        to[place] = to[place].wrapping_add(from[place]);
    }
}
