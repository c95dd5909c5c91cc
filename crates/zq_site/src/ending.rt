//! How a site ends that one thread serves, for another thread that waits for that.

ghost use Rattle.std.specs.Prelude.{◌≡◌};
ghost use Rattle.zq_site.specs.Endings as wanted;

use crate::times::leaving;
use std::sync::{Condvar, Mutex, Wait};
use std::time::Clock;
use zq_serve::ServeFault;

/// How far a site is.
#[derive(Clone, Copy, Debug)]
pub enum Stage {
    /// It serves.
    Serving,
    /// Another run used its number, so that it ends soon.
    Fenced,
    /// It has ended so.
    Ended(Result<(), ServeFault>),
}

/// How a site ends that one thread serves, for another thread that waits for that.
#[derive(Drop)]
pub struct Ending {
    stage: Mutex<Stage>,
    changed: Condvar,
}

impl Ending {
    /// The site serves.
    pub fn new() -> Ending {
        Ending {
            stage: Mutex::new(Stage::Serving),
            changed: Condvar::new(),
        }
    }

    /// The site has ended so.
    pub fn end<R: Wait>(&self, rt: &R, ended: Result<(), ServeFault>) {
        *self.stage.lock(rt) = Stage::Ended(ended);
        self.changed.notify_all();
    }

    /// Waits until the site has ended, and says how. Where another run used its number it waits no
    /// longer than 700 milliseconds from then on: a thread of the site may still be at work, in a
    /// long command or where the system looks up a name. Whoever ends the program then must not
    /// wait for the thread that serves the site.
    pub fn wait<R: Wait + Clock>(&self, rt: &R) -> Result<(), ServeFault> {
        let serves = |stage: &mut Stage| matches!(stage, Stage::Serving);
        let stage = self.changed.wait_while(rt, self.stage.lock(rt), serves);
        let leaves = |stage: &mut Stage| matches!(stage, Stage::Fenced);
        let (stage, _) = self
            .changed
            .wait_timeout_while(rt, stage, leaving(), leaves);
        end_of(*stage)
    }

    /// Another run used the site's number. Who waits is woken.
    pub(crate) fn fence<R: Wait>(&self, rt: &R) {
        let mut stage = self.stage.lock(rt);
        *stage = fenced(*stage);
        drop(stage);
        self.changed.notify_all();
    }
}

/// A site that serves is fenced where another run used its number, and one that has ended stays so.
fn fenced(stage: Stage) -> Stage
    ensures { result ≡ wanted.fenced stage }
{
    match stage {
        Stage::Serving | Stage::Fenced => Stage::Fenced,
        Stage::Ended(ended) => Stage::Ended(ended),
    }
}

/// How a site ends that is waited for no longer: so as it has ended, or else as one whose number
/// another run used.
fn end_of(stage: Stage) -> Result<(), ServeFault>
    ensures { result ≡ wanted.end_of stage }
{
    match stage {
        Stage::Serving | Stage::Fenced => Err(ServeFault::Fenced),
        Stage::Ended(ended) => ended,
    }
}
