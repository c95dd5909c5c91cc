//! What is shown of a site, and how it is told to end.

ghost use Rattle.std.specs.Prelude.{◌≡◌};
ghost use Rattle.zq_site.specs.Fronts.{readiness_of};

use crate::halt::Halt;
use crate::progress::Stage;
use crate::sizes::Sizes;
use crate::survey::Survey;
use std::sync::Wait;
use std::sync::atomic::{AtomicBool, Ordering};
use std::time::{Clock, Duration};
use zq_admin::Readiness;

/// What is shown of a site, and how it is told to end. Its threads share it.
#[derive(Drop)]
pub struct Front {
    /// Whether it was told to end.
    stops: AtomicBool,
    /// Whether it serves no client any more, and ends once its peers have what it made.
    leaves: AtomicBool,
    /// Whether it lacks something of what its peers had as it began.
    follows: AtomicBool,
    /// Whether its peers have what it made.
    passed_on: Halt,
    /// Its largest keys.
    pub survey: Survey,
    /// How large its heaps are.
    pub sizes: Sizes,
}

impl Front {
    /// Of a site that begins.
    pub fn new() -> Front {
        Front {
            stops: AtomicBool::new(false),
            leaves: AtomicBool::new(false),
            follows: AtomicBool::new(false),
            passed_on: Halt::new(),
            survey: Survey::new(),
            sizes: Sizes::new(),
        }
    }

    /// The site is told to end. It says whether it was told so before.
    pub fn stop(&self) -> bool {
        self.stops.swap(true, Ordering::SeqCst)
    }

    /// Whether the site was told to end.
    pub fn stops(&self) -> bool {
        self.stops.load(Ordering::SeqCst)
    }

    /// The site serves no client any more.
    pub fn leave(&self) {
        self.leaves.store(true, Ordering::SeqCst);
    }

    /// Whether the site serves no client any more, and ends once its peers have what it made.
    pub fn leaves(&self) -> bool {
        self.leaves.load(Ordering::SeqCst)
    }

    /// The site is so far.
    pub fn show(&self, stage: Stage) {
        self.follows.store(follows(stage), Ordering::SeqCst);
    }

    /// Its peers have what the site made.
    pub fn pass_on<R: Wait>(&self, rt: &R) {
        self.passed_on.tell(rt);
    }

    /// Waits until its peers have what the site made, and no longer than this. It says whether they
    /// have.
    pub fn wait<R: Wait + Clock>(&self, rt: &R, time: Duration) -> bool {
        self.passed_on.wait(rt, time)
    }

    /// How ready the site is, which another run may have fenced, and which may wait for its peers.
    pub fn readiness(&self, is_fenced: bool, waits: bool) -> Readiness {
        let follows = self.follows.load(Ordering::SeqCst);
        readiness_of(is_fenced, self.stops(), waits, follows)
    }
}

/// Whether a site that is so far lacks something of what its peers had as it began.
fn follows(stage: Stage) -> bool {
    match stage {
        Stage::Looks | Stage::Follows => true,
        Stage::Hears | Stage::Works => false,
    }
}

/// How ready a site is: whether another run used its number, it was told to end, it waits for its
/// peers, or it lacks something of what they had. The first of these that holds is said.
fn readiness_of(is_fenced: bool, stops: bool, waits: bool, follows: bool) -> Readiness
    ensures { result ≡ readiness_of is_fenced stops waits follows }
{
    match (is_fenced, stops, waits, follows) {
        (true, _, _, _) => Readiness::Fenced,
        (false, true, _, _) => Readiness::Stops,
        (false, false, true, _) => Readiness::Waits,
        (false, false, false, true) => Readiness::Follows,
        (false, false, false, false) => Readiness::Ready,
    }
}
