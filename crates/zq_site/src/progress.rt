//! How far a site is that begins, and what it does next.

ghost use Rattle.std.specs.Prelude.{◌≡◌};
ghost use Rattle.zq_site.specs.Beginnings.{deed_next, is_asked, next_progress, next_stage, waited};

/// How far a site is that begins.
#[derive(Clone, Copy, Debug, PartialEq, Eq)]
pub enum Stage {
    /// It has not heard what its peers have.
    Hears,
    /// It has, and it is to be seen whether it lacks something of that.
    Looks,
    /// It lacks something of that.
    Follows,
    /// It has it all.
    Works,
}

/// How far a site is, and for how many seconds it has waited to hear what its peers have.
#[derive(Clone, Copy, Debug, PartialEq, Eq)]
pub struct Progress {
    /// How far it is.
    pub stage: Stage,
    /// How many seconds those are.
    pub seconds: u64,
}

/// What a site that begins sees, where a second has gone by or a frame came.
#[derive(Clone, Copy, Debug, PartialEq, Eq)]
pub struct Sight {
    /// Whether it has heard what its peers have.
    pub heard: bool,
    /// Whether it lacks something of what they had as it went to work. It is asked only where
    /// [`is_asked`] says so.
    pub behind: bool,
    /// Whether a second has gone by.
    pub beats: bool,
    /// Whether it takes no writes yet.
    pub waits: bool,
}

/// What a site that begins does.
#[derive(Clone, Copy, Debug, PartialEq, Eq)]
pub enum Deed {
    /// Nothing.
    Nothing,
    /// It goes to work: it takes writes, and has to catch up with what its peers have by now.
    GoesToWork,
    /// It takes writes, though peers were not heard, and warns of that.
    TakesWrites,
    /// It says that it has caught up.
    HasCaughtUp,
}

/// Whether a site has to see if it lacks something.
pub fn is_asked(stage: Stage, beats: bool) -> bool
    ensures { result ≡ is_asked stage beats }
{
    match stage {
        Stage::Looks => true,
        Stage::Follows => beats,
        Stage::Hears | Stage::Works => false,
    }
}

/// How far a site is that was so far, and sees this.
pub fn next_progress(progress: Progress, sight: Sight) -> Progress
    ensures { result ≡ next_progress progress sight }
{
    Progress {
        stage: next_stage(progress.stage, sight),
        seconds: seconds_after(progress, sight),
    }
}

/// How far a site is that was so far, and sees this.
fn next_stage(stage: Stage, sight: Sight) -> Stage
    ensures { result ≡ next_stage stage sight }
{
    match stage {
        Stage::Hears if sight.heard => Stage::Looks,
        Stage::Hears => Stage::Hears,
        Stage::Looks if sight.behind => Stage::Follows,
        Stage::Looks => Stage::Works,
        Stage::Follows if sight.beats && !sight.behind => Stage::Works,
        Stage::Follows => Stage::Follows,
        Stage::Works => Stage::Works,
    }
}

/// For how many seconds it has waited: one more where one has gone by and its peers are not heard.
fn seconds_after(progress: Progress, sight: Sight) -> u64
    ensures { result ≡ waited progress sight }
{
    if progress.stage == Stage::Hears && !sight.heard && sight.beats {
        progress.seconds.saturating_add(1)
    } else {
        progress.seconds
    }
}

/// What a site does that was so far, sees this, and waits for so many seconds at most.
pub fn deed_next(progress: Progress, sight: Sight, most: u64) -> Deed
    ensures { result ≡ deed_next progress sight most }
{
    match progress.stage {
        Stage::Hears if sight.heard => Deed::GoesToWork,
        Stage::Hears => {
            let is_late = seconds_after(progress, sight) >= most;
            if sight.beats && sight.waits && is_late {
                Deed::TakesWrites
            } else {
                Deed::Nothing
            }
        }
        Stage::Looks if !sight.behind => Deed::HasCaughtUp,
        Stage::Follows if sight.beats && !sight.behind => Deed::HasCaughtUp,
        Stage::Looks | Stage::Follows | Stage::Works => Deed::Nothing,
    }
}
