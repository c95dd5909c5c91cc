//! Which run of a peer's number has its link, and whose operations are known.

ghost use Rattle.std.specs.Prelude.{◌≡◌};
ghost use Rattle.zq_site.specs.Runs.{came, goes_on, id_of, is_taken, judged, kept_of, may_take, newcomer_to, no_runs};

use std::marker::Model;
use zq_wire::{RUN, Run};

/// What tells runs apart: the name of a run's folder, and the number of its start. A copy of a
/// folder has the same name.
#[derive(Clone, Copy, Debug)]
pub struct RunId {
    /// What names the folder.
    pub name: [u8; RUN],
    /// The number of the start.
    pub start: u64,
}

/// Whether a link of the run that came may take the place of the one of the run that is there:
/// where that is up no more, where it told no run, and where both are of one name and the run that
/// came is no earlier start than the one that is there.
pub fn may_take(there: Option<RunId>, came: Option<RunId>, is_up: bool) -> bool
    ensures { result ≡ may_take there came is_up }
{
    match (is_up, there, came) {
        (false, _, _) | (true, None, _) => true,
        (true, Some(_), None) => false,
        (true, Some(run), Some(other)) => goes_on(run, other),
    }
}

/// What is known of the runs of a peer's number.
#[derive(Clone, Copy, Debug)]
pub struct Runs {
    /// The run of the latest link, where it told it.
    latest: Option<RunId>,
    /// The run whose operations this site may have, where a link was ever up: the latest start of
    /// its name that came.
    known: Option<RunId>,
    /// The run of the latest link, where it does not go on from the one that is known, until it is
    /// judged.
    newcomer: Option<Run>,
}

impl Model for Runs {
    ghost use Rattle.zq_site.specs.Runs.{KnownRuns};

    ghost Value = { KnownRuns };

    ghost view = { λ runs. record {
      latest = runs.latest;
      known = runs.known;
      newcomer = runs.newcomer;
    } };

    ghost inverse = { λ runs. record {
      latest = runs.latest;
      known = runs.known;
      newcomer = runs.newcomer;
    } };
}

impl Runs {
    /// No link was ever up.
    pub fn none() -> Runs
        ensures { result ≡ no_runs }
    {
        Runs {
            latest: None,
            known: None,
            newcomer: None,
        }
    }

    /// A link of this run comes. It says whether it may take the place of what is there.
    pub fn come(&mut self, run: Option<Run>, is_up: bool) -> bool
        ensures taken { result ≡ is_taken run is_up self.old }
        ensures after { self.new ≡ came run is_up self.old }
    {
        let Runs { latest, known, .. } = *self;
        let id = id_of(run);
        if !may_take(latest, id, is_up) {
            return false;
        }
        let newcomer = newcomer_to(known, run);
        let known = kept_of(known, id);
        *self = Runs {
            latest: id,
            known,
            newcomer,
        };
        true
    }

    /// The run of the latest link, where it does not go on from the one that is known.
    pub fn newcomer(&self) -> Option<Run>
        ensures { result ≡ self.now.newcomer }
    {
        self.newcomer
    }

    /// The run of the latest link is known from now on.
    pub fn know(&mut self)
        ensures { self.new ≡ judged self.old }
    {
        let Runs {
            latest,
            known,
            newcomer,
        } = *self;
        let known = match newcomer {
            Some(_) => id_of(newcomer),
            None => known,
        };
        *self = Runs {
            latest,
            known,
            newcomer: None,
        };
    }
}

/// What tells a run that was told from others.
fn id_of(run: Option<Run>) -> Option<RunId>
    ensures { result ≡ id_of run }
{
    match run {
        Some(run) => {
            let Run { name, start, .. } = run;
            Some(RunId { name, start })
        }
        None => None,
    }
}

/// Whether the other is of the name of the run, and no earlier start than that.
fn goes_on(run: RunId, other: RunId) -> bool
    ensures { result ≡ goes_on run other }
{
    run.name.as_slice() == other.name.as_slice() && run.start <= other.start
}

/// The run that is known once the other took its place: the other, where none is known, or where it
/// goes on from the one that is.
fn kept_of(known: Option<RunId>, other: Option<RunId>) -> Option<RunId>
    ensures { result ≡ kept_of known other }
{
    match (known, other) {
        (None, _) => other,
        (Some(run), Some(id)) if goes_on(run, id) => other,
        (Some(_), _) => known,
    }
}

/// A run that was told, where it does not go on from the one that is known.
fn newcomer_to(known: Option<RunId>, run: Option<Run>) -> Option<Run>
    ensures { result ≡ newcomer_to known run }
{
    match (known, id_of(run)) {
        (Some(known), Some(id)) if !goes_on(known, id) => run,
        _ => None,
    }
}
