//! What is said of a port where something goes wrong.

use crate::durable::Durable;
use log::{Log, warn};
use std::fmt;
use std::sync::Wait;
use std::time::{Clock, Duration};
use zq_dots::SiteNo;
use zq_loop::{PortFault, Watch};
use zq_metrics::{Closing, Counters, WorkerCounters};

/// Warns of what goes wrong at a site's port, and counts it and the time that turns take, where
/// there are counters. Where the site keeps a log, replies are written once what they tell of is on
/// the disk.
#[derive(Drop)]
pub struct Warner<'a, 'b, L: Log> {
    log: &'a L,
    site: SiteNo,
    /// What counts connections that are closed.
    counters: Option<&'b Counters>,
    /// What counts the answers of the thread's turns.
    own: Option<&'b WorkerCounters>,
    /// What stands before replies.
    durable: Option<Durable<'b>>,
}

impl<'a, 'b, L: Log> Warner<'a, 'b, L> {
    /// At this site's port, in this log and by these counters, and behind what stands before
    /// replies.
    pub fn new(
        log: &'a L,
        site: SiteNo,
        counters: Option<&'b Counters>,
        own: Option<&'b WorkerCounters>,
        durable: Option<Durable<'b>>,
    ) -> Warner<'a, 'b, L> {
        Warner {
            log,
            site,
            counters,
            own,
            durable,
        }
    }
}

impl<L: Log + Clock + Wait> Watch for Warner<'_, '_, L> {
    fn tell(&self, fault: PortFault) {
        if let Some(counters) = self.counters {
            counters.close(closing_of(fault));
        }
        let warning = Warning {
            site: self.site,
            fault,
        };
        warn!(self.log; site = self.site.value(); "{}", warning);
    }

    /// Where nothing was answered nothing is waited for.
    fn settle(&self) {
        if let Some(durable) = &self.durable
            && answers(self.own)
        {
            durable.settle(self.log);
        }
    }

    /// The clock is read where something was answered.
    fn end(&self, began: Duration) {
        if let Some(own) = self.own {
            time_turn(self.log, own, began);
        }
    }
}

/// Whether a turn has answered something: it has where that is not counted.
fn answers(own: Option<&WorkerCounters>) -> bool {
    match own {
        Some(own) => own.has_untimed(),
        None => true,
    }
}

/// Counts how long the answers of a turn took that began at this time.
fn time_turn<C: Clock>(clock: &C, own: &WorkerCounters, began: Duration) {
    let requests = own.untimed();
    if requests == 0 {
        return;
    }
    if let Ok(now) = clock.monotonic() {
        own.time(requests, nanoseconds_of(now.saturating_sub(began)));
    }
}

/// The nanoseconds of a time, as far as 64 bits go.
fn nanoseconds_of(time: Duration) -> u64 {
    u64::try_from(time.as_nanos()).unwrap_or(u64::MAX)
}

/// Why a connection is closed of which this is told.
fn closing_of(fault: PortFault) -> Closing {
    match fault {
        PortFault::Protocol => Closing::Protocol,
        PortFault::Device => Closing::Device,
        PortFault::Unread => Closing::Slow,
        PortFault::Output => Closing::Output,
    }
}

/// The words of a warning.
#[derive(Clone, Copy)]
struct Warning {
    site: SiteNo,
    fault: PortFault,
}

impl fmt::Display for Warning {
    ghost use Rattle.std.specs.Prelude.{Some, codes, decimal, ◌++◌};
    ghost use Rattle.zq_serve.specs.Warnings.{words_of};

    ghost output = { λ warning.
        Some (codes "site " ++ decimal warning.site ++ words_of warning.fault) };

    fn fmt<W: fmt::Write>(&self, f: &mut fmt::Formatter<W>) -> fmt::Result {
        let site = self.site.value();
        match self.fault {
            PortFault::Protocol => write!(f, "site {site} protocol fault"),
            PortFault::Device => write!(f, "site {site} device fault"),
            PortFault::Unread => write!(f, "site {site} unread replies"),
            PortFault::Output => write!(f, "site {site} output limit"),
        }
    }
}
