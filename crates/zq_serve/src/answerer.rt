//! What answers a worker's connections.

ghost use Rattle.std.specs.Prelude.{option_copied, ◌≡◌};
ghost use Rattle.zq_serve.specs.Inboxes.{inbox_of};
ghost use Rattle.zq_session.specs.Passing.{passed_by};

use crate::admitting::Admitting;
use crate::counting::Counting;
use crate::inboxes::Inboxes;
use crate::knowing::Knowing;
use crate::notifier::Ticks;
use crate::rewriting::Rewriting;
use crate::ticking::Ticking;
use std::sync::Wait;
use std::time::Clock;
use zq_loop::Port;
use zq_metrics::WorkerCounters;
use zq_session::{Calling, SitePass};
use zq_spread::Draws;

/// A server of the pass's site, with these draws, which answers behind the site's gate, where it
/// has one, and tells of each answer by a Tick in the site's mailbox, where it has one. Commands
/// that the site does not admit are refused, and do not wait. Requests of a site of its own process
/// are rewritten before, and some that are no commands are answered too.
fn answerer_of<'b, 'a, R: Wait + Clock>(
    rt: &'b R,
    own: &'b mut SitePass<'a>,
    draws: Draws,
    inboxes: Inboxes<'b>,
) -> Rewriting<Admitting<'b, Ticking<Calling<'b, 'a, R>, Ticks<'b, R>>>>
    ensures server { let server = result.answerer.answerer.answerer.commands in
        passed_by server.own.now server.draws ≡ passed_by own.old draws }
    ensures mailbox { option_copied result.answerer.answerer.notifier.mailbox
        ≡ inbox_of inboxes.entry own.old.site.now.number }
{
    let mailbox = inboxes.of(own.site.number());
    let answerer = Ticking {
        answerer: Calling::new(rt, own, draws, inboxes.is_alone()),
        notifier: Ticks::new(rt, mailbox, inboxes.gate()),
    };
    let answerer = Admitting {
        answerer,
        admission: inboxes.admission(),
    };
    Rewriting {
        answerer,
        rewrites: inboxes.is_alone(),
    }
}

/// The same for the connections of a port of the site, which answer some of their requests
/// themselves where the site has a process of its own. All answers are counted, where there are
/// counters.
pub fn attending_of<'b, 'a, R: Wait + Clock>(
    rt: &'b R,
    own: &'b mut SitePass<'a>,
    draws: Draws,
    inboxes: Inboxes<'b>,
    port: &'b Port,
    counters: Option<&'b WorkerCounters>,
) -> Counting<
    'b,
    Knowing<'b, Rewriting<Admitting<'b, Ticking<Calling<'b, 'a, R>, Ticks<'b, R>>>>, R>,
>
    ensures server { let server = result.answerer.answerer.answerer.answerer.answerer.commands in
        passed_by server.own.now server.draws ≡ passed_by own.old draws }
    ensures mailbox { option_copied result.answerer.answerer.answerer.answerer.notifier.mailbox
        ≡ inbox_of inboxes.entry own.old.site.now.number }
{
    let answerer = Knowing {
        answerer: answerer_of(rt, own, draws, inboxes),
        rt,
        desk: inboxes.desk(),
        port,
        counters: inboxes.counters(),
    };
    Counting { answerer, counters }
}
