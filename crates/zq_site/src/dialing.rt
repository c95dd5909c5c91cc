//! What dials a peer.

ghost use Rattle.std.specs.Prelude.{◌≡◌};
ghost use Rattle.zq_site.specs.Meetings.{next_form};

use crate::caller::Caller;
use crate::link_serving::{Met, serve_link};
use crate::opening::Way;
use crate::pause::pause_after;
use crate::reaching::reach;
use crate::shared::Shared;
use crate::standing::Standing;
use crate::unreached::Unreached;
use crate::warning_log::{note_reached, tell_failed_dial, warn_unreached};
use log::Log;
use std::mem;
use std::net::{Net, TcpListener, TcpStream};
use std::random::RandomSource;
use std::sync::Wait;
use std::time::Clock;
use zq_dots::SiteNo;
use zq_settings::Peer;
use zq_wire::Form;

/// Dials a peer, and dials it again after each attempt and each end of the link, until the site
/// ends. That it cannot be reached is said once, and that it can be again; so is that it refuses
/// this site.
pub fn dial_line<N, L>(net: &N, log: &L, shared: Shared<'_>, peer: &Peer)
where
    N: Net<Listener = TcpListener, Stream = TcpStream>,
    L: Log + RandomSource + Clock + Wait,
{
    let mut last = None;
    let mut form = Form::New;
    let mut is_reached = true;
    let mut standing = Standing::Well;
    for _ in log.forever() {
        if shared.halt.is_over(log) {
            break;
        }
        let met = dial_once(net, log, shared, peer, form, &mut is_reached, &mut standing);
        form = form_after(met);
        let pause = pause_after(last, met == Met::Heard);
        if shared.halt.wait(log, pause.duration()) {
            break;
        }
        last = Some(pause);
    }
}

/// In which form a peer is greeted that was met so before: in the old form where that is what it
/// asks for, and else in the new one.
fn form_after(met: Met) -> Form
    ensures { result ≡ next_form met }
{
    match met {
        Met::Old => Form::Old,
        Met::Heard | Met::Silent | Met::Unreached => Form::New,
    }
}

/// Dials a peer, greets it in this form, and says how it was met. Where it is reached and was not
/// before, or the other way round, that is said.
fn dial_once<N, L>(
    net: &N,
    log: &L,
    shared: Shared<'_>,
    peer: &Peer,
    form: Form,
    is_reached: &mut bool,
    standing: &mut Standing,
) -> Met
where
    N: Net<Listener = TcpListener, Stream = TcpStream>,
    L: Log + RandomSource + Clock + Wait,
{
    let site = shared.settings.site;
    match reach(net, log, shared, &peer.address) {
        Ok((stream, address)) => {
            tell_reached(log, site, peer, is_reached);
            let caller = Caller {
                site: Some(peer.site),
                address,
            };
            let way = Way::Dials(form);
            serve_link(log, shared, stream, caller, &[peer.site], way, standing)
        }
        Err(why) => {
            tell_unreached(log, site, peer, why, is_reached);
            Met::Unreached
        }
    }
}

/// A peer was reached, which is said where it was not before.
fn tell_reached<L: Log>(log: &L, site: SiteNo, peer: &Peer, is_reached: &mut bool) {
    if !mem::replace(is_reached, true) {
        note_reached(log, site, peer);
    }
}

/// A peer was not reached, which is warned of where it was before.
fn tell_unreached<L: Log>(
    log: &L,
    site: SiteNo,
    peer: &Peer,
    why: Unreached,
    is_reached: &mut bool,
) {
    if mem::replace(is_reached, false) {
        warn_unreached(log, site, peer, why);
    } else {
        tell_failed_dial(log, site, peer, why);
    }
}
