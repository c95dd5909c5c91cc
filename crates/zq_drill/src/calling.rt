//! What a caller does.

ghost use Rattle.rand_core.specs.Pcg32Seed.{pcg32_seed};
ghost use Rattle.rand_pcg.specs.Lcg.{Lcg};
ghost use Rattle.rand_pcg.specs.Pcg.{pcg32_of_seed};
ghost use Rattle.std.specs.Arc.{arc_value};
ghost use Rattle.std.specs.Prelude.{◌≡◌, ◌+◌, ◌%◌, ◌^◌, List, IfOk, OnOk, length};
ghost use Rattle.zq_drill.specs.SiteHandles.{site_of};
ghost use Rattle.zq_drill.specs.Requests.{request_of};
ghost use Rattle.zq_drill.specs.Rounds.{AreRounds, IsAsked, IsRound};
ghost use Rattle.zq_resp.specs.Reply.{reply_bytes};
ghost use Rattle.zq_words.specs.Words.{Word};

use crate::draws::{Draw, Draws};
use crate::fault::{DrillFault, check_reply};
use crate::site_handle::SiteHandle;
use std::alloc::Global;
use std::sync::Wait;
use zq_peers::Mailbox;
use zq_resp::{Reply, Request};
use zq_words::Command;

/// Calls the site so many times, by the words of this seed and the site's number, and tells the
/// site's link of each call.
pub fn call_rounds<R: Wait>(
    rt: &R,
    alloc: Global,
    handle: &mut SiteHandle,
    inbox: &Mailbox,
    seed: u64,
    rounds: u32,
) -> Result<(), DrillFault>
    ensures drill_site { handle.new.drill_site ≡ handle.old.drill_site }
    ensures rounds { OnOk result ((end : Lcg) × (replies : List Word) × (length replies ≡ rounds)
        × AreRounds (site_of handle.old)
        (pcg32_of_seed (pcg32_seed 16 ((seed + (arc_value handle.old.drill_site).number) % 2 ^ 64)))
        end handle.old.pass handle.new.pass replies) }
{
    let number = u64::from(handle.drill_site.number.value());
    let mut draws = Draws::new(seed.wrapping_add(number));
    for _round in 0..rounds {
        let draw = draws.next();
        call_once(rt, alloc, handle, &draw)?;
        inbox.tick(rt);
    }
    Ok(())
}

/// Calls the site with the command of these words.
fn call_once<R: Wait>(
    rt: &R,
    alloc: Global,
    handle: &mut SiteHandle,
    draw: &Draw,
) -> Result<(), DrillFault>
    ensures drill_site { handle.new.drill_site ≡ handle.old.drill_site }
    ensures called { OnOk result ((reply : Word)
        × IsRound (site_of handle.old) draw.now reply handle.old.pass handle.new.pass) }
{
    let request = draw.request(alloc)?;
    let reply = ask(rt, alloc, handle, &request, draw)?;
    check_reply(&reply)
}

/// The site's reply to the request, where there was memory to read it: each request of a draw is a
/// command.
fn ask<R: Wait>(
    rt: &R,
    alloc: Global,
    handle: &mut SiteHandle,
    request: &Request,
    draw: &Draw,
) -> Result<Reply, DrillFault>
    ensures drill_site { handle.new.drill_site ≡ handle.old.drill_site }
    ensures asked { IfOk result
        (λ reply. IsAsked (site_of handle.old) request.now draw.now
        (reply_bytes reply) handle.old.pass handle.new.pass) }
{
    match Command::read(alloc, request) {
        Ok(command) => {
            let (w1, w2) = (u64::from(draw.first), u64::from(draw.second));
            Ok(handle.call(rt, alloc, &command, w1, w2))
        }
        Err(_) => Err(DrillFault::NoMemory),
    }
}
