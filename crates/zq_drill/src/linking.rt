//! What a link thread of a drill does.

ghost use Rattle.rand_core.specs.Pcg32Seed.{pcg32_seed};
ghost use Rattle.rand_pcg.specs.Pcg.{pcg32_of_seed};
ghost use Rattle.std.specs.Prelude.{◌≡◌, ◌+◌, ◌%◌, ◌^◌, ◌∷◌, [], IfOk, List, OnOk, replicate};
ghost use Rattle.zq_drill.specs.Limits.{site_count};
ghost use Rattle.zq_links.specs.declared.message.Message.{Message as Messages};
ghost use Rattle.zq_links.specs.declared.message.Message.TheVariants.{Stop};
ghost use Rattle.zq_peers.specs.Moves.{AreTaken};

use crate::drill_site::SITES;
use crate::site_handle::SiteHandle;
use std::alloc::{AllocError, Global};
use std::sync::Wait;
use zq_dots::SiteNo;
use zq_node::Node;
use zq_peers::{Inbox, Link, Lossy, Mailbox, Silent, Straight, others};
use zq_posheap::Seeded;

/// What carries the frames of the site of this number: a faulty link to each site, which holds
/// nothing back yet, with words of a `Pcg32` of the seed plus 8 plus the number. What the links
/// pass on goes straight into the mailboxes.
fn faulty<'a, R: Wait>(
    rt: &'a R,
    alloc: Global,
    number: SiteNo,
    inboxes: &'a [Mailbox],
    seed: u64,
) -> Result<Lossy<Straight<'a, R>>, AllocError>
    ensures links { IfOk result (λ lossy. lossy.links.items ≡ replicate site_count []) }
    ensures words { IfOk result
        (λ lossy. lossy.words ≡ pcg32_of_seed (pcg32_seed 16 ((seed + (8 + number)) % 2 ^ 64))) }
{
    let words = seed.wrapping_add(8 + u64::from(number.value()));
    Lossy::new(alloc, SITES, words, Straight::new(rt, number, inboxes))
}

/// Hears what comes to the site's inbox, and answers over links that fail by the words of this
/// seed, until it is to stop.
#[tactic(auto, unfolding(zq_model::specs::Sets::SITES))]
pub fn run_link<R: Wait, I: Inbox>(
    rt: &R,
    alloc: Global,
    handle: SiteHandle,
    inbox: &mut I,
    inboxes: &[Mailbox],
    seed: u64,
) -> Result<(), AllocError>
    ensures { OnOk result ((messages : List Messages)
        × AreTaken I.gives inbox.old inbox.new (Stop ∷ messages)) }
{
    let SiteHandle { drill_site, pass } = handle;
    let number = drill_site.number;
    let mut carrier = faulty(rt, alloc, number, inboxes, seed)?;
    let link = Link {
        others: others(alloc, number, SITES)?,
        hasher: Seeded::new(0),
    };
    let mut node = Node::new(alloc, &drill_site.site, pass);
    link.attend(rt, alloc, inbox, &mut node, &mut carrier, &mut Silent);
    Ok(())
}
