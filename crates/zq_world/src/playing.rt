//! Worlds, played event by event.

ghost use Rattle.std.specs.Prelude.{IfErr, IfOk, IsErrOf, OnOk, Some, length, map, true, ◌+◌, ◌↔◌, ◌≡◌, ℕ};
ghost use Rattle.zq_dots.specs.Rule.{rule_of};
ghost use Rattle.zq_model.specs.Rule as model;
ghost use Rattle.zq_semantics.specs.Events.{Run, is_possible};
ghost use Rattle.zq_semantics.specs.Runs.{first_missing};
ghost use Rattle.zq_world.specs.Keeping.{IsReady};
ghost use Rattle.zq_world.specs.Play.{Holds, Played, after, event_of, run_of};
ghost use Rattle.zq_world.specs.World.{IsPlayed, IsSized};

use crate::asking::ask;
use crate::event::Event;
use crate::faults::PlayFault;
use crate::keeping::{keep, no_frames};
use crate::merging::merge;
use crate::opening::opening;
use crate::player::Player;
use crate::taking::hand;
use crate::wanted::wanted_at;
use crate::world::World;
use std::alloc::Global;
use std::mem;
use zq_dots::Rule;

/// Plays events in a world of so many sites, of so many heaps each, whose members have the greatest
/// of their values as their scores. See [`play_ruled`].
pub fn play(alloc: Global, sites: u8, heaps: u8, events: &[Event]) -> Result<World, PlayFault>
    ensures bounds { IsErrOf result PlayFault.Bounds ↔ (IsSized sites heaps → ⊥) }
    ensures missing { (place : ℕ) → IsErrOf result (PlayFault.NoSuch place) →
        first_missing model.Greatest heaps sites (map event_of events.now) ≡ Some place }
    ensures played { IfOk result
        (λ world. IsPlayed model.Greatest heaps sites (map event_of events.now) world) }
{
    play_ruled(alloc, sites, heaps, Rule::High, events)
}

/// Plays events in a world of so many sites, of so many heaps each, whose scores follow the rule.
/// All is empty at first.
///
/// `Bounds` where the number of sites is not 1 to 64 or that of heaps not 2 to 16, else `NoSuch` of
/// the place of the first event that names what does not exist then, unless memory was refused
/// before it: `NoMemory`.
pub fn play_ruled(
    alloc: Global,
    sites: u8,
    heaps: u8,
    rule: Rule,
    events: &[Event],
) -> Result<World, PlayFault>
    ensures bounds { IsErrOf result PlayFault.Bounds ↔ (IsSized sites heaps → ⊥) }
    ensures missing { (place : ℕ) → IsErrOf result (PlayFault.NoSuch place) →
        first_missing (rule_of rule) heaps sites (map event_of events.now) ≡ Some place }
    ensures played { IfOk result
        (λ world. IsPlayed (rule_of rule) heaps sites (map event_of events.now) world) }
{
    if sites < 1 || 64 < sites || heaps < 2 || 16 < heaps {
        return Err(PlayFault::Bounds);
    }
    let mut player = opening(alloc, sites, heaps, rule)?;
    let wanted = wanted_at(alloc, events)?;
    let mut frames = no_frames(alloc, events.len())?;
    for place in 0..events.len() {
        keep(alloc, &player, events, place, &wanted[place], &mut frames)?;
        let event = &events[place];
        if !is_there(event, sites, heaps, player.made.len(), place) {
            return Err(PlayFault::NoSuch(place));
        }
        let frame = mem::replace(&mut frames[place], Vec::new(alloc));
        step(alloc, &mut player, event, &frame)?;
    }
    Ok(ended(player))
}

/// Whether what an event names exists, after so many events that made so many operations.
fn is_there(event: &Event, sites: u8, heaps: u8, made: usize, events: usize) -> bool
    ensures { (r : Run) → length r.now.made ≡ made → length r.past ≡ events + 1 →
        result ≡ is_possible heaps sites r (event_of event.now) }
{
    match event {
        Event::Do { site, .. } => *site < sites,
        Event::Take { site, op } => *site < sites && *op < made,
        Event::Merge {
            site,
            from,
            heap,
            moment,
        } => *site < sites && (*from < sites && (*heap < heaps && *moment <= events)),
    }
}

/// Plays an event. It fails only where memory is refused.
fn step(alloc: Global, player: &mut Player, event: &Event, frame: &[u8]) -> Result<(), PlayFault>
    requires held { (played : Played) × Holds played player.old
        × (is_possible played.heaps played.sites (run_of played) (event_of event.now) ≡ true)
        × IsReady played (length (run_of played).past) (event_of event.now) frame.now }
    ensures held { OnOk result ((played : Played) → Holds played player.old →
        is_possible played.heaps played.sites (run_of played) (event_of event.now) ≡ true →
        IsReady played (length (run_of played).past) (event_of event.now) frame.now →
        Holds (after played (event_of event.now)) player.new) }
    ensures memory { IfErr result (λ fault. fault ≡ PlayFault.NoMemory) }
{
    match event {
        Event::Do {
            site,
            request,
            w1,
            w2,
        } => ask(alloc, player, *site, request, (*w1, *w2)),
        Event::Take { site, op } => hand(alloc, player, *site, *op),
        Event::Merge { site, .. } => merge(alloc, player, *site, frame),
    }
}

/// The world where the events end.
fn ended(player: Player) -> World
    requires held { (played : Played) × Holds played player }
    ensures played { (played : Played) → Holds played player →
        IsPlayed played.rule played.heaps played.sites played.events result }
{
    let Player {
        sites,
        made,
        answers,
    } = player;
    World {
        sites,
        made,
        answers,
    }
}
