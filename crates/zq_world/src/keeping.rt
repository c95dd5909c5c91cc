//! The frames of images that later events merge, which are written when their moment is there.

ghost use Rattle.std.specs.Prelude.{IfErr, IfOk, IfSome, None, Ok, OnOk, Some, length, map, slice_get, ◌+◌, ◌<◌, ◌≡◌, ℕ};
ghost use Rattle.zq_model.specs.Sets.{IsIn};
ghost use Rattle.zq_semantics.specs.Events as runs;
ghost use Rattle.zq_world.specs.Keeping.{AreReady};
ghost use Rattle.zq_world.specs.Steps.{IsElsewhere, IsFrame};
ghost use Rattle.zq_world.specs.Play.{Holds, Played, event_of};

use crate::event::Event;
use crate::faults::PlayFault;
use crate::player::Player;
use std::alloc::Global;
use zq_journal::Book;
use zq_merge::write_state;

/// No frame for each of so many events.
pub(crate) fn no_frames(alloc: Global, events: usize) -> Result<Vec<Vec<u8>>, PlayFault>
    ensures memory { IfErr result (λ fault. fault ≡ PlayFault.NoMemory) }
    ensures length { IfOk result (λ frames. length frames.items ≡ events) }
{
    let mut frames = Vec::new(alloc);
    for _place in 0..events {
        frames.reserve(1)?;
        frames.push_reserved(Vec::new(alloc));
    }
    Ok(frames)
}

/// Writes the frames of the images that the sites have at this moment, which the events of these
/// places merge.
pub(crate) fn keep(
    alloc: Global,
    player: &Player,
    events: &[Event],
    at: usize,
    places: &[usize],
    frames: &mut Vec<Vec<u8>>,
) -> Result<(), PlayFault>
    requires held { (played : Played) × Holds played player.now × (length played.events ≡ at) }
    requires number { length frames.old.items ≡ length events.now }
    requires inside { (place : ℕ) → IsIn place places.now → place < length events.now }
    requires wanted { (place site from heap : ℕ) →
        slice_get (map event_of events.now) place ≡ Some (runs.Merge site from heap at) →
        IsIn place places.now }
    ensures memory { IfErr result (λ fault. fault ≡ PlayFault.NoMemory) }
    ensures number { OnOk result (length frames.new.items ≡ length frames.old.items) }
    ensures ready { OnOk result ((played : Played) → Holds played player.now →
        length played.events ≡ at →
        AreReady played at at (map event_of events.now)
        (map (λ frame. frame.items) frames.old.items) →
        AreReady played (at + 1) at (map event_of events.now)
        (map (λ frame. frame.items) frames.new.items)) }
{
    for i in 0..places.len() {
        let place = places[i];
        if let Some(frame) = frame_for(alloc, &player.sites, &events[place], at)? {
            frames[place] = frame;
        }
    }
    Ok(())
}

/// The frame of the image that an event merges, where it is one that the sites have at this moment.
fn frame_for(
    alloc: Global,
    sites: &[Vec<Book>],
    event: &Event,
    at: usize,
) -> Result<Option<Vec<u8>>, PlayFault>
    ensures none { result ≡ Ok None → IsElsewhere sites.now at (event_of event.now) }
    ensures memory { IfErr result (λ fault. fault ≡ PlayFault.NoMemory) }
    ensures some { IfOk result
        (λ frame. IfSome frame (λ bytes. IsFrame sites.now at (event_of event.now) bytes.items)) }
{
    let Event::Merge {
        from,
        heap,
        moment,
        ..
    } = event
    else {
        return Ok(None);
    };
    if *moment != at {
        return Ok(None);
    }
    let Some(books) = sites.get(*from as usize) else {
        return Ok(None);
    };
    let Some(book) = books.get(*heap as usize) else {
        return Ok(None);
    };
    let frame = write_state(alloc, book.shard())?;
    Ok(Some(frame))
}
