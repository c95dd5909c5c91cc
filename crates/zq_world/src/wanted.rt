//! Which events merge an image that stood at which moment.

ghost use Rattle.std.specs.Prelude.{IfErr, IfOk, OnOk, Some, Vec, [], length, map, slice_get, ◌≡◌, ℕ};
ghost use Rattle.std.specs.declared.alloc.Global as allocator;
ghost use Rattle.zq_world.specs.Play.{event_of};
ghost use Rattle.zq_world.specs.Wanted.{AreWanted, IsWith, places_in};

use crate::event::Event;
use crate::faults::PlayFault;
use std::alloc::Global;

/// For each number of events before an event of these, the places of the merges whose moment it is.
pub(crate) fn wanted_at(alloc: Global, events: &[Event]) -> Result<Vec<Vec<usize>>, PlayFault>
    ensures memory { IfErr result (λ fault. fault ≡ PlayFault.NoMemory) }
    ensures number { IfOk result (λ wanted. length wanted.items ≡ length events.now) }
    ensures wanted { IfOk result
        (λ wanted. AreWanted (length events.now) (map event_of events.now)
        (places_in wanted.items)) }
{
    let mut wanted = no_places(alloc, events.len())?;
    for place in 0..events.len() {
        if let Event::Merge { moment, .. } = &events[place] {
            want(&mut wanted, *moment, place)?;
        }
    }
    Ok(wanted)
}

/// No place for each of so many moments.
fn no_places(alloc: Global, moments: usize) -> Result<Vec<Vec<usize>>, PlayFault>
    ensures memory { IfErr result (λ fault. fault ≡ PlayFault.NoMemory) }
    ensures number { IfOk result (λ wanted. length wanted.items ≡ moments) }
    ensures none { IfOk result (λ wanted. (moment : ℕ) (places : Vec ℕ allocator.Global) →
        slice_get wanted.items moment ≡ Some places → places.items ≡ []) }
{
    let mut wanted = Vec::new(alloc);
    for _moment in 0..moments {
        wanted.reserve(1)?;
        wanted.push_reserved(Vec::new(alloc));
    }
    Ok(wanted)
}

/// Adds a place to those of a moment, if that is one of them.
fn want(wanted: &mut Vec<Vec<usize>>, moment: usize, place: usize) -> Result<(), PlayFault>
    ensures memory { IfErr result (λ fault. fault ≡ PlayFault.NoMemory) }
    ensures with_it { OnOk result
        (IsWith moment place (places_in wanted.old.items) (places_in wanted.new.items)) }
{
    if moment < wanted.len() {
        let places = &mut wanted[moment];
        places.reserve(1)?;
        places.push_reserved(place);
    }
    Ok(())
}
