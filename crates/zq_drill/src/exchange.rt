//! How the sites of a drill come to have the same.

ghost use Rattle.std.specs.Prelude.{◌≡◌, ◌++◌, ◌<◌, ◌≤◌, IfErr, IfOk, OnOk, length};
ghost use Rattle.zq_drill.specs.Limits.{heap_count, site_count};
ghost use Rattle.zq_drill.specs.Meetings.{AreHandedOver, AreMeetings, IsHandedOver, pair_of, round, to_each, to_one};
ghost use Rattle.zq_drill.specs.SiteHandles.{places_of, site_of};

use crate::drill_site::HEAPS;
use crate::fault::DrillFault;
use crate::site_handle::SiteHandle;
use std::alloc::Global;
use std::sync::Wait;
use zq_merge::{read_state, write_state};
use zq_posheap::Seeded;
use zq_shard::Shard;

/// The heap as it comes out of its bytes.
fn carried(alloc: Global, shard: &Shard) -> Result<Shard, DrillFault>
    ensures same { IfOk result (λ other. other ≡ shard.now) }
    ensures memory { IfErr result (λ fault. fault ≡ DrillFault.NoMemory) }
{
    let bytes = write_state(alloc, shard)?;
    match read_state(alloc, &bytes, Seeded::new(0)) {
        Ok(shard) => Ok(shard),
        Err(_) => Err(DrillFault::NoMemory),
    }
}

/// Merges a heap of the sender into the receiver, over its bytes.
fn hand_over<R: Wait>(
    rt: &R,
    alloc: Global,
    sender: &mut SiteHandle,
    receiver: &mut SiteHandle,
    heap: u8,
) -> Result<(), DrillFault>
    requires { heap < heap_count }
    ensures sender { sender.new.drill_site ≡ sender.old.drill_site }
    ensures receiver { receiver.new.drill_site ≡ receiver.old.drill_site }
    ensures handed { OnOk result
        (IsHandedOver (site_of sender.old)
        (site_of receiver.old) heap sender.old.pass sender.new.pass receiver.old.pass
        receiver.new.pass) }
{
    let copy = sender.state(rt, alloc, heap)?;
    let shard = carried(alloc, &copy)?;
    receiver.merge(rt, alloc, &shard)?;
    Ok(())
}

/// Merges each heap of the sender into the receiver, over its bytes, in rising order.
fn hand_all<R: Wait>(
    rt: &R,
    alloc: Global,
    sender: &mut SiteHandle,
    receiver: &mut SiteHandle,
) -> Result<(), DrillFault>
    ensures sender { sender.new.drill_site ≡ sender.old.drill_site }
    ensures receiver { receiver.new.drill_site ≡ receiver.old.drill_site }
    ensures handed { OnOk result
        (AreHandedOver (site_of sender.old)
        (site_of receiver.old) heap_count sender.old.pass sender.new.pass receiver.old.pass
        receiver.new.pass) }
{
    for heap in 0..HEAPS {
        hand_over(rt, alloc, sender, receiver, heap)?;
    }
    Ok(())
}

/// Merges each heap of the sender into the receiver. A site hands nothing to itself.
fn meet<R: Wait>(
    rt: &R,
    alloc: Global,
    handles: &mut [SiteHandle],
    receiver: usize,
    sender: usize,
) -> Result<(), DrillFault>
    requires receiver { receiver < length handles.old }
    requires sender { sender < length handles.old }
    ensures len { length handles.new ≡ length handles.old }
    ensures met { OnOk result
        (AreMeetings (pair_of receiver sender) (places_of handles.old) (places_of handles.new)) }
{
    if sender < receiver {
        let (before, after) = handles.split_at_mut(receiver);
        hand_all(rt, alloc, &mut before[sender], &mut after[0])
    } else if receiver < sender {
        let (before, after) = handles.split_at_mut(sender);
        hand_all(rt, alloc, &mut after[0], &mut before[receiver])
    } else {
        Ok(())
    }
}

/// Merges the heaps of all other sites into the receiver, in the order of their numbers.
fn gather<R: Wait>(
    rt: &R,
    alloc: Global,
    handles: &mut [SiteHandle],
    receiver: usize,
) -> Result<(), DrillFault>
    requires { receiver < length handles.old }
    ensures len { length handles.new ≡ length handles.old }
    ensures gathered { OnOk result
        (AreMeetings (to_one receiver (length handles.old)) (places_of handles.old)
        (places_of handles.new)) }
{
    for sender in 0..handles.len() {
        meet(rt, alloc, handles, receiver, sender)?;
    }
    Ok(())
}

/// Merges the heaps of all sites into every other site, in the order of the receivers' numbers.
fn exchange_all<R: Wait>(
    rt: &R,
    alloc: Global,
    handles: &mut [SiteHandle],
) -> Result<(), DrillFault>
    ensures len { length handles.new ≡ length handles.old }
    ensures exchanged { OnOk result
        (AreMeetings (to_each (length handles.old) (length handles.old)) (places_of handles.old)
        (places_of handles.new)) }
{
    for receiver in 0..handles.len() {
        gather(rt, alloc, handles, receiver)?;
    }
    Ok(())
}

/// Merges the heaps of the three sites into every other site, twice over.
pub fn exchange_twice<R: Wait>(
    rt: &R,
    alloc: Global,
    handles: &mut [SiteHandle],
) -> Result<(), DrillFault>
    requires { length handles.old ≡ site_count }
    ensures len { length handles.new ≡ length handles.old }
    ensures exchanged { OnOk result
        (AreMeetings (round ++ round) (places_of handles.old) (places_of handles.new)) }
{
    exchange_all(rt, alloc, handles)?;
    exchange_all(rt, alloc, handles)
}
