//! What waits, and in which order.
ghost use Rattle.std.specs.Prelude.{◌≡◌, ◌<◌};
ghost use Rattle.zq_wire.specs.Topic.{heap_of};

use std::alloc::Global;
use std::test::Fail;
use zq_wire::{Outbox, Topic};

/// A step: a frame of one byte is put, or the one that waits first is taken.
#[derive(Clone, Copy)]
enum Step {
    Put(Topic, u8),
    Take,
}

// Each step, and the byte that is taken.
const STEPS: [(Step, Option<u8>); 16] = [
    (Step::Take, None),
    (Step::Put(Topic::Have(0), b'a'), None),
    (Step::Put(Topic::Answer(0), b'b'), None),
    (Step::Put(Topic::Have(1), b'c'), None),
    // It has the place of the older.
    (Step::Put(Topic::Have(0), b'd'), None),
    (Step::Take, Some(b'd')),
    // Its topic waits no more: it goes last.
    (Step::Put(Topic::Have(0), b'e'), None),
    (Step::Put(Topic::Answer(1), b'f'), None),
    (Step::Put(Topic::Answer(0), b'g'), None),
    (Step::Put(Topic::Answer(1), b'h'), None),
    (Step::Take, Some(b'g')),
    (Step::Take, Some(b'c')),
    (Step::Take, Some(b'e')),
    (Step::Take, Some(b'h')),
    (Step::Take, None),
    (Step::Take, None),
];

/// Puts a frame of this byte.
fn put(outbox: &mut Outbox, alloc: Global, topic: Topic, byte: u8) -> Result<(), Fail>
    requires { heap_of topic < outbox.old.heaps }
    ensures { outbox.new.heaps ≡ outbox.old.heaps }
{
    let frame = Vec::from_slice(alloc, &[byte])?;
    outbox.put(topic, frame);
    Ok(())
}

/// The byte that is taken.
fn taken(outbox: &mut Outbox) -> Option<u8>
    ensures { outbox.new.heaps ≡ outbox.old.heaps }
{
    let parcel = outbox.take()?;
    parcel.frame.first().copied()
}

/// The byte that is taken at the step.
fn follow(outbox: &mut Outbox, alloc: Global, step: Step) -> Result<Option<u8>, Fail>
    requires { outbox.old.heaps ≡ 2 }
    ensures { outbox.new.heaps ≡ 2 }
{
    match step {
        Step::Put(topic, byte) => {
            if topic.heap() < 2 {
                put(outbox, alloc, topic, byte)?;
            }
            Ok(None)
        }
        Step::Take => Ok(taken(outbox)),
    }
}

#[test]
fn a_newer_frame_has_the_place_of_the_older(rt: HostRuntime) -> Result<(), Fail> {
    let mut outbox = Outbox::new(rt.alloc(), 2)?;
    for (step, byte) in STEPS {
        assert_eq!(rt; follow(&mut outbox, rt.alloc(), step)?, byte);
    }
    Ok(())
}

#[test]
fn two_frames_wait_of_each_heap(rt: HostRuntime) -> Result<(), Fail> {
    let mut outbox = Outbox::new(rt.alloc(), 16)?;
    for byte in 0..100 {
        let heap = byte % 16;
        put(&mut outbox, rt.alloc(), Topic::Have(heap), byte)?;
        put(&mut outbox, rt.alloc(), Topic::Answer(heap), byte)?;
    }
    assert_eq!(rt; outbox.len(), 32);
    assert_eq!(rt; taken(&mut outbox), Some(96));
    outbox.clear();
    assert_eq!(rt; outbox.len(), 0);
    assert_eq!(rt; taken(&mut outbox), None);
    Ok(())
}
