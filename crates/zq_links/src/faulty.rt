//! A link that loses, doubles and reorders frames.

ghost use Rattle.std.specs.Prelude.{◌≡◌, ◌≤◌, [], ◌∷◌, length, IfOk, IfErr, OnOk, OnErr, vec_capacity};
ghost use Rattle.zq_links.specs.Faults.{AsksMemory, fault_of, passed_on, held_after};
ghost use Rattle.zq_links.specs.Frames.{frames_in};

use crate::errors::NoMemory;
use crate::fault::Fault;
use crate::held_back::{HeldFrames, hold_back, let_go};
use std::alloc::Global;
use std::marker::Model;

/// A link that loses frames, doubles them and changes their order, as the words say that it is
/// given. It invents none: each frame that it passes on was handed in. It is seen as the frames
/// that it holds back, the oldest first, at most [`MOST_HELD`](crate::MOST_HELD).
#[derive(Drop)]
pub struct Faulty {
    held: HeldFrames,
}

impl Model for Faulty {
    ghost use Rattle.std.specs.Prelude.{List, ℕ, ◌≤◌, length};
    ghost use Rattle.zq_links.specs.Frames.{held_in};
    ghost use Rattle.zq_links.specs.Limits.{most_held};

    ghost Value = { List (List ℕ) };

    ghost view = { λ link. held_in link.held };

    ghost invariant = { λ link. length (held_in link.held) ≤ most_held };
}

impl Faulty {
    /// A link that holds nothing. It takes no memory.
    pub fn new() -> Faulty
        ensures { result ≡ [] }
    {
        Faulty { held: None }
    }

    /// What the link passes on now, in this order, where a frame comes and a word draws a fault.
    /// Where there is no memory the frame comes back, and those that are held back stay. To lose a
    /// frame takes no memory, nor does holding one back where as many are held as a link holds.
    pub fn pass(
        &mut self,
        alloc: Global,
        word: u32,
        frame: Vec<u8>,
    ) -> Result<Vec<Vec<u8>>, (NoMemory, Vec<u8>)>
        ensures passed { IfOk result
            (λ frames. frames_in frames ≡ passed_on (fault_of word) self.old frame.items) }
        ensures held { OnOk result (self.new ≡ held_after (fault_of word) self.old frame.items) }
        ensures refused { IfErr result (λ e. e.1 ≡ frame) }
        ensures unchanged { OnErr result (self.new ≡ self.old) }
        ensures memory { OnErr result (AsksMemory (fault_of word) self.old) }
    {
        match Fault::of(word) {
            Fault::Lost => Ok(Vec::new(alloc)),
            Fault::Doubled => twice(alloc, frame),
            Fault::HeldBack => match hold_back(&mut self.held, alloc, frame) {
                Ok(()) => Ok(Vec::new(alloc)),
                Err(refused) => Err(refused),
            },
            Fault::Overtakes => {
                let mut frames = room_for_two(alloc, frame)?;
                if let Some(oldest) = let_go(&mut self.held) {
                    frames.push_reserved(oldest);
                }
                Ok(frames)
            }
            Fault::Spared => room_for_two(alloc, frame),
        }
    }
}

/// The frame alone, with room for one more.
fn room_for_two(alloc: Global, frame: Vec<u8>) -> Result<Vec<Vec<u8>>, (NoMemory, Vec<u8>)>
    ensures frame { IfOk result (λ frames. frames.items ≡ frame ∷ []) }
    ensures room { IfOk result (λ frames. 2 ≤ vec_capacity frames) }
    ensures refused { IfErr result (λ e. e.1 ≡ frame) }
{
    let Ok(mut frames) = Vec::with_capacity(alloc, 2) else {
        return Err((NoMemory, frame));
    };
    frames.push_reserved(frame);
    Ok(frames)
}

/// The frame and a copy of it.
fn twice(alloc: Global, frame: Vec<u8>) -> Result<Vec<Vec<u8>>, (NoMemory, Vec<u8>)>
    ensures frames { IfOk result (λ frames. frames_in frames ≡ frame.items ∷ frame.items ∷ []) }
    ensures refused { IfErr result (λ e. e.1 ≡ frame) }
{
    let Ok(copy) = Vec::from_slice(alloc, &frame) else {
        return Err((NoMemory, frame));
    };
    let mut frames = room_for_two(alloc, frame)?;
    frames.push_reserved(copy);
    Ok(frames)
}
