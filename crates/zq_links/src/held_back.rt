//! The frames that a faulty link holds back, the oldest first.
ghost use Rattle.std.specs.Prelude.{◌≡◌, ◌<◌, ◌≤◌, ◌++◌, [], ◌∷◌, length, map, take, drop, IfOk, IfErr, OnOk, OnErr, option_to_list};
ghost use Rattle.zq_links.specs.Frames.{frames_in, held_in, newest};
ghost use Rattle.zq_links.specs.Limits.{most_held};

use crate::errors::NoMemory;
use std::alloc::Global;
use std::collections::VecDeque;

/// How many frames a link holds back.
pub const MOST_HELD: usize = 64;

/// The frames, where one was ever held back.
pub(crate) type HeldFrames = Option<VecDeque<Vec<u8>>>;

/// Puts the frame behind the others. Where as many are held as a link holds, the oldest is lost,
/// and no memory is taken.
fn push_last(frames: &mut VecDeque<Vec<u8>>, frame: Vec<u8>) -> Result<(), (NoMemory, Vec<u8>)>
    requires { length frames.old.items ≤ most_held }
    ensures held { OnOk result (frames.new.items ≡ newest (frames.old.items ++ frame ∷ [])) }
    ensures refused { IfErr result (λ e. e.1 ≡ frame) }
    ensures unchanged { OnErr result (frames.new.items ≡ frames.old.items) }
    ensures room { OnErr result (length frames.old.items < most_held) }
{
    if frames.len() < MOST_HELD {
        return match frames.push_back(frame) {
            Ok(()) => Ok(()),
            Err(failed) => Err((NoMemory, failed.value)),
        };
    }
    drop(frames.pop_front());
    match frames.push_back(frame) {
        Ok(()) => Ok(()),
        // The oldest has left its place.
        Err(_) => unreachable!(),
    }
}

/// The frames that are held, to be put back when they are changed.
fn taken(held: &mut HeldFrames, alloc: Global) -> VecDeque<Vec<u8>>
    ensures { map (λ frame. frame.items) result.items ≡ held_in held.old }
{
    match held.take() {
        Some(frames) => frames,
        None => VecDeque::new(alloc),
    }
}

/// Holds the frame back, behind the others. Where as many are held as a link holds, the oldest is
/// lost, and no memory is taken. Where there is no memory the frame comes back, and those that are
/// held stay.
pub(crate) fn hold_back(
    held: &mut HeldFrames,
    alloc: Global,
    frame: Vec<u8>,
) -> Result<(), (NoMemory, Vec<u8>)>
    requires { length (held_in held.old) ≤ most_held }
    ensures held { OnOk result (held_in held.new ≡ newest (held_in held.old ++ frame.items ∷ [])) }
    ensures refused { IfErr result (λ e. e.1 ≡ frame) }
    ensures unchanged { OnErr result (held_in held.new ≡ held_in held.old) }
    ensures room { OnErr result (length (held_in held.old) < most_held) }
{
    let mut frames = taken(held, alloc);
    let result = push_last(&mut frames, frame);
    *held = Some(frames);
    result
}

/// The frame that was held back longest, if any, is held no more.
pub(crate) fn let_go(held: &mut HeldFrames) -> Option<Vec<u8>>
    ensures one { map (λ frame. frame.items) (option_to_list result) ≡ take 1 (held_in held.old) }
    ensures others { held_in held.new ≡ drop 1 (held_in held.old) }
{
    match held {
        Some(frames) => frames.pop_front(),
        None => None,
    }
}
