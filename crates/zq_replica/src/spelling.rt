//! How the last frame of operations was spelt.

ghost use Rattle.std.specs.Prelude.{IfOk, IsTrue, ◌≡◌};
ghost use Rattle.zq_replica.specs.Put.{AreOpsOf};

use std::alloc::{AllocError, Global};
use std::marker::Model;
use zq_links::by_differences;

/// A frame of operations, and its bytes by differences, where they can be told so. Peers that lack
/// the same are sent the same, so that it is spelt once for all of them.
#[derive(Drop)]
pub(crate) struct Spelling {
    frame: Vec<u8>,
    bytes: Vec<u8>,
}

impl Model for Spelling {
    ghost use Rattle.zq_replica.specs.Put.{AreOpsOf, SpeltFrame};

    ghost Value = { SpeltFrame };

    ghost view = { λ s. record { frame = s.frame; bytes = s.bytes } };

    ghost invariant = { λ s. AreOpsOf s.frame s.bytes };
}

impl Spelling {
    /// That of a frame.
    fn of(alloc: Global, frame: Vec<u8>) -> Result<Spelling, AllocError>
        ensures { IfOk result (λ s. s.frame ≡ frame) }
    {
        let copy = Vec::from_slice(alloc, &frame)?;
        let bytes = by_differences(alloc, copy)?;
        Ok(Spelling { frame, bytes })
    }

    /// Whether it is that of a frame.
    fn is_of(&self, frame: &[u8]) -> bool
        ensures { IsTrue result → self.now.frame.items ≡ frame.now }
    {
        self.frame.as_slice() == frame
    }

    /// The bytes.
    fn bytes(&self, alloc: Global) -> Result<Vec<u8>, AllocError>
        ensures { IfOk result (AreOpsOf self.now.frame) }
    {
        Vec::from_slice(alloc, &self.bytes)
    }
}

/// The bytes of a frame of operations, by differences where they can be told so: those of the last
/// one, where that was the same, and else they are kept as the last.
pub(crate) fn spelt(
    alloc: Global,
    frame: Vec<u8>,
    last: &mut Option<Spelling>,
) -> Result<Vec<u8>, AllocError>
    ensures { IfOk result (AreOpsOf frame) }
{
    if let Some(spelling) = last
        && spelling.is_of(&frame)
    {
        return spelling.bytes(alloc);
    }
    let spelling = Spelling::of(alloc, frame)?;
    let bytes = spelling.bytes(alloc)?;
    *last = Some(spelling);
    Ok(bytes)
}
