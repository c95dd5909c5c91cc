//! The sender's end of a stream of pieces.

ghost use Rattle.std.specs.Prelude.{IfErr, IfOk, IfSome, IsSome, IsTrue, None, Some, ◌+◌, ◌<◌, ◌↔◌, ◌≡◌, ◌⊎◌};
ghost use Rattle.zq_stage.specs.Piece.{MOST_PIECES};
ghost use Rattle.zq_transfer.specs.Transfer.{Follows, IsMade, begun_at, resumed_at, with_vector};

use zq_dots::Vector;
use zq_links::{Piece, Resume, Spot as FrameSpot};
use zq_shard::Spot;
use zq_stage::Portion;

/// A stream of pieces of a heap, as far as it went.
#[derive(Clone, Copy, Debug, PartialEq, Eq)]
pub struct Sending {
    /// The life of the heap.
    pub life: u64,
    /// The number of the next piece.
    pub number: u32,
    /// Where the next piece begins.
    pub spot: Spot,
    /// The operations that the other end has, and `None` before the first piece.
    pub vector: Option<Vector>,
}

impl Sending {
    /// A stream of a heap of this life that begins.
    pub fn anew(life: u64) -> Sending
        ensures { result ≡ begun_at life }
    {
        Sending {
            life,
            number: 0,
            spot: Spot::start(),
            vector: None,
        }
    }

    /// A stream of a heap of this life that goes on where it broke off, as the other end says.
    /// `None` where the heap had another life then, or where there are no more numbers.
    #[tactic(auto, unfolding(zq_stage::specs::Piece::MOST_PIECES))]
    pub fn resumed(life: u64, resume: &Resume) -> Option<Sending>
        ensures there { IsSome result
            ↔ ((resume.now.life ≡ life) × (resume.now.number < MOST_PIECES)) }
        ensures goes_on { IfSome result (λ sending. sending ≡ resumed_at resume.now) }
    {
        if resume.life != life || resume.number == u32::MAX {
            return None;
        }
        Some(Sending {
            life,
            number: resume.number + 1,
            spot: Spot {
                key: resume.next.key as usize,
                member: resume.next.member as usize,
            },
            vector: Some(resume.vector),
        })
    }

    /// Whether the other end has just what this vector has, or is to begin: then the next piece, of
    /// a heap that stands so, may go. Else operations go before it.
    pub fn follows(&self, vector: &Vector) -> bool
        ensures { IsTrue result ↔ Follows self.now vector.now }
    {
        match &self.vector {
            Some(has) => has == vector,
            None => true,
        }
    }

    /// Operations were sent, after which the other end has these.
    pub fn note_sent(&mut self, vector: Vector)
        ensures { self.new ≡ with_vector self.old vector }
    {
        self.vector = Some(vector);
    }

    /// The next piece, of this portion of the heap from the stream's spot on. The portion is given
    /// back where operations have to go before it, or where there are no more numbers; then the
    /// stream is as it was.
    #[tactic(auto, unfolding(zq_stage::specs::Piece::MOST_PIECES))]
    pub fn piece(&mut self, portion: Portion) -> Result<Piece, Portion>
        ensures made { IfOk result (λ piece. IsMade self.old portion piece self.new) }
        ensures refused { IfErr result (λ back. (back ≡ portion) × (self.new ≡ self.old)
            × ((Follows self.old portion.part.image.vector → ⊥)
            ⊎ (self.old.number ≡ MOST_PIECES))) }
    {
        if self.number == u32::MAX || !self.follows(portion.part.vector()) {
            return Err(portion);
        }
        let number = self.number;
        self.number += 1;
        self.spot = portion.next;
        self.vector = Some(*portion.part.vector());
        Ok(Piece {
            life: self.life,
            number,
            next: FrameSpot {
                key: portion.next.key as u64,
                member: portion.next.member as u64,
            },
            part: portion.part,
        })
    }
}
