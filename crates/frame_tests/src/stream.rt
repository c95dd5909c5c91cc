//! The two ends of a stream of pieces, over frames as they are written and read.

use std::alloc::Global;
use zq_dots::{Act, Op, SiteNo};
use zq_links::{Piece, Spot, read_piece, write_piece};
use zq_posheap::Seeded;
use zq_shard::{Shard, Taken};
use zq_stage::{PieceFault, Portion, PortionLimits};
use zq_transfer::{Receiving, Sending};

/// The life of the heap that goes.
pub const LIFE: u64 = 4;

/// The heap that goes, how much of it goes at once, the operations that it made and that did not go
/// yet, and both ends.
#[derive(Drop)]
pub struct Stream {
    pub heap: Shard,
    limits: PortionLimits,
    unsent: Vec<Op>,
    sending: Sending,
    receiving: Option<Receiving>,
}

impl Stream {
    /// A heap of which nothing went.
    pub fn new(alloc: Global, heap: Shard, limits: PortionLimits) -> Stream {
        Stream {
            heap,
            limits,
            unsent: Vec::new(alloc),
            sending: Sending::anew(LIFE),
            receiving: None,
        }
    }

    /// A site makes an operation on a member in the heap, which waits.
    pub fn makes(&mut self, alloc: Global, key: u32, member: u32, act: Act) -> Option<()> {
        let site = SiteNo::new((member % 2) as u8)?;
        let (key, member) = (key.to_be_bytes(), member.to_be_bytes());
        let op = self.heap.make(alloc, site, &key, &member, act).ok()?;
        self.unsent.push(op).ok()
    }

    /// What waits goes.
    pub fn flushes(&mut self, alloc: Global) -> Option<()> {
        if let Some(receiving) = &mut self.receiving {
            for op in self.unsent.iter() {
                if receiving.take(alloc, op) != Ok(Taken::New) {
                    return None;
                }
            }
            self.sending.note_sent(*self.heap.vector());
        }
        self.unsent.clear();
        Some(())
    }

    /// The next piece goes. Where operations wait that have to go before it it is not made, and
    /// where it comes nevertheless it is refused.
    pub fn hands(&mut self, alloc: Global) -> Option<()> {
        let spot = self.sending.spot;
        let portion = Portion::of(&self.heap, alloc, spot, self.limits, Seeded::new(1)).ok()?;
        let waits = self.receiving.is_some() && !self.unsent.is_empty();
        match self.sending.piece(portion) {
            Ok(piece) if !waits => self.brings(alloc, piece),
            Err(portion) if waits => self.refuses_early(alloc, portion),
            _ => None,
        }
    }

    /// The other end refuses a portion before which operations are missing.
    fn refuses_early(&mut self, alloc: Global, portion: Portion) -> Option<()> {
        let piece = Piece {
            life: LIFE,
            number: self.sending.number,
            next: Spot {
                key: portion.next.key as u64,
                member: portion.next.member as u64,
            },
            part: portion.part,
        };
        self.refuses(alloc, &piece, PieceFault::WrongVector)
    }

    /// The other end takes a piece, and before that refuses it as one of another life, and as one of
    /// another number.
    fn brings(&mut self, alloc: Global, mut piece: Piece) -> Option<()> {
        if self.receiving.is_none() {
            return self.begins(alloc, &piece);
        }
        let number = piece.number;
        piece.life = LIFE + 1;
        self.refuses(alloc, &piece, PieceFault::WrongLife)?;
        piece.life = LIFE;
        piece.number = number ^ 1;
        self.refuses(alloc, &piece, PieceFault::WrongNumber)?;
        piece.number = number;
        self.hears(alloc, &piece)
    }

    /// The other end refuses a piece for this fault, and stands where it stood.
    fn refuses(&mut self, alloc: Global, piece: &Piece, fault: PieceFault) -> Option<()> {
        let receiving = self.receiving.as_mut()?;
        let before = receiving.resume();
        let refused = receiving.piece(alloc, piece) == Err(fault);
        if refused && receiving.resume() == before {
            Some(())
        } else {
            None
        }
    }

    /// The other end begins by the first piece.
    fn begins(&mut self, alloc: Global, piece: &Piece) -> Option<()> {
        let bytes = write_piece(alloc, piece).ok()?;
        let read = read_piece(alloc, &bytes, Seeded::new(2)).ok()?;
        self.unsent.clear();
        self.receiving = Some(Receiving::new(read).ok()?);
        Some(())
    }

    /// The other end hears the next piece.
    fn hears(&mut self, alloc: Global, piece: &Piece) -> Option<()> {
        let bytes = write_piece(alloc, piece).ok()?;
        let read = read_piece(alloc, &bytes, Seeded::new(2)).ok()?;
        self.receiving.as_mut()?.piece(alloc, &read).ok()
    }

    /// The link breaks, and the stream goes on where the other end stands: where it was. It does not
    /// go on where the heap has another life.
    pub fn breaks(&mut self) -> Option<()> {
        if let Some(receiving) = &self.receiving {
            let resume = receiving.resume();
            let sending = Sending::resumed(LIFE, &resume)?;
            if sending != self.sending || Sending::resumed(LIFE + 1, &resume).is_some() {
                return None;
            }
            self.sending = sending;
        }
        Some(())
    }

    /// The other end gives up what came, and the stream begins anew.
    pub fn gives_up(&mut self) {
        self.receiving = None;
        self.sending = Sending::anew(LIFE);
    }

    /// Whether the last piece came.
    pub fn is_whole(&self) -> bool {
        match &self.receiving {
            Some(receiving) => receiving.stage().is_whole(),
            None => false,
        }
    }

    /// Whether the other end has the heap, once what waits went.
    pub fn ends(mut self, alloc: Global) -> Option<bool> {
        self.flushes(alloc)?;
        let whole = self.receiving?.finish()?;
        Some(whole.same(&self.heap))
    }
}
