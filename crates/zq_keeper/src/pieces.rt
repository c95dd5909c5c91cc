//! How pieces and seals are judged, by the rules by which they are taken when the log is read
//! again.

ghost use Rattle.std.specs.Prelude.{OnOk, ◌<◌, ◌||◌, ◌≡◌, ◌≢◌, ◌⊎◌};
ghost use Rattle.zq_keeper.specs.Pieces as spec;
ghost use Rattle.zq_recovery.specs.Step.{is_end as is_last};
ghost use Rattle.zq_stage.specs.Piece.{MOST_PIECES};

use crate::outline::Outline;
use zq_links::{Piece, Spot};
use zq_recovery::{Identity, Refusal};
use zq_stage::PieceFault;

/// Notes a piece in the outline of its heap.
pub(crate) fn note_piece(
    identity: &Identity,
    outlines: &mut [Outline],
    piece: &Piece,
) -> Result<(), Refusal>
    ensures noted { OnOk result
        (spec.Comes identity.now piece.now outlines.old outlines.new) }
{
    // For the proof: its vector is of counters in range.
    let _vector = piece.part.vector();
    let place = piece.part.heap() as usize;
    if place >= outlines.len() || piece.part.heaps() != identity.heaps {
        return Err(Refusal::WrongHeap);
    }
    if piece.part.rule() != identity.rule {
        return Err(Refusal::Piece(PieceFault::WrongRule));
    }
    note_in(&mut outlines[place], piece)
}

/// Notes a piece: the first of a stream, or the next one.
fn note_in(outline: &mut Outline, piece: &Piece) -> Result<(), Refusal>
    ensures noted { OnOk result
        (spec.Begins piece.now outline.old outline.new
        ⊎ spec.GoesOn piece.now outline.old outline.new) }
{
    if piece.number == 0 {
        begin(outline, piece)
    } else {
        go_on(outline, piece)
    }
}

/// Notes the first piece of a stream.
fn begin(outline: &mut Outline, piece: &Piece) -> Result<(), Refusal>
    requires { piece.now.number ≡ 0 }
    ensures begins { OnOk result (spec.Begins piece.now outline.old outline.new) }
{
    if !piece.part.vector().covers(&outline.vector) {
        return Err(Refusal::Piece(PieceFault::WrongVector));
    }
    *outline = Outline {
        vector: *piece.part.vector(),
        life: piece.life,
        next: 1,
        whole: is_end(&piece.next),
    };
    Ok(())
}

/// Notes the next piece of a stream.
#[tactic(auto, unfolding(zq_stage::specs::Piece::MOST_PIECES))]
fn go_on(outline: &mut Outline, piece: &Piece) -> Result<(), Refusal>
    requires { piece.now.number ≢ 0 }
    ensures goes_on { OnOk result (spec.GoesOn piece.now outline.old outline.new) }
{
    judge_next(outline, piece)?;
    outline.next = piece.number + 1;
    outline.whole = is_over(outline.whole, &piece.next);
    Ok(())
}

/// Whether a piece is the next one of a stream.
#[tactic(auto, unfolding(zq_stage::specs::Piece::MOST_PIECES))]
fn judge_next(outline: &Outline, piece: &Piece) -> Result<(), Refusal>
    ensures life { OnOk result (outline.now.life ≡ piece.now.life) }
    ensures number { OnOk result (outline.now.next ≡ piece.now.number) }
    ensures few { OnOk result (piece.now.number < MOST_PIECES) }
    ensures vector { OnOk result (outline.now.vector ≡ piece.now.part.image.vector) }
{
    if outline.life != piece.life {
        return Err(Refusal::Piece(PieceFault::WrongLife));
    }
    if outline.next != piece.number || piece.number >= u32::MAX {
        return Err(Refusal::Piece(PieceFault::WrongNumber));
    }
    if &outline.vector != piece.part.vector() {
        return Err(Refusal::Piece(PieceFault::WrongVector));
    }
    Ok(())
}

/// Whether all pieces came, or nothing is left at the spot.
fn is_over(whole: bool, spot: &Spot) -> bool
    ensures { result ≡ (whole || is_last spot.now) }
{
    whole || is_end(spot)
}

/// Whether nothing is left at the spot.
fn is_end(spot: &Spot) -> bool
    ensures { result ≡ is_last spot.now }
{
    spot.key == 0 && spot.member == 0
}
