//! How a control frame is read.

ghost use Rattle.std.specs.Prelude.{IfOk, IsOkAnd, ◌++◌, ◌∷◌, ◌≡◌};
ghost use Rattle.zq_fields.specs.Reading as part;
ghost use Rattle.zq_links.specs.Answer.{Gives};
ghost use Rattle.zq_links.specs.Control as model;
ghost use Rattle.zq_links.specs.ControlKind.{kind_byte};
ghost use Rattle.zq_links.specs.ControlParts.{body_at};
ghost use Rattle.zq_links.specs.ControlReading.{control_at, rest_at};
ghost use Rattle.zq_links.specs.ControlSpelling.{control_spelling};

use crate::control::Control;
use crate::control::bodies::{read_at, read_behind, read_fetch};
use crate::control::fields::read_routes;
use crate::control::kind::{ControlKind, read_control_kind};
use crate::frame_fault::FrameFault;
use zq_fields::PartFault;

/// The control frame that the bytes are, of any kind. It takes no memory.
///
/// A fault is that of the first field, from the left, that is missing or wrong. A first byte that
/// names another kind is a `Kind`.
pub fn read_control(bytes: &[u8]) -> Result<Control, FrameFault>
    ensures exact { Gives model.control_of result (control_at bytes.now) }
    ensures found { IfOk result (λ c. bytes.now ≡ control_spelling (model.control_of c)) }
    ensures only { (c : model.Control) → model.IsControl c → bytes.now ≡ control_spelling c →
        IsOkAnd result (λ r. model.control_of r ≡ c) }
    ensures sound { IfOk result model.IsWritable }
{
    read_whole(bytes)
}

fn read_whole(bytes: &[u8]) -> Result<Control, FrameFault>
    ensures exact { Gives model.control_of result (control_at bytes.now) }
    ensures found { IfOk result (λ c. bytes.now ≡ control_spelling (model.control_of c)) }
    ensures sound { IfOk result model.IsWritable }
{
    let mut rest = bytes;
    let kind = read_control_kind(&mut rest)?;
    read_rest(kind, bytes.len(), rest)
}

/// What follows the kind, and nothing more.
fn read_rest(kind: ControlKind, whole: usize, bytes: &[u8]) -> Result<Control, FrameFault>
    ensures exact { Gives model.control_of result (rest_at kind whole bytes.now) }
    ensures found { IfOk result
        (λ c. kind_byte kind ∷ bytes.now ≡ control_spelling (model.control_of c)) }
    ensures sound { IfOk result model.IsWritable }
{
    let mut rest = bytes;
    let control = read_body(kind, whole, &mut rest)?;
    match rest.split_first() {
        None => Ok(control),
        Some(_) => Err(FrameFault::Rest),
    }
}

/// Takes what follows the kind.
fn read_body(kind: ControlKind, whole: usize, bytes: &mut &[u8]) -> Result<Control, PartFault>
    ensures exact { part.Gives (λ c. (model.control_of c, bytes.new.now)) result
        (body_at kind whole bytes.old.now) }
    ensures found { IfOk result (λ c. kind_byte kind ∷ bytes.old.now
        ≡ control_spelling (model.control_of c) ++ bytes.new.now) }
    ensures sound { IfOk result model.IsWritable }
{
    match kind {
        ControlKind::Routes => Ok(Control::Routes(read_routes(bytes)?)),
        ControlKind::At => Ok(Control::At(read_at(whole, bytes)?)),
        ControlKind::Behind => Ok(Control::Behind(read_behind(whole, bytes)?)),
        ControlKind::Fetch => Ok(Control::Fetch(read_fetch(whole, bytes)?)),
    }
}
