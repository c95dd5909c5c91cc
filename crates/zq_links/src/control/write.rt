//! How a control frame is written.

ghost use Rattle.std.specs.Prelude.{IfOk, Ok, OnOk, ◌++◌, ◌≡◌};
ghost use Rattle.zq_links.specs.Control as model;
ghost use Rattle.zq_links.specs.ControlReading.{control_at};
ghost use Rattle.zq_links.specs.ControlSpelling.{control_spelling};

use crate::control::Control;
use crate::control::bodies::{write_at, write_behind, write_fetch};
use crate::control::fields::write_routes;
use crate::control::kind::ControlKind;
use std::alloc::{AllocError, Global};
use zq_fields::write_byte;

/// The bytes of a control frame, which are read as it. It fails only where memory is refused.
pub fn write_control(alloc: Global, control: &Control) -> Result<Vec<u8>, AllocError>
    requires { model.IsWritable control.now }
    ensures written { IfOk result
        (λ v. v.items ≡ control_spelling (model.control_of control.now)) }
    ensures again { IfOk result
        (λ v. control_at v.items ≡ Ok (model.control_of control.now)) }
{
    let mut out = Vec::new(alloc);
    append(&mut out, control)?;
    Ok(out)
}

/// Appends the kind, and what it is of.
fn append(out: &mut Vec<u8>, control: &Control) -> Result<(), AllocError>
    requires { model.IsWritable control.now }
    ensures written { OnOk result
        (out.new.items ≡ out.old.items ++ control_spelling (model.control_of control.now)) }
    ensures sound { OnOk result (model.IsControl (model.control_of control.now)) }
{
    match control {
        Control::Routes(routes) => {
            write_byte(out, ControlKind::Routes.byte())?;
            write_routes(out, routes)
        }
        Control::At(at) => {
            write_byte(out, ControlKind::At.byte())?;
            write_at(out, at)
        }
        Control::Behind(behind) => {
            write_byte(out, ControlKind::Behind.byte())?;
            write_behind(out, behind)
        }
        Control::Fetch(fetch) => {
            write_byte(out, ControlKind::Fetch.byte())?;
            write_fetch(out, fetch)
        }
    }
}
