//! Fields that only control frames have.

ghost use Rattle.std.specs.Prelude.{IfOk, OnOk, ◌++◌, ◌∷◌, ◌≡◌};
ghost use Rattle.zq_fields.specs.Reading.{Gives};
ghost use Rattle.zq_links.specs.Control.{IsRoutes};
ghost use Rattle.zq_links.specs.ControlParts as read;
ghost use Rattle.zq_links.specs.ControlSpelling.{open_byte, routes_bytes, three_bytes};

use crate::control::Routes;
use crate::numbers::take_u64;
use std::alloc::AllocError;
use zq_fields::{PartFault, read_byte_in, write_u64};

/// Takes three numbers of eight bytes each.
#[tactic(auto, unfolding(crate::specs::ControlParts::three_at, crate::specs::ControlSpelling::three_bytes))]
pub(crate) fn read_three(bytes: &mut &[u8]) -> Result<(u64, u64, u64), PartFault>
    ensures exact { Gives (λ x. ((x.0, x.1, x.2), bytes.new.now)) result
        (read.three_at bytes.old.now) }
    ensures found { IfOk result
        (λ x. bytes.old.now ≡ three_bytes x.0 x.1 x.2 ++ bytes.new.now) }
{
    let first = take_u64(bytes)?;
    let second = take_u64(bytes)?;
    let third = take_u64(bytes)?;
    Ok((first, second, third))
}

/// Appends three numbers of eight bytes each.
#[tactic(auto, unfolding(crate::specs::ControlSpelling::three_bytes))]
pub(crate) fn write_three(
    out: &mut Vec<u8>,
    first: u64,
    second: u64,
    third: u64,
) -> Result<(), AllocError>
    ensures { OnOk result (out.new.items ≡ out.old.items ++ three_bytes first second third) }
{
    write_u64(out, first)?;
    write_u64(out, second)?;
    write_u64(out, third)
}

/// Takes the routes.
#[tactic(auto, unfolding(crate::specs::ControlParts::routes_at, crate::specs::ControlSpelling::routes_bytes))]
pub(crate) fn read_routes(bytes: &mut &[u8]) -> Result<Routes, PartFault>
    ensures exact { Gives (λ x. (x, bytes.new.now)) result (read.routes_at bytes.old.now) }
    ensures found { IfOk result (λ x. bytes.old.now ≡ routes_bytes x ++ bytes.new.now) }
{
    let (reach, ask, far) = read_three(bytes)?;
    Ok(Routes { reach, ask, far })
}

/// Appends the routes.
#[tactic(auto, unfolding(crate::specs::ControlSpelling::routes_bytes))]
pub(crate) fn write_routes(out: &mut Vec<u8>, routes: &Routes) -> Result<(), AllocError>
    ensures written { OnOk result (out.new.items ≡ out.old.items ++ routes_bytes routes.now) }
    ensures sound { OnOk result (IsRoutes routes.now) }
{
    write_three(out, routes.reach, routes.ask, routes.far)
}

/// Takes the flags: bit 0 says that the heap is open, and there are no others.
#[tactic(auto, unfolding(crate::specs::ControlParts::open_at))]
pub(crate) fn read_open(whole: usize, bytes: &mut &[u8]) -> Result<bool, PartFault>
    ensures exact { Gives (λ x. (x, bytes.new.now)) result (read.open_at whole bytes.old.now) }
    ensures found { IfOk result (λ x. bytes.old.now ≡ open_byte x ∷ bytes.new.now) }
{
    let flags = read_byte_in(whole, bytes, 0, 2)?;
    if flags == 1 { Ok(true) } else { Ok(false) }
}

/// The flags of a heap that is open, or not.
pub(crate) fn flags_of(is_open: bool) -> u8
    ensures { result ≡ open_byte is_open }
{
    if is_open { 1 } else { 0 }
}
