//! Numbers in a range.

ghost use Rattle.std.specs.Int.{to_be_bytes, w64};
ghost use Rattle.std.specs.Prelude.{◌≡◌, ◌<◌, ◌≤◌, ◌++◌, ◌∷◌, IfOk};
ghost use Rattle.zq_model.specs.Sets as sets;
ghost use Rattle.zq_fields.specs.Reading as read;

use crate::fault::PartFault;
use crate::{read_byte, read_u64};
use zq_dots::SiteNo;

/// Where the rest begins, from 0 at the first of the whole frame's bytes.
pub(crate) fn place(whole: usize, rest: &[u8]) -> usize
    ensures { result ≡ read.place whole rest.now }
{
    whole.saturating_sub(rest.len())
}

/// Takes a byte from `low` on and below `past`.
#[tactic(auto, unfolding(crate::specs::Reading::byte_in))]
pub fn read_byte_in(whole: usize, bytes: &mut &[u8], low: u8, past: u8) -> Result<u8, PartFault>
    ensures exact { read.Gives (λ x. (x, bytes.new.now)) result
        (read.byte_in whole low past bytes.old.now) }
    ensures found { IfOk result (λ x. bytes.old.now ≡ x ∷ bytes.new.now) }
    ensures low { IfOk result (λ x. low ≤ x) }
    ensures past { IfOk result (λ x. x < past) }
{
    let Some((byte, rest)) = read_byte(bytes) else {
        return Err(PartFault::Short);
    };
    if byte < low || past <= byte {
        return Err(PartFault::Field(place(whole, bytes)));
    }
    *bytes = rest;
    Ok(byte)
}

/// Takes a number of eight bytes from `low` up to `last`.
#[tactic(auto, unfolding(crate::specs::Reading::number_in))]
pub fn read_number_in(
    whole: usize,
    bytes: &mut &[u8],
    low: u64,
    last: u64,
) -> Result<u64, PartFault>
    ensures exact { read.Gives (λ x. (x, bytes.new.now)) result
        (read.number_in whole low last bytes.old.now) }
    ensures found { IfOk result (λ x. bytes.old.now ≡ to_be_bytes w64 x ++ bytes.new.now) }
    ensures low { IfOk result (λ x. low ≤ x) }
    ensures within { IfOk result (λ x. x ≤ last) }
{
    let Some((number, rest)) = read_u64(bytes) else {
        return Err(PartFault::Short);
    };
    if number < low || last < number {
        return Err(PartFault::Field(place(whole, bytes)));
    }
    *bytes = rest;
    Ok(number)
}

/// Takes a site from `low` on and below `past`, a number of sites.
pub fn read_site(whole: usize, bytes: &mut &[u8], low: u8, past: u8) -> Result<SiteNo, PartFault>
    requires { past ≤ sets.SITES }
    ensures exact { read.Gives (λ x. (x, bytes.new.now)) result
        (read.byte_in whole low past bytes.old.now) }
    ensures found { IfOk result (λ x. bytes.old.now ≡ x ∷ bytes.new.now) }
    ensures low { IfOk result (λ x. low ≤ x) }
    ensures past { IfOk result (λ x. x < past) }
{
    let number = read_byte_in(whole, bytes, low, past)?;
    Ok(site_of(number))
}

/// The site of a number that is one.
pub(crate) fn site_of(number: u8) -> SiteNo
    requires { number < sets.SITES }
    ensures { result ≡ number }
{
    SiteNo::new(number).unwrap()
}
