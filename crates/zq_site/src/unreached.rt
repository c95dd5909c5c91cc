//! Why a peer is not reached.

ghost use Rattle.std.specs.Prelude.{◌≡◌};
ghost use Rattle.zq_site.specs.Dialing.{may_dial as may_dial_in, why_of as why_in};

use std::fmt;
use std::net::SocketAddr;

/// Why a peer is not reached that was dialled.
#[derive(Clone, Copy, Debug, PartialEq, Eq)]
pub enum Unreached {
    /// Its name has no address.
    Unknown,
    /// No address of its name is a loopback address, and the site has no secret.
    Far,
    /// Nobody accepts there.
    Silent,
}

impl fmt::Display for Unreached {
    ghost use Rattle.std.specs.Prelude.{Some};
    ghost use Rattle.zq_site.specs.Dialing.{words_of_unreached};

    ghost output = { λ why. Some (words_of_unreached why) };

    fn fmt<W: fmt::Write>(&self, f: &mut fmt::Formatter<W>) -> fmt::Result {
        match self {
            Unreached::Unknown => f.write_str("its name is not found"),
            Unreached::Far => {
                f.write_str("its name has no loopback address, and there is no secret")
            }
            Unreached::Silent => f.write_str("nobody accepts there"),
        }
    }
}

/// Whether an address of a peer's name may be dialled: without a secret a loopback address alone.
pub fn may_dial(is_secured: bool, address: &SocketAddr) -> bool
    ensures { result ≡ may_dial_in is_secured address.now }
{
    is_secured || address.ip().is_loopback()
}

/// Why nobody was reached at the addresses of a name: whether it has any, and whether one was
/// dialled.
pub fn why_of(is_found: bool, was_dialled: bool) -> Unreached
    ensures { result ≡ why_in is_found was_dialled }
{
    if was_dialled {
        Unreached::Silent
    } else if is_found {
        Unreached::Far
    } else {
        Unreached::Unknown
    }
}
