//! Who dialled a site, or was dialled, as far as it is known.

use std::fmt;
use std::net::SocketAddr;
use zq_dots::SiteNo;

/// Who is at the other end of a stream, as far as it is known.
#[derive(Clone, Copy, Debug, PartialEq, Eq)]
pub struct Caller {
    /// The number that it greets with, or that was dialled.
    pub site: Option<SiteNo>,
    /// Where it is.
    pub address: SocketAddr,
}

impl fmt::Display for Caller {
    ghost use Rattle.std.specs.Prelude.{Some};
    ghost use Rattle.zq_site.specs.Callers.{words_of_caller};

    ghost output = { λ caller. Some (words_of_caller caller) };

    /// Its number and its address.
    fn fmt<W: fmt::Write>(&self, f: &mut fmt::Formatter<W>) -> fmt::Result {
        let address = self.address;
        match self.site {
            Some(site) => {
                let site = site.value();
                write!(f, "site {site} at {address}")
            }
            None => write!(f, "a peer at {address}"),
        }
    }
}

/// The number that a peer greets with that began so, in either form.
pub fn number_told(head: &[u8]) -> Option<SiteNo> {
    match head {
        [_, _, _, _, _, _, _, _, 1, site, ..] => SiteNo::new(*site),
        [_, _, _, _, _, _, _, _, 0, _, _, site, ..] => SiteNo::new(*site),
        _ => None,
    }
}
