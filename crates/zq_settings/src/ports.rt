//! The ports of sites.

ghost use Rattle.std.specs.Prelude.{◌≡◌};
ghost use Rattle.zq_settings.specs.Ports.{ArePorts, first_twice};

use crate::within::Within;
use std::marker::Model;

/// The number of a port that a site can listen on, 1 to 65535.
pub type Port = Within<1, 65_535>;

/// The most ports that settings have.
pub const MOST_PORTS: usize = 64;

/// The ports of sites: 1 to 64 ports, no two of them equal. The place of a port, from 0, is its
/// site's number.
#[derive(Debug, Drop)]
pub struct Ports {
    ports: Vec<Port>,
}

impl Model for Ports {
    ghost use Rattle.std.specs.Prelude.{List, ℕ};
    ghost use Rattle.zq_settings.specs.Ports.{ArePorts};

    ghost Value = { List ℕ };

    ghost view = { λ p. p.ports.items };

    ghost invariant = { λ p. ArePorts p.ports.items };
}

impl Ports {
    /// These ports, which are 1 to 64 and of which no two are equal.
    pub(crate) fn new(ports: Vec<Port>) -> Self
        requires { ArePorts ports.items }
        ensures { result ≡ ports.items }
    {
        Ports { ports }
    }

    /// The ports in the order of their sites.
    pub fn as_slice(&self) -> &[Port]
        ensures ports { result.now ≡ self.now }
        ensures limits { ArePorts self.now }
    {
        &self.ports
    }
}

/// The first port that stands again behind its place.
pub(crate) fn find_twice(ports: &[Port]) -> Option<Port>
    ensures { result ≡ first_twice ports.now }
{
    let mut rest = ports;
    while let Some((first, others)) = rest.split_first() {
        if others.contains(first) {
            return Some(*first);
        }
        rest = others;
    }
    None
}
