//! The limits of a port.

ghost use Rattle.std.specs.Prelude.{◌≡◌};
ghost use Rattle.zq_serve.specs.Limits.{guarded, port_limits};

use log::{Log, warn};
use zq_loop::Limits;
use zq_settings::{ClientCount, ClientLimits, ConnectionCount};

/// The limits of a port: so many connections in all, no end of them with `None`, and of those at
/// once no more than there are descriptors for.
pub fn limits_of(connections: Option<ConnectionCount>, limits: &ClientLimits, most: u64) -> Limits
    ensures { result ≡ port_limits connections limits.now most }
{
    let connections = match connections {
        Some(count) => count.value(),
        None => 0,
    };
    Limits {
        clients: limits.clients.value().min(most),
        connections,
        timeout: limits.timeout.value(),
        write_timeout: limits.write_timeout.value(),
        output: limits.output.value(),
        strangers: 0,
    }
}

/// The same limits where clients have to show a password: then a quarter of the connections at once
/// may have yet to show it, and one at least.
pub fn guarded(limits: Limits, is_guarded: bool) -> Limits
    ensures { result ≡ guarded is_guarded limits }
{
    if !is_guarded {
        return limits;
    }
    Limits {
        strangers: (limits.clients / 4).max(1),
        ..limits
    }
}

/// Warns where a site can have fewer clients at once than its settings say.
pub fn warn_few<L: Log>(log: &L, site: u64, clients: ClientCount, most: u64) {
    if most < clients.value() {
        warn!(log; limit = most; "site={site} few descriptors");
    }
}
