//! What is said once both addresses are listened on.

ghost use Rattle.std.specs.Io.KnownBytes.{Appends};
ghost use Rattle.std.specs.Net.Socket.{socket_ip, socket_port};
ghost use Rattle.std.specs.Prelude.{OnOk, ◌≡◌};
ghost use Rattle.zq_site.specs.Site.{announced};

use crate::note::Listening;
use std::io::Write;
use std::net::SocketAddr;
use zq_serve::{Cause, ServeFault};
use zq_settings::SiteSettings;

/// Writes a line with the site's number, the port of its clients and the address of its peers.
///
/// `Device` where that failed.
pub fn announce<W: Write>(settings: &SiteSettings, out: &mut W) -> Result<(), ServeFault>
    ensures { OnOk result
        (Appends (W.contents out.old) (W.contents out.new) (announced settings.now)) }
{
    let site = settings.site.value();
    let port = settings.port.value();
    let listen = settings.listen;
    if writeln!(out, "site {site} port {port} peers {listen}").is_err() || out.flush().is_err() {
        return Err(ServeFault::Device(Cause::Output));
    }
    Ok(())
}

/// Where a site of these settings listens.
pub fn listening_of(settings: &SiteSettings) -> Listening {
    Listening {
        clients: clients_address(settings),
        links: settings.listen,
        admin: settings.admin.heard_at(),
    }
}

/// Where clients connect: the port of the settings at the address of `bind`.
pub fn clients_address(settings: &SiteSettings) -> SocketAddr
    ensures ip { socket_ip result ≡ settings.now.bind }
    ensures port { socket_port result ≡ settings.now.port }
{
    SocketAddr::new(settings.bind, settings.port.value() as u16)
}
