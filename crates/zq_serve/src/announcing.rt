//! What is written once all ports are listened on.

ghost use Rattle.std.specs.Io.KnownBytes.{Appends};
ghost use Rattle.std.specs.Prelude.{OnOk};
ghost use Rattle.zq_serve.specs.Announced.{announced, line_of};

use crate::fault::{Cause, ServeFault};
use std::io::Write;
use zq_settings::Port;

/// Writes a line for each site, with its number and its port.
///
/// `Device` where that failed.
pub fn announce<W: Write>(ports: &[Port], out: &mut W) -> Result<(), ServeFault>
    ensures { OnOk result
        (Appends (W.contents out.old) (W.contents out.new) (announced ports.now)) }
{
    for (site, port) in ports.iter().enumerate() {
        write_line(site, *port, out)?;
    }
    match out.flush() {
        Ok(()) => Ok(()),
        Err(_) => Err(ServeFault::Device(Cause::Output)),
    }
}

/// Writes the line of a site.
fn write_line<W: Write>(site: usize, port: Port, out: &mut W) -> Result<(), ServeFault>
    ensures { OnOk result (Appends (W.contents out.old) (W.contents out.new) (line_of site port)) }
{
    let port = port.value();
    match writeln!(out, "site {site} port {port}") {
        Ok(()) => Ok(()),
        Err(_) => Err(ServeFault::Device(Cause::Output)),
    }
}
