//! What a site tells its clients of itself.

use std::time::Clock;
use zq_client::Password;
use zq_serve::Desk;
use zq_settings::SiteSettings;

/// The version that clients are told: that of the program.
pub const VERSION: &str = "0.3.0";

/// How many names of requests a site knows: thirteen commands, four older names of these, six
/// further requests on keys, eleven that a connection answers itself, five of transactions, and
/// SHUTDOWN.
const COMMANDS: u32 = 40;

/// What the site of these settings tells its clients, who have to show this password, if there is
/// one. Where they have to, or all are of this machine, a client may have the site end.
pub fn desk_of<R: Clock>(rt: &R, settings: &SiteSettings, password: Option<Password>) -> Desk {
    let may_end = password.is_some() || settings.bind.is_loopback();
    Desk::new(
        rt,
        password,
        VERSION,
        COMMANDS,
        settings.max_memory.value(),
        settings.limits.timeout.value(),
        may_end,
    )
}
