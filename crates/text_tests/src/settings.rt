//! Texts with settings, and texts that are refused.

mod admin_refused;
mod bound_refused;
mod disk_keys;
mod given;
mod guard_refused;
mod name_refused;
mod reach_refused;
mod refused;
mod site_given;
mod site_refused;

use zq_settings::ClientLimits;

/// `clients`, `timeout`, `write_timeout` and `output`.
type Limits = (u64, u64, u64, u64);

fn has_limits(given: &ClientLimits, limits: Limits) -> bool {
    let (clients, timeout, write_timeout, output) = limits;
    given.clients.value() == clients
        && given.timeout.value() == timeout
        && given.write_timeout.value() == write_timeout
        && given.output.value() == output
}
