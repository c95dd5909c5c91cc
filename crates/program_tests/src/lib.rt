//! Tests of sites that are served, drilled, and linked over TCP.
#![tactic(auto)]

#[cfg(test)]
mod apart;
#[cfg(test)]
mod commits;
#[cfg(test)]
mod drill;
#[cfg(test)]
mod gate;
#[cfg(test)]
mod patience;
#[cfg(test)]
mod ports;
#[cfg(test)]
mod serve;
