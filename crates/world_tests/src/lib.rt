//! Tests of worlds of sites, event by event.
#![tactic(auto)]

#[cfg(test)]
mod world;
