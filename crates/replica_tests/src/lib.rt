//! Tests of sites that push to each other, over links in memory.
//!
//! A test is a scene: a table of steps, which are played one after the other. What a step says of
//! frames that go was counted by hand, from docs/REPLICATION.md.
#![tactic(auto)]

#[cfg(test)]
mod catching;
#[cfg(test)]
mod fences;
#[cfg(test)]
mod pushing;
#[cfg(test)]
mod routing;
#[cfg(test)]
mod scenes;
#[cfg(test)]
mod traffic;
#[cfg(test)]
mod world;
