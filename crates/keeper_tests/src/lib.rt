//! Tests of the keeper of a site's log: scripts over a disk in memory, cut at each call in turn, and
//! what is read again of what a crash leaves.
#![tactic(auto)]

#[cfg(test)]
mod crashes;
#[cfg(test)]
mod flushing;
#[cfg(test)]
mod live;
#[cfg(test)]
mod playing;
#[cfg(test)]
mod refusals;
