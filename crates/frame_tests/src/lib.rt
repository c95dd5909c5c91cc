//! Tests of frames: their parts, operations, operations by differences, states, the frames of links,
//! control frames, pieces of heaps, and links that fail.
#![tactic(auto)]

#[cfg(test)]
mod batch;
#[cfg(test)]
mod controls;
#[cfg(test)]
mod delta;
#[cfg(test)]
mod frames;
#[cfg(test)]
mod hex;
#[cfg(test)]
mod links;
#[cfg(test)]
mod merge;
#[cfg(test)]
mod parts;
#[cfg(test)]
mod pieces;
#[cfg(test)]
mod stream;
#[cfg(test)]
mod transfer;
#[cfg(test)]
mod walks;
