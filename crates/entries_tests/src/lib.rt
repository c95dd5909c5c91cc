//! Tests of the entries of a site's log: their bytes by hand, faults, beginnings and changed bits;
//! and of the heaps that are made again from logs of them.
#![tactic(auto)]

#[cfg(test)]
mod entries;
#[cfg(test)]
mod hex;
#[cfg(test)]
mod logs;
#[cfg(test)]
mod recovery;
#[cfg(test)]
mod vectors;
