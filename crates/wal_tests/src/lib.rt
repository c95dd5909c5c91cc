//! Tests of a log over a disk in memory: what is read of damaged and of torn files, and what a
//! crash leaves after each call of a script. What is expected was told by an independent model of the
//! format, of the disk and of a log. And tests of a log over files.
#![tactic(auto)]

#[cfg(test)]
mod damage;
#[cfg(test)]
mod files;
#[cfg(test)]
mod hex;
#[cfg(test)]
mod scripts;
#[cfg(test)]
mod taken;
