//! Tests of commands over books, of sites with many threads, and of the two servers of a site.
#![tactic(auto)]

#[cfg(test)]
mod commands;
#[cfg(test)]
mod server;
#[cfg(test)]
mod spread;
