//! Tests of what reads and writes bytes: fields, requests and replies, words, other spellings of
//! them, what a connection answers itself, settings, streams, greetings, tags, and what waits for a
//! peer.
#![tactic(auto)]

#[cfg(test)]
mod client;
#[cfg(test)]
mod dialect;
#[cfg(test)]
mod fields;
#[cfg(test)]
mod greet;
#[cfg(test)]
mod greet_new;
#[cfg(test)]
mod greeting_side;
#[cfg(test)]
mod mac;
#[cfg(test)]
mod outbox;
#[cfg(test)]
mod resp;
#[cfg(test)]
mod settings;
#[cfg(test)]
mod stream;
#[cfg(test)]
mod words;
