//! Tests of one heap: dots, entries, the positioned heap, the ranked list, queues, the image and
//! its book.
#![tactic(auto)]

#[cfg(test)]
mod deed;
#[cfg(test)]
mod dots;
#[cfg(test)]
mod entry;
#[cfg(test)]
mod held;
#[cfg(test)]
mod journal;
#[cfg(test)]
mod plain;
#[cfg(test)]
mod posheap;
#[cfg(test)]
mod queue;
#[cfg(test)]
mod ranked;
#[cfg(test)]
mod rows;
#[cfg(test)]
mod shard;
#[cfg(test)]
mod stage;
