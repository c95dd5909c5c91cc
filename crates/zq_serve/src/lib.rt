//! Serves the sites of a settings file over loopback: each site on a port of its own, its many
//! connections by a few workers. A link thread for each site tells the other sites what it has, and
//! hears what they have. What serves one site is public, for those who link sites in another way.
#![tactic(auto)]

mod admission;
mod admitting;
mod announcing;
mod answerer;
mod caller;
mod client_acceptor;
mod commit_laws;
mod commits;
mod control;
mod counting;
mod denial;
mod descriptors;
mod desk;
mod durable;
mod fault;
mod gate;
mod hashing;
mod inboxes;
mod knowing;
mod knowing_laws;
mod limits;
mod linker;
mod links;
mod loading;
mod mailboxes;
mod memory;
mod memory_guard;
mod notifier;
mod plans;
mod ports;
mod queue;
mod rewriting;
mod running;
mod serving;
mod threads;
mod ticking;
mod transacting;
mod warning;
mod worker;

pub use admission::Admission;
pub use client_acceptor::ClientAcceptor;
pub use commit_laws::{failures_hold, tickets_are_kept};
pub use commits::{Commits, Rounds, Writes};
pub use descriptors::most_clients;
pub use desk::Desk;
pub use durable::Durable;
pub use fault::{Cause, DataFault, ServeFault, fault_of};
pub use gate::{Gate, Pace};
pub use hashing::draw_hasher;
pub use inboxes::Inboxes;
pub use knowing_laws::{strangers_reach_nothing, transactions_are_one};
pub use limits::{guarded, limits_of, warn_few};
pub use linker::{Linker, NodeWork};
pub use mailboxes::most_waiting;
pub use memory::Memory;
pub use memory_guard::MemoryGuard;
pub use plans::plan_of;
pub use ports::{OpenPort, address_of, listen, open_port};
pub use running::run_clients;
pub use serving::serve;
pub use threads::{ClientThreads, SiteThreads};
pub use worker::Worker;
