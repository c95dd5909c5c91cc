//! The settings of a server of sites, and those of one site, read from a TOML text: its values, or
//! the first reason for which the text has none, in words that its author can act on.
#![tactic(auto)]

mod accept;
mod accepting;
mod address;
mod admin;
mod admin_port;
mod admin_token;
mod common;
mod data_keys;
mod data_path;
mod entries;
mod fault;
mod form;
mod host_name;
mod key;
pub mod laws;
mod log_level;
mod log_leveling;
mod lookup;
mod name;
mod naming;
mod number;
mod password_file;
mod peer;
mod peer_address;
mod peering;
mod peers;
mod ports;
mod protection;
mod read;
mod secret;
mod sync_mode;
mod table;
mod unknown;
mod values;
mod why;
mod within;

pub use accept::Accept;
pub use admin_token::AdminToken;
pub use data_path::DataPath;
pub use fault::SettingsFault;
pub use form::Form;
pub use host_name::HostName;
pub use key::Key;
pub use log_level::LogLevel;
pub use name::Name;
pub use password_file::PasswordFile;
pub use peer::Peer;
pub use peer_address::PeerAddress;
pub use peers::{MOST_PEERS, Peers};
pub use ports::{MOST_PORTS, Port, Ports};
pub use read::{settings, site_settings};
pub use secret::{LEAST_SECRET, Secret};
pub use sync_mode::SyncMode;
pub use values::{
    AdminSettings, BacklogSize, ClientCount, ClientLimits, ConnectionCount, DiskSettings,
    HeapCount, MemorySize, OutputSize, Protection, Seconds, Seed, Settings, SiteSettings,
    WorkerCount,
};
pub use why::Why;
pub use within::Within;
