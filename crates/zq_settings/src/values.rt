//! The values of settings.

use crate::accept::Accept;
use crate::admin_token::AdminToken;
use crate::data_path::DataPath;
use crate::log_level::LogLevel;
use crate::password_file::PasswordFile;
use crate::peers::Peers;
use crate::ports::{Port, Ports};
use crate::secret::Secret;
use crate::sync_mode::SyncMode;
use crate::within::Within;
use std::net::{IpAddr, SocketAddr};
use zq_dots::{Rule, SiteNo};

/// A number of heaps, 2 to 16.
pub type HeapCount = Within<2, 16>;

/// A number of threads that serve connections, 1 to 64.
pub type WorkerCount = Within<1, 64>;

/// A number of connections, 1 to 1,000,000.
pub type ConnectionCount = Within<1, 1_000_000>;

/// A number of connections that a port has at once, 1 to 1,000,000.
pub type ClientCount = Within<1, 1_000_000>;

/// A number of seconds, 0 to 1,000,000.
pub type Seconds = Within<0, 1_000_000>;

/// A number of bytes of replies that wait at a port, 1,048,576 to 1,099,511,627,776.
pub type OutputSize = Within<1_048_576, 1_099_511_627_776>;

/// A number of bytes of operations that are kept for peers, 1,048,576 to 1,099,511,627,776.
pub type BacklogSize = Within<1_048_576, 1_099_511_627_776>;

/// A number of bytes of memory, 0 to 1,099,511,627,776.
pub type MemorySize = Within<0, 1_099_511_627_776>;

/// What draws are made with: a number that an `i64` holds, not below 0.
pub type Seed = Within<0, 9_223_372_036_854_775_807>;

/// What limits the clients of a port.
#[derive(Clone, Copy, Debug)]
pub struct ClientLimits {
    /// The most connections at once.
    pub clients: ClientCount,
    /// After how many seconds of silence a connection is closed. 0 is never.
    pub timeout: Seconds,
    /// After how many seconds a connection is closed that is owed bytes and takes none. 0 is never.
    pub write_timeout: Seconds,
    /// The most bytes of replies that may wait, over all connections of the port.
    pub output: OutputSize,
}

/// The settings of a server of sites.
#[derive(Debug, Drop)]
pub struct Settings {
    /// The port of each site.
    pub ports: Ports,
    /// The number of heaps of each site.
    pub heaps: HeapCount,
    /// How many threads serve the connections of a site.
    pub workers: WorkerCount,
    /// How many connections each port accepts before the server ends. With `None` it does not end.
    pub connections: Option<ConnectionCount>,
    /// What limits the clients of each port.
    pub limits: ClientLimits,
    /// How much the program's log says.
    pub log_level: LogLevel,
    /// What each worker's draws are made with.
    pub seed: Seed,
    /// Which of a member's values is its score.
    pub rule: Rule,
}

/// The admin port of a site.
#[derive(Debug, Drop)]
pub struct AdminSettings {
    /// Where it is: a loopback address with a port that is not 0, whether or not there is a secret.
    /// With `None` there is none.
    pub address: Option<SocketAddr>,
    /// What each request there has to say, but one for `/healthz`. With `None` nothing.
    pub token: Option<AdminToken>,
    /// The address at which the port is in the place of the loopback address. Where there is no
    /// token it is a loopback address too.
    pub bind: Option<IpAddr>,
}

/// What protects a site from whoever reaches the port of its clients.
#[derive(Debug, Drop)]
pub struct Protection {
    /// The file whose first line is the SHA-256 digest of the password that clients have to show.
    /// With `None` they need none.
    pub password_file: Option<PasswordFile>,
    /// Whether the port may be at an address that others reach where there is no password.
    pub unprotected: bool,
}

/// What a site keeps on disk.
#[derive(Debug, Drop)]
pub struct DiskSettings {
    /// The folder of its log. With `None` it keeps nothing.
    pub path: Option<DataPath>,
    /// What waits until it is on the disk, where it keeps a log.
    pub sync: SyncMode,
}

/// The settings of one site in a process of its own.
#[derive(Debug, Drop)]
pub struct SiteSettings {
    /// Its number.
    pub site: SiteNo,
    /// The port of its clients.
    pub port: Port,
    /// The address at which that port is: a loopback address where there is no password and it is
    /// not said that none is wanted.
    pub bind: IpAddr,
    /// Where it listens for its peers: a loopback address where there is no secret. The port is not
    /// 0.
    pub listen: SocketAddr,
    /// Its peers, none of which has its number. Where there is no secret their addresses are
    /// loopback addresses or `localhost`.
    pub peers: Peers,
    /// Its number of heaps.
    pub heaps: HeapCount,
    /// Which of a member's values is its score.
    pub rule: Rule,
    /// How many threads serve its connections. With `None` as many as there are processors, 4 at
    /// most.
    pub workers: Option<WorkerCount>,
    /// How many connections its port accepts before the site ends. With `None` it does not end.
    pub connections: Option<ConnectionCount>,
    /// What limits its clients.
    pub limits: ClientLimits,
    /// How many bytes of operations it keeps written for its peers, over all its heaps.
    pub link_backlog: BacklogSize,
    /// How many seconds it waits at most, as it starts, to hear its peers before it takes writes.
    pub alone: Seconds,
    /// Which sites of greater numbers it accepts.
    pub accept: Accept,
    /// Its admin port.
    pub admin: AdminSettings,
    /// What protects it from whoever reaches the port of its clients.
    pub protection: Protection,
    /// How many seconds it waits at most, as it is told to end, until its peers have what it made.
    /// With 0 it does not wait.
    pub drain: Seconds,
    /// What it keeps on disk.
    pub disk: DiskSettings,
    /// How much the program's log says.
    pub log_level: LogLevel,
    /// How many bytes of memory the process may take before commands that add are refused. With 0
    /// there is no bound.
    pub max_memory: MemorySize,
    /// What each worker's draws are made with.
    pub seed: Seed,
    /// What it shares with its peers, to know them by. With `None` whoever comes is believed.
    pub secret: Option<Secret>,
}

/// What both kinds of settings have, from `heaps` to `output`.
#[derive(Debug, Drop)]
pub(crate) struct Common {
    pub(crate) heaps: HeapCount,
    pub(crate) workers: WorkerCount,
    pub(crate) connections: Option<ConnectionCount>,
    pub(crate) limits: ClientLimits,
}
