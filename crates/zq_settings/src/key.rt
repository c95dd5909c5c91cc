//! The keys of settings.

ghost use Rattle.std.specs.Prelude.{◌≡◌};
ghost use Rattle.zq_settings.specs.Keys.{name_of};
ghost use Rattle.zq_settings.specs.Words.{exposed_of, owner_of, takes_of};

/// A key that settings may have.
#[derive(Clone, Copy, Debug, PartialEq, Eq)]
pub enum Key {
    /// The port of each site.
    Ports,
    /// The number of heaps of each site.
    Heaps,
    /// How many threads serve the connections of a site.
    Workers,
    /// How many connections each port accepts.
    Connections,
    /// How many connections a port has at once.
    Clients,
    /// How long a connection may be silent.
    Timeout,
    /// How long a connection may take no reply.
    WriteTimeout,
    /// How many bytes of replies may wait at a port.
    Output,
    /// How many bytes of operations the one site keeps written for its peers.
    LinkBacklog,
    /// How long the one site waits for its peers before it takes writes.
    Alone,
    /// Which sites of greater numbers the one site accepts.
    Accept,
    /// Where the admin port of the one site is.
    Admin,
    /// What a request at that port has to say.
    AdminToken,
    /// The address at which that port is in the place of a loopback address.
    AdminBind,
    /// The file that has the digest of the password of the one site's clients.
    PasswordFile,
    /// Whether the port of the clients may be reached by others with no password.
    Unprotected,
    /// How long the one site waits, as it is told to end, until its peers have what it made.
    Drain,
    /// The folder in which the one site keeps its log.
    Data,
    /// What waits until it is on the disk.
    Sync,
    /// How much the program's log says.
    LogLevel,
    /// How many bytes of memory the one site may take before it refuses what adds.
    MaxMemory,
    /// What draws are made with.
    Seed,
    /// Which of a member's values is its score.
    Rule,
    /// The number of the one site.
    Site,
    /// The port of its clients.
    Port,
    /// The address at which that port is.
    Bind,
    /// What it shares with its peers alone.
    Secret,
    /// Where it listens for its peers.
    Listen,
    /// Its peers.
    Peers,
    /// The number of a peer.
    PeerSite,
    /// Where a peer listens.
    PeerAddress,
}

impl Key {
    /// How the key is written.
    pub fn name(self) -> &'static str
        ensures { result.now ≡ name_of self }
    {
        match self {
            Key::Ports => "ports",
            Key::Heaps => "heaps",
            Key::Workers => "workers",
            Key::Connections => "connections",
            Key::Clients => "clients",
            Key::Timeout => "timeout",
            Key::WriteTimeout => "write_timeout",
            Key::Output => "output",
            Key::LinkBacklog => "link_backlog",
            Key::Alone => "alone",
            Key::Accept => "accept",
            Key::Admin => "admin",
            Key::AdminToken => "admin_token",
            Key::AdminBind => "admin_bind",
            Key::PasswordFile => "password_file",
            Key::Unprotected => "unprotected",
            Key::Drain => "drain",
            Key::Data => "data",
            Key::Sync => "sync",
            Key::LogLevel => "log_level",
            Key::MaxMemory => "max_memory",
            Key::Seed => "seed",
            Key::Rule => "rule",
            Key::Site | Key::PeerSite => "site",
            Key::Port => "port",
            Key::Bind => "bind",
            Key::Secret => "secret",
            Key::Listen => "listen",
            Key::Peers => "peers",
            Key::PeerAddress => "address",
        }
    }

    /// Whose key it is, before its name.
    pub(crate) fn owner(self) -> &'static str
        ensures { result.now ≡ owner_of self }
    {
        match self {
            Key::PeerSite | Key::PeerAddress => "a peer's ",
            _ => "",
        }
    }

    /// What the key's value has to be, in words.
    pub(crate) fn takes(self) -> &'static str
        ensures { result.now ≡ takes_of self }
    {
        match self {
            Key::Ports => "an array of 1 to 64 different port numbers from 1 to 65535",
            Key::Heaps => "a whole number from 2 to 16",
            Key::Workers => "a whole number from 1 to 64",
            Key::Connections | Key::Timeout | Key::WriteTimeout | Key::Alone | Key::Drain => {
                "a whole number from 0 to 1000000"
            }
            Key::Clients => "a whole number from 1 to 1000000",
            Key::Output | Key::LinkBacklog => "a whole number from 1048576 to 1099511627776",
            Key::Data => "the path of a folder, a text of 1 to 3072 bytes with no byte 0",
            Key::Sync => "\"always\" or \"soon\"",
            Key::LogLevel => "\"warn\", \"info\" or \"debug\"",
            Key::MaxMemory => "a whole number from 0 to 1099511627776",
            Key::Seed => "a whole number from 0 to 9223372036854775807",
            Key::Rule => "\"HIGH\" or \"LOW\"",
            Key::Accept => "\"any\" or \"listed\"",
            Key::Admin => "a loopback address with a port from 1 to 65535, as \"127.0.0.1:7180\"",
            Key::AdminToken => {
                "a text of 16 to 256 letters, digits and marks of ASCII, with no blank"
            }
            Key::PasswordFile => "the name of a file, a text of 1 to 4096 bytes",
            Key::Unprotected => "true or false",
            Key::Site | Key::PeerSite => "a whole number from 0 to 63",
            Key::Port => "a whole number from 1 to 65535",
            Key::Bind | Key::AdminBind => "an IP address, as \"127.0.0.1\"",
            Key::Secret => "a text of at least 16 bytes",
            Key::Listen => "an IP address with a port from 1 to 65535, as \"127.0.0.1:7101\"",
            Key::Peers => "an array of at most 63 tables of other sites",
            Key::PeerAddress => {
                "an IP address or the name of a host, with a port from 1 to 65535, as \"127.0.0.1:7101\" or \"queue-0.example:7101\""
            }
        }
    }

    /// That the key's address is open to others, and what it takes, in words: `admin` a loopback
    /// address, `admin_bind` one where there is no token, `bind` one where there is no password and
    /// it is not said that none is wanted, the others one where there is no secret.
    pub(crate) fn exposed(self) -> &'static str
        ensures { result.now ≡ exposed_of self }
    {
        match self {
            Key::PeerAddress => {
                "neither a loopback address nor localhost: without a secret of at least 16 bytes it takes one of these"
            }
            Key::Admin => "no loopback address: it takes one, and admin_bind another",
            Key::AdminBind => "no loopback address: without an admin_token it takes one",
            Key::Bind => {
                "no loopback address: without a password_file or unprotected = true it takes one"
            }
            _ => "no loopback address: without a secret of at least 16 bytes it takes one",
        }
    }
}
