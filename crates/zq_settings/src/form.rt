//! The kinds of tables that settings have.

ghost use Rattle.std.specs.Prelude.{◌≡◌};
ghost use Rattle.zq_settings.specs.Keys.{is_known};
ghost use Rattle.zq_settings.specs.Words.{keys_text};

/// A kind of table, with keys of its own.
#[derive(Clone, Copy, Debug, PartialEq, Eq)]
pub enum Form {
    /// The settings of a server of sites.
    Sites,
    /// The settings of one site.
    Site,
    /// A peer in the settings of one site.
    Peer,
}

impl Form {
    /// Whether a table of this kind may have a key of this name.
    pub(crate) fn has_key(self, name: &str) -> bool
        ensures { result ≡ is_known self name.now }
    {
        match self {
            Form::Sites => is_key_of_sites(name),
            Form::Site => is_key_of_site(name),
            Form::Peer => matches!(name, "site" | "address"),
        }
    }

    /// What has these keys, and which they are, in words.
    pub(crate) fn keys(self) -> &'static str
        ensures { result.now ≡ keys_text self }
    {
        match self {
            Form::Sites => {
                "settings, which are ports, heaps, workers, connections, clients, timeout, write_timeout, output, log_level, seed and rule"
            }
            Form::Site => {
                "a site's settings, which are site, port, bind, secret, listen, peers, heaps, workers, connections, clients, timeout, write_timeout, output, link_backlog, alone, accept, admin, admin_token, admin_bind, password_file, unprotected, drain, data, sync, log_level, max_memory, seed and rule"
            }
            Form::Peer => "a peer, which are site and address",
        }
    }
}

/// Whether the settings of a server of sites may have a key of this name.
fn is_key_of_sites(name: &str) -> bool
    ensures { result ≡ is_known Form.Sites name.now }
{
    matches!(
        name,
        "ports"
            | "heaps"
            | "workers"
            | "connections"
            | "clients"
            | "timeout"
            | "write_timeout"
            | "output"
            | "log_level"
            | "seed"
            | "rule"
    )
}

/// Whether the settings of one site may have a key of this name.
fn is_key_of_site(name: &str) -> bool
    ensures { result ≡ is_known Form.Site name.now }
{
    matches!(
        name,
        "site"
            | "port"
            | "bind"
            | "secret"
            | "listen"
            | "peers"
            | "heaps"
            | "workers"
            | "connections"
            | "clients"
            | "timeout"
            | "write_timeout"
            | "output"
            | "link_backlog"
            | "alone"
            | "accept"
            | "admin"
            | "admin_token"
            | "admin_bind"
            | "password_file"
            | "unprotected"
            | "drain"
            | "data"
            | "sync"
            | "log_level"
            | "max_memory"
            | "seed"
            | "rule"
    )
}
