//! Why a text of settings is refused.

ghost use Rattle.std.specs.Fmt.{DisplaysOnOk};
ghost use Rattle.std.specs.Prelude.{Some, option_map};
ghost use Rattle.zq_settings.specs.Words.{fault_text, words_of};
ghost use Rattle.zq_settings.specs.declared.why.Why.TheVariants.{Exposed};

use crate::form::Form;
use crate::key::Key;
use crate::name::Name;
use crate::ports::Port;
use std::fmt;
use toml::de;
use zq_dots::SiteNo;

/// The first rule that a text of settings breaks. First comes that it is TOML, then that it has no
/// other keys, and then the rules of its keys. Of several sites these are `ports`, `heaps`,
/// `workers`, `connections`, `clients`, `timeout`, `write_timeout`, `output`, `log_level`, `seed`
/// and `rule`, in this order. Of one site they are `site`, `port`, `bind`, `secret`, `listen`,
/// `peers`, and then `heaps` and the others, with `link_backlog`, `alone`, `accept`, `admin`,
/// `admin_token`, `admin_bind`, `password_file`, `unprotected`, that `bind` is not open to others
/// without one of these two, `drain`, `data` and `sync` after `output`, and `max_memory` after
/// `log_level`. The entries of `peers` come one by one: that it is a table, that it has no other
/// keys, then the rules of its `site` and of its `address`.
#[derive(Debug, Drop)]
pub enum Why {
    /// The text is not TOML.
    Text {
        /// The line of the fault, from 1.
        line: usize,
        /// What TOML does not take.
        error: de::Error,
    },
    /// A key that a table of this kind does not have: of several the least, by the bytes of their
    /// names.
    Unknown(Form, Name),
    /// There is no such key.
    Missing(Key),
    /// The array at the key has this number of entries, which is too few or too many.
    Count(Key, usize),
    /// The key has a value of another kind. For `ports` and `peers` the value may be an array: then
    /// its first entry that is no port is no whole number, and its first entry that is no peer is
    /// no table.
    Kind(Key),
    /// The key has a value of its kind that it does not take. For `ports` the first entry that is
    /// no port is a whole number out of range.
    Range(Key),
    /// Two sites have this port: of several such ports the one that stands first.
    Twice(Port),
    /// Two peers have this number: of several such numbers the one that stands first.
    PeerTwice(SiteNo),
    /// A peer has this number, which is the site's own.
    OwnPeer(SiteNo),
    /// The address at the key is no loopback address, nor of a peer `localhost`, and there is no
    /// secret. At `admin` there may be one; at `admin_bind` there is no token, and at `bind` neither
    /// a password nor that none is wanted.
    Exposed(Key),
}

impl fmt::Display for Why {
    ghost output = { words_of };

    /// What is wrong, on one line, and what belongs there.
    fn fmt<W: fmt::Write>(&self, f: &mut fmt::Formatter<W>) -> fmt::Result {
        match self {
            Why::Text { line, error } => {
                let message = error.message();
                write!(f, "line {line} is not TOML: {message}")
            }
            Why::Unknown(form, name) => {
                let name = name.as_str();
                let keys = form.keys();
                write!(f, "{name:?} is not a key of {keys}")
            }
            Why::Missing(key) => write_fault(f, *key, "is missing"),
            Why::Count(key, count) => write_fault(f, *key, format_args!("has {count} entries")),
            Why::Kind(key) => write_fault(f, *key, "has a value of another kind"),
            Why::Range(key) => write_fault(f, *key, "has a value out of range"),
            Why::Twice(port) => {
                let port = port.value();
                write_fault(f, Key::Ports, format_args!("has {port} twice"))
            }
            Why::PeerTwice(site) => {
                let site = site.value();
                write_fault(f, Key::Peers, format_args!("has site {site} twice"))
            }
            Why::OwnPeer(site) => {
                let site = site.value();
                write_fault(
                    f,
                    Key::Peers,
                    format_args!("has the site's own number {site}"),
                )
            }
            Why::Exposed(key) => write_exposed(f, *key),
        }
    }
}

/// What is wrong with the key's value, and what the key takes.
fn write_fault<W: fmt::Write, F: fmt::Display + Drop>(
    f: &mut fmt::Formatter<W>,
    key: Key,
    fault: F,
) -> fmt::Result
    ensures { DisplaysOnOk W.write_str_gives f.old result
        (option_map (fault_text key) (F.output fault)) f.new }
{
    let owner = key.owner();
    let name = key.name();
    let takes = key.takes();
    write!(f, "{owner}{name} {fault}: it takes {takes}")
}

/// That the key's address is open to others, and what belongs there.
fn write_exposed<W: fmt::Write>(f: &mut fmt::Formatter<W>, key: Key) -> fmt::Result
    ensures { DisplaysOnOk W.write_str_gives f.old result (words_of (Exposed key)) f.new }
{
    let owner = key.owner();
    let name = key.name();
    let exposed = key.exposed();
    write!(f, "{owner}{name} is {exposed}")
}
