//! The commands that are counted, each by itself.

ghost use Rattle.std.specs.Prelude.{◌<◌, ◌≡◌, ◌↔◌, IsTrue, length, map, true};
ghost use Rattle.zq_metrics.specs.Commands as wanted;

/// How many there are.
pub const COMMANDS: usize = 14;

/// A command that is counted by itself.
#[derive(Clone, Copy, Debug, PartialEq, Eq)]
pub enum Command {
    Ping,
    Zadd,
    Zincrby,
    Zrem,
    Zscore,
    Zcard,
    Zcount,
    Zrank,
    Zrevrank,
    Zrange,
    Zpopmin,
    Zpopnear,
    Del,
    /// What is no command.
    Other,
}

impl Command {
    /// The command's place among all.
    pub fn place(self) -> usize
        ensures place { result ≡ wanted.place_of self }
        ensures within { result < 14 }
    {
        match self {
            Command::Ping => 0,
            Command::Zadd => 1,
            Command::Zincrby => 2,
            Command::Zrem => 3,
            Command::Zscore => 4,
            Command::Zcard => 5,
            Command::Zcount => 6,
            Command::Zrank => 7,
            Command::Zrevrank => 8,
            Command::Zrange => 9,
            Command::Zpopmin => 10,
            Command::Zpopnear => 11,
            Command::Del => 12,
            Command::Other => 13,
        }
    }
}

/// The name of the command at a place, in small letters, and `other` behind all.
#[tactic(auto, unfolding(crate::specs::Commands::label_at))]
pub(crate) fn label_at(place: usize) -> &'static str
    ensures { result.now ≡ wanted.label_at place }
{
    match place {
        0 => "ping",
        1 => "zadd",
        2 => "zincrby",
        3 => "zrem",
        4 => "zscore",
        5 => "zcard",
        6 => "zcount",
        7 => "zrank",
        8 => "zrevrank",
        9 => "zrange",
        10 => "zpopmin",
        11 => "zpopnear",
        12 => "del",
        _ => "other",
    }
}

/// The command of this name, in any ASCII case. Its length comes first, so that few names are
/// compared.
pub fn command_of(name: &[u8]) -> Command
    ensures { result ≡ wanted.command_of name.now }
{
    match name.len() {
        3 => of_three(name),
        4 => of_four(name),
        5 => of_five(name),
        6 => of_six(name),
        7 => of_seven(name),
        8 => of_eight(name),
        _ => Command::Other,
    }
}

/// The command of this name of three bytes.
fn of_three(name: &[u8]) -> Command
    requires { length name.now ≡ 3 }
    ensures { result ≡ wanted.command_of name.now }
{
    if is_three(name, *b"del") {
        Command::Del
    } else {
        Command::Other
    }
}

/// The command of this name of four bytes.
fn of_four(name: &[u8]) -> Command
    requires { length name.now ≡ 4 }
    ensures { result ≡ wanted.command_of name.now }
{
    if is_four(name, *b"zadd") {
        Command::Zadd
    } else if is_four(name, *b"zrem") {
        Command::Zrem
    } else if is_four(name, *b"ping") {
        Command::Ping
    } else {
        Command::Other
    }
}

/// The command of this name of five bytes.
fn of_five(name: &[u8]) -> Command
    requires { length name.now ≡ 5 }
    ensures { result ≡ wanted.command_of name.now }
{
    if is_five(name, *b"zcard") {
        Command::Zcard
    } else if is_five(name, *b"zrank") {
        Command::Zrank
    } else {
        Command::Other
    }
}

/// The command of this name of six bytes.
fn of_six(name: &[u8]) -> Command
    requires { length name.now ≡ 6 }
    ensures { result ≡ wanted.command_of name.now }
{
    if is_six(name, *b"zscore") {
        Command::Zscore
    } else if is_six(name, *b"zrange") {
        Command::Zrange
    } else if is_six(name, *b"zcount") {
        Command::Zcount
    } else {
        Command::Other
    }
}

/// The command of this name of seven bytes.
fn of_seven(name: &[u8]) -> Command
    requires { length name.now ≡ 7 }
    ensures { result ≡ wanted.command_of name.now }
{
    if is_seven(name, *b"zpopmin") {
        Command::Zpopmin
    } else if is_seven(name, *b"zincrby") {
        Command::Zincrby
    } else {
        Command::Other
    }
}

/// The command of this name of eight bytes.
fn of_eight(name: &[u8]) -> Command
    requires { length name.now ≡ 8 }
    ensures { result ≡ wanted.command_of name.now }
{
    if is_eight(name, *b"zpopnear") {
        Command::Zpopnear
    } else if is_eight(name, *b"zrevrank") {
        Command::Zrevrank
    } else {
        Command::Other
    }
}

/// The bit in which a small letter differs from its great one, in each of eight bytes.
const SMALL: u64 = 0x2020_2020_2020_2020;

/// Whether eight bytes are these, once that bit is set in each: they are compared at once.
#[inline(always)]
fn are_spelled(word: &[u8; 8], text: &[u8; 8]) -> bool
    ensures { IsTrue result ↔ (map wanted.small word.now ≡ text.now) }
{
    u64::from_le_bytes(*word) | SMALL == u64::from_le_bytes(*text)
}

/// Whether a name is this text of three small letters, in any ASCII case.
#[inline(always)]
fn is_three(name: &[u8], text: [u8; 3]) -> bool
    requires { wanted.are_small text ≡ true }
    ensures { result ≡ wanted.is name.now text }
{
    let [p, q, r] = text;
    match name {
        [a, b, c] => are_spelled(
            &[*a, *b, *c, 0, 0, 0, 0, 0],
            &[p, q, r, b' ', b' ', b' ', b' ', b' '],
        ),
        _ => false,
    }
}

/// Whether a name is this text of four small letters, in any ASCII case.
#[inline(always)]
fn is_four(name: &[u8], text: [u8; 4]) -> bool
    requires { wanted.are_small text ≡ true }
    ensures { result ≡ wanted.is name.now text }
{
    let [p, q, r, s] = text;
    match name {
        [a, b, c, d] => are_spelled(
            &[*a, *b, *c, *d, 0, 0, 0, 0],
            &[p, q, r, s, b' ', b' ', b' ', b' '],
        ),
        _ => false,
    }
}

/// Whether a name is this text of five small letters, in any ASCII case.
#[inline(always)]
fn is_five(name: &[u8], text: [u8; 5]) -> bool
    requires { wanted.are_small text ≡ true }
    ensures { result ≡ wanted.is name.now text }
{
    let [p, q, r, s, t] = text;
    match name {
        [a, b, c, d, e] => are_spelled(
            &[*a, *b, *c, *d, *e, 0, 0, 0],
            &[p, q, r, s, t, b' ', b' ', b' '],
        ),
        _ => false,
    }
}

/// Whether a name is this text of six small letters, in any ASCII case.
#[inline(always)]
fn is_six(name: &[u8], text: [u8; 6]) -> bool
    requires { wanted.are_small text ≡ true }
    ensures { result ≡ wanted.is name.now text }
{
    let [p, q, r, s, t, u] = text;
    match name {
        [a, b, c, d, e, f] => are_spelled(
            &[*a, *b, *c, *d, *e, *f, 0, 0],
            &[p, q, r, s, t, u, b' ', b' '],
        ),
        _ => false,
    }
}

/// Whether a name is this text of seven small letters, in any ASCII case.
#[inline(always)]
fn is_seven(name: &[u8], text: [u8; 7]) -> bool
    requires { wanted.are_small text ≡ true }
    ensures { result ≡ wanted.is name.now text }
{
    let [p, q, r, s, t, u, v] = text;
    match name {
        [a, b, c, d, e, f, g] => are_spelled(
            &[*a, *b, *c, *d, *e, *f, *g, 0],
            &[p, q, r, s, t, u, v, b' '],
        ),
        _ => false,
    }
}

/// Whether a name is this text of eight small letters, in any ASCII case.
#[inline(always)]
fn is_eight(name: &[u8], text: [u8; 8]) -> bool
    requires { wanted.are_small text ≡ true }
    ensures { result ≡ wanted.is name.now text }
{
    let [p, q, r, s, t, u, v, w] = text;
    match name {
        [a, b, c, d, e, f, g, h] => are_spelled(
            &[*a, *b, *c, *d, *e, *f, *g, *h],
            &[p, q, r, s, t, u, v, w],
        ),
        _ => false,
    }
}
