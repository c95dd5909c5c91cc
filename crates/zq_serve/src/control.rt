//! The requests by which a connection has several others answered as one, and that by which it has
//! the site end (Redis command reference: transactions and server).

ghost use Rattle.std.specs.Prelude.{◌≡◌};
ghost use Rattle.zq_serve.specs.Controls as controls;
ghost use Rattle.zq_words.specs.Words.{views};
ghost use Rattle.zq_words.specs.Words as words;

/// A request that begins, ends or guards what is answered as one, or has the site end.
#[derive(Clone, Copy)]
pub enum Control {
    /// Requests wait from now on.
    Multi,
    /// Those that wait are answered.
    Exec,
    /// Those that wait are forgotten.
    Discard,
    /// What waits is answered only where these keys were not changed meanwhile.
    Watch,
    /// No key is watched any more.
    Unwatch,
    /// The site ends.
    Shutdown,
}

/// The request that the first word names, where it is one of these.
pub fn control_of(words: &[Vec<u8>]) -> Option<Control>
    ensures { result ≡ controls.control_of (views words.now) }
{
    match words {
        [] => None,
        [name, ..] => find_control(name),
    }
}

/// The request of this name, in any ASCII case.
fn find_control(word: &[u8]) -> Option<Control>
    ensures { result ≡ controls.control_named word.now }
{
    if is(word, b"MULTI") {
        Some(Control::Multi)
    } else if is(word, b"EXEC") {
        Some(Control::Exec)
    } else if is(word, b"DISCARD") {
        Some(Control::Discard)
    } else if is(word, b"WATCH") {
        Some(Control::Watch)
    } else if is(word, b"UNWATCH") {
        Some(Control::Unwatch)
    } else if is(word, b"SHUTDOWN") {
        Some(Control::Shutdown)
    } else {
        None
    }
}

/// Whether a connection answers a request of these words itself where it is queued, once the others
/// are answered: ECHO and TIME.
pub fn is_own_at_end(words: &[Vec<u8>]) -> bool
    ensures { result ≡ controls.is_own_at_end (views words.now) }
{
    match words {
        [] => false,
        [name, ..] => is(name, b"ECHO") || is(name, b"TIME"),
    }
}

/// Whether such a request has as many words as it takes.
pub fn is_whole(words: &[Vec<u8>]) -> bool
    ensures { result ≡ controls.is_whole (views words.now) }
{
    match words {
        [name] => is(name, b"TIME"),
        [name, _] => is(name, b"ECHO"),
        _ => false,
    }
}

/// Whether a request of these words is answered at once, whatever waits: QUIT, and RESET with no
/// word behind it.
pub fn ends_all(words: &[Vec<u8>]) -> bool
    ensures { result ≡ controls.ends_all (views words.now) }
{
    match words {
        [] => false,
        [name, ..] => is(name, b"QUIT") || is_reset(words),
    }
}

/// Whether these words are RESET, with none behind it.
pub fn is_reset(words: &[Vec<u8>]) -> bool
    ensures { result ≡ controls.is_reset (views words.now) }
{
    match words {
        [name] => is(name, b"RESET"),
        _ => false,
    }
}

/// Whether these are words that may stand behind SHUTDOWN, three at most. They say how a server of
/// another kind keeps what it has, and change nothing here.
pub fn are_shutdown_options(words: &[Vec<u8>]) -> bool
    ensures { result ≡ controls.are_shutdown_options (views words.now) }
{
    match words {
        [first] => is_shutdown_option(first),
        [first, second] => is_shutdown_option(first) && is_shutdown_option(second),
        [first, second, third] => {
            is_shutdown_option(first) && is_shutdown_option(second) && is_shutdown_option(third)
        }
        _ => false,
    }
}

fn is_shutdown_option(word: &[u8]) -> bool
    ensures { result ≡ controls.is_shutdown_option word.now }
{
    is(word, b"SAVE") || is(word, b"NOSAVE") || is(word, b"NOW") || is(word, b"FORCE")
}

/// Whether a word is this name, in any ASCII case.
fn is(word: &[u8], name: &[u8]) -> bool
    ensures { result ≡ words.is word.now name.now }
{
    word.eq_ignore_ascii_case(name)
}
