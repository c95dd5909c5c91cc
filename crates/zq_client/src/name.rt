//! The names of the requests that a connection answers itself.

ghost use Rattle.std.specs.Prelude.{◌≡◌};
ghost use Rattle.zq_client.specs.Names.{name_of, part_of};
ghost use Rattle.zq_words.specs.Words as words;

/// A request that a connection answers itself.
#[derive(Clone, Copy, Debug, PartialEq, Eq)]
pub enum Name {
    Auth,
    Hello,
    Quit,
    Reset,
    Select,
    Client,
    Echo,
    Time,
    Info,
    Config,
    Command,
}

/// What a word behind CLIENT asks for.
#[derive(Clone, Copy, Debug, PartialEq, Eq)]
pub enum Part {
    Id,
    GetName,
    SetName,
    SetInfo,
}

/// The request of this name, in any ASCII case.
pub fn find_name(word: &[u8]) -> Option<Name>
    ensures { result ≡ name_of word.now }
{
    if is_word(word, b"AUTH") {
        Some(Name::Auth)
    } else if is_word(word, b"HELLO") {
        Some(Name::Hello)
    } else if is_word(word, b"QUIT") {
        Some(Name::Quit)
    } else if is_word(word, b"RESET") {
        Some(Name::Reset)
    } else if is_word(word, b"SELECT") {
        Some(Name::Select)
    } else if is_word(word, b"CLIENT") {
        Some(Name::Client)
    } else if is_word(word, b"ECHO") {
        Some(Name::Echo)
    } else if is_word(word, b"TIME") {
        Some(Name::Time)
    } else if is_word(word, b"INFO") {
        Some(Name::Info)
    } else if is_word(word, b"CONFIG") {
        Some(Name::Config)
    } else if is_word(word, b"COMMAND") {
        Some(Name::Command)
    } else {
        None
    }
}

/// What this word behind CLIENT asks for, in any ASCII case.
pub fn find_part(word: &[u8]) -> Option<Part>
    ensures { result ≡ part_of word.now }
{
    if is_word(word, b"ID") {
        Some(Part::Id)
    } else if is_word(word, b"GETNAME") {
        Some(Part::GetName)
    } else if is_word(word, b"SETNAME") {
        Some(Part::SetName)
    } else if is_word(word, b"SETINFO") {
        Some(Part::SetInfo)
    } else {
        None
    }
}

/// Whether a word is this one, in any ASCII case.
pub fn is_word(word: &[u8], name: &[u8]) -> bool
    ensures { result ≡ words.is word.now name.now }
{
    word.eq_ignore_ascii_case(name)
}
