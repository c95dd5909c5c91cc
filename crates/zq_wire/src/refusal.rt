//! Why a peer is let go.

use crate::form::Form;
use crate::versions::Versions;
use std::fmt;

/// Why a peer is not welcome: the first thing, from the left, that does not agree.
#[derive(Clone, Copy, Debug, PartialEq, Eq)]
pub enum Refusal {
    /// The bytes do not begin as a greeting.
    Magic,
    /// The peer speaks none of the versions that this site speaks, or no range of versions.
    Version {
        /// What the peer speaks, as it says. Of a greeting that is not in the new form both are the
        /// byte that stands for the version.
        heard: Versions,
        /// What this site speaks.
        own: Versions,
    },
    /// The peer greets in this form, and this site greeted it in the other.
    Form(Form),
    /// The peer has the number of this site.
    SameSite,
    /// The peer has this number, and is not expected.
    Unexpected(u8),
    /// The peer has this number of heaps, and this site another.
    Heaps(u8),
    /// The peer has another rule.
    Rule,
    /// The peer wants a secret, and this site has none.
    SecretThere,
    /// This site wants a secret, and the peer has none.
    SecretHere,
    /// The peer's answer is not the one that the secret gives.
    Answer,
}

impl fmt::Display for Refusal {
    ghost use Rattle.std.specs.Prelude.{Some};
    ghost use Rattle.zq_wire.specs.Words.{words_of};

    ghost output = { λ refusal. Some (words_of refusal) };

    /// What does not agree, on one line.
    fn fmt<W: fmt::Write>(&self, f: &mut fmt::Formatter<W>) -> fmt::Result {
        match self {
            Refusal::Magic => f.write_str("it does not greet as a site does"),
            Refusal::Version { heard, own } => {
                write!(f, "it speaks {heard} of the protocol, and this site {own}")
            }
            Refusal::Form(Form::Old) => f.write_str("it greets in the old form"),
            Refusal::Form(Form::New) => f.write_str("it greets in the new form"),
            Refusal::SameSite => f.write_str("it has the number of this site"),
            Refusal::Unexpected(site) => write!(f, "site {site} is not expected"),
            Refusal::Heaps(heaps) => write!(f, "it has {heaps} heaps"),
            Refusal::Rule => f.write_str("it has another rule"),
            Refusal::SecretThere => f.write_str("it wants a secret, and this site has none"),
            Refusal::SecretHere => f.write_str("it has no secret, and this site wants one"),
            Refusal::Answer => f.write_str("it does not know the secret"),
        }
    }
}
