//! Who sent a request.

/// What is known of who sent a request.
#[derive(Clone, Copy, Debug, PartialEq, Eq)]
pub struct Sender {
    /// It said the token, or none is asked for.
    pub known: bool,
    /// No page of another origin can have sent it.
    pub trusted: bool,
    /// It was sent to an address or to `localhost`, or a token is asked for: no page of another
    /// origin can read what is answered.
    pub direct: bool,
}
