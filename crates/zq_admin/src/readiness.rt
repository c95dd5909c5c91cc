//! How ready a site is.

ghost use Rattle.std.specs.Prelude.{codes, ◌≡◌};
ghost use Rattle.zq_admin.specs.Replies.{is_ready, words_of};

/// How ready a site is to serve its clients.
#[derive(Clone, Copy, Debug, PartialEq, Eq)]
pub enum Readiness {
    /// It serves all commands, and has what its peers had as it began.
    Ready,
    /// It refuses writes until its peers are heard.
    Waits,
    /// It lacks something of what its peers had as it began.
    Follows,
    /// It was told to end.
    Stops,
    /// Another run used its number, so that it ends.
    Fenced,
}

impl Readiness {
    /// Whether it is ready.
    pub fn is_ready(self) -> bool
        ensures { result ≡ is_ready self }
    {
        match self {
            Readiness::Ready => true,
            Readiness::Waits | Readiness::Follows | Readiness::Stops | Readiness::Fenced => false,
        }
    }

    /// The same in words, on one line.
    pub fn words(self) -> &'static str
        ensures { result.now ≡ words_of self }
    {
        match self {
            Readiness::Ready => "ready\n",
            Readiness::Waits => "the site waits for its peers\n",
            Readiness::Follows => "the site catches up with its peers\n",
            Readiness::Stops => "the site ends\n",
            Readiness::Fenced => "another run used the site's number\n",
        }
    }
}
