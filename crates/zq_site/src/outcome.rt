//! What comes of a notice.

ghost use Rattle.std.specs.Prelude.{◌≡◌};
ghost use Rattle.zq_site.specs.Notices.{outcome_of};

use crate::notice::Notice;
use crate::warning::Warning;
use zq_dots::SiteNo;

/// What a site does that was told something by a notice.
#[derive(Clone, Copy)]
pub enum Outcome {
    /// It ends, and warns of that.
    Ends(Warning),
    /// It warns of that.
    Warns(Warning),
    /// Nothing.
    Nothing,
}

/// What a site does that this peer tells so, once their link is up: where the peer has a link to
/// another run of its number, it ends. Who is let go as a link is opened hears so before the link
/// counts as up to the link thread.
pub fn outcome_of(peer: SiteNo, notice: Notice) -> Outcome
    ensures { result ≡ outcome_of peer notice }
{
    match notice {
        Notice::Refused => Outcome::Ends(Warning::Dismissed(peer)),
        Notice::Kept => Outcome::Warns(Warning::Kept(peer)),
        Notice::Unwelcome(_) => Outcome::Nothing,
    }
}
