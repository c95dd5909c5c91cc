//! What says how a peer takes this site.

use crate::caller::Caller;
use crate::note::Note;
use crate::standing::{Sign, Standing, Word, standing_after, word_on};
use crate::warning::Warning;
use crate::warning_log::{note_of, warn_of};
use log::Log;
use zq_dots::SiteNo;

/// What says to the log how a peer takes this site: each thing once as it begins.
#[derive(Drop)]
pub struct Reception<'a, L: Log> {
    pub log: &'a L,
    /// This site.
    pub site: SiteNo,
    /// The peer.
    pub caller: Caller,
    /// What was said last.
    pub standing: Standing,
}

impl<L: Log> Reception<'_, L> {
    ghost use Rattle.std.specs.Prelude.{◌≡◌};
    ghost use Rattle.zq_site.specs.Standings.{standing_after};

    /// This is seen, and said where it was not.
    pub fn see(&mut self, sign: Sign)
        ensures { self.new.standing ≡ standing_after self.old.standing sign }
    {
        let (log, site, caller) = (self.log, self.site, self.caller);
        match word_on(self.standing, sign) {
            Word::Nothing => {}
            Word::Refused(reason) => warn_of(log, site, Warning::Unwelcome(caller, reason)),
            Word::Unopened(ending) => warn_of(log, site, Warning::Unopened(caller, ending)),
            Word::Again => note_of(log, site, Note::Accepted(caller)),
        }
        self.standing = standing_after(self.standing, sign);
    }
}
