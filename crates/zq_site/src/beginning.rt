//! What a site waits for as it begins.

ghost use Rattle.zq_node.specs.Node.{IsNode, IsSameHome};

use crate::note::Note;
use crate::peer_links::is_dialled;
use crate::progress::{Deed, Progress, Sight, Stage, deed_next, is_asked, next_progress};
use crate::shared::Shared;
use crate::warning::Warning;
use crate::warning_log::{note_of, warn_of};
use log::Log;
use std::sync::Wait;
use zq_follow::SiteSet;
use zq_node::Node;
use zq_replica::Replica;
use zq_settings::SiteSettings;

/// What a site waits for as it begins: that each peer that it dials says what it has of each heap,
/// or where it dials none, that one peer does. Then it takes writes; and so it does where it has
/// waited for as many seconds as the settings say.
#[derive(Drop)]
pub struct Beginning {
    /// The peers that it dials.
    dialled: SiteSet,
    progress: Progress,
}

impl Beginning {
    /// A site of these settings, which has heard nothing.
    pub fn new(settings: &SiteSettings) -> Beginning {
        let mut dialled = SiteSet::empty();
        for peer in settings.peers.as_slice() {
            if is_dialled(settings, peer) {
                dialled = dialled.with(peer.site);
            }
        }
        let progress = Progress {
            stage: Stage::Hears,
            seconds: 0,
        };
        Beginning { dialled, progress }
    }

    /// Looks at what was heard by now, where a second has gone by or a frame came. Where that is
    /// all, it is seen at once whether something lacks.
    pub fn go_on<L: Log + Wait>(
        &mut self,
        log: &L,
        shared: Shared<'_>,
        node: &mut Node<'_>,
        replica: &mut Replica<'_>,
        beats: bool,
    )
        requires { IsNode node.old }
        ensures node { IsNode node.new }
        ensures home { IsSameHome node.old node.new }
    {
        self.step(log, shared, node, replica, beats);
        if self.progress.stage == Stage::Looks {
            self.step(log, shared, node, replica, false);
        }
    }

    /// Goes a step on, as is right by what is seen.
    fn step<L: Log + Wait>(
        &mut self,
        log: &L,
        shared: Shared<'_>,
        node: &mut Node<'_>,
        replica: &mut Replica<'_>,
        beats: bool,
    )
        requires { IsNode node.old }
        ensures node { IsNode node.new }
        ensures home { IsSameHome node.old node.new }
    {
        let progress = self.progress;
        let behind = is_asked(progress.stage, beats)
            && replica.is_behind(log, node).unwrap_or(true);
        let sight = Sight {
            heard: progress.stage == Stage::Hears && replica.has_heard(&self.dialled),
            behind,
            beats,
            waits: shared.admission.waits(),
        };
        self.progress = next_progress(progress, sight);
        shared.front.show(self.progress.stage);
        let deed = deed_next(progress, sight, shared.settings.alone.value());
        self.carry_out(log, shared, replica, deed);
    }

    /// Does this.
    fn carry_out<L: Log + Wait>(
        &self,
        log: &L,
        shared: Shared<'_>,
        replica: &mut Replica<'_>,
        deed: Deed,
    ) {
        match deed {
            Deed::Nothing => {}
            Deed::GoesToWork => {
                replica.go_to_work();
                shared.admission.open();
                note_of(log, shared.settings.site, Note::Joined);
            }
            Deed::TakesWrites => {
                self.warn_of_unheard(log, shared, replica);
                shared.admission.open();
            }
            Deed::HasCaughtUp => note_of(log, shared.settings.site, Note::CaughtUp),
        }
    }

    /// Warns of who was not heard.
    fn warn_of_unheard<L: Log + Wait>(&self, log: &L, shared: Shared<'_>, replica: &Replica<'_>) {
        let settings = shared.settings;
        if self.dialled.is_empty() {
            warn_of(log, settings.site, Warning::Alone);
        }
        let missed = replica.unheard(&self.dialled);
        for peer in settings.peers.as_slice() {
            if missed.has(peer.site) {
                warn_of(log, settings.site, Warning::Missed(peer.site));
            }
        }
    }
}
