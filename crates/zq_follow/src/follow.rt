//! What a site knows of one heap of a peer, and what it has sent there.

ghost use Rattle.std.specs.Prelude.{◌≡◌, ◌≤◌, option_copied};
ghost use Rattle.zq_follow.specs.Follow as follow;
ghost use Rattle.zq_follow.specs.Tell as tell;
ghost use Rattle.zq_model.specs.Sets.{LAST};

use crate::at::{AtHead, HeardAt, PROBE_TURNS, Probe};
use crate::counts::{beyond, is_short, raise};
use crate::settling::{is_lost, settled};
use crate::site_set::SiteSet;
use zq_dots::{Dot, Vector};

/// What a site knows of one heap of a peer, and what it has sent there.
#[derive(Debug, Drop, PartialEq, Eq)]
pub struct Follow {
    /// What the peer has, or will have once it has heard what is on its way: none until the first
    /// At of a link.
    pub sent: Option<Vector>,
    /// A place in the log: no operation of the class below it is left to push.
    pub place: u64,
    /// What the peer said that it has, and what came from it.
    pub heard: Vector,
    /// Whether the peer takes no operations, or is given the whole heap.
    pub shut: bool,
    /// Whether this site takes the peer's.
    pub open: bool,
    /// The number of this site's last At.
    pub turn: u64,
    /// The number of the last At that was heard.
    pub echo: u64,
    /// What the peer is asked about what was sent.
    pub probe: Option<Probe>,
    /// Whether the peer was told, since its last At, that the log does not reach back to what it
    /// lacks.
    pub behind: bool,
    /// How many operations may be on their way to the peer, as its last At says.
    pub window: u64,
    /// The sites whose operations were pushed last.
    pub class: SiteSet,
    /// The vector in this site's last At.
    pub told: Vector,
    /// By how much the window is widened.
    pub spare: u64,
}

impl Follow {
    /// Nothing was heard of the peer, and nothing was sent.
    pub fn deaf() -> Follow
        ensures { result ≡ follow.deaf }
    {
        Follow {
            sent: None,
            place: 0,
            heard: Vector::new(),
            shut: true,
            open: false,
            turn: 0,
            echo: 0,
            probe: None,
            behind: false,
            window: 0,
            class: SiteSet::empty(),
            told: Vector::new(),
            spare: 0,
        }
    }

    /// An At came from the peer, where the log begins at `first`. The peer's first At, and one that
    /// opens again, says what counts as sent. Another raises it; where it answers the probe, it
    /// also lowers it to what the peer has of each site of which something was lost.
    pub fn hear_at(&mut self, at: &HeardAt, first: u64)
        ensures { self.new ≡ follow.heard_at at.now first self.old }
    {
        self.weigh(at, first);
        self.heard.join_with(&at.vector);
        self.shut = !at.open;
        self.echo = self.echo.max(at.turn);
        self.behind = false;
        self.window = at.window;
        self.spare = 0;
    }

    /// What counts as sent after an At.
    fn weigh(&mut self, at: &HeardAt, first: u64)
        ensures { self.new ≡ follow.weighed self.old.sent at.now first self.old }
    {
        match self.sent {
            Some(sent) if !(self.shut && at.open) => self.compare(sent, at, first),
            _ => self.begin(at.vector, first),
        }
    }

    /// Pushing begins: the peer has this.
    fn begin(&mut self, heard: Vector, first: u64)
        ensures { self.new ≡ follow.begun heard first self.old }
    {
        self.sent = Some(heard);
        self.place = first;
        self.probe = None;
        self.class = SiteSet::empty();
    }

    /// What was sent is compared with an At.
    fn compare(&mut self, sent: Vector, at: &HeardAt, first: u64)
        ensures { self.new ≡ follow.compared self.old.probe sent at.now first self.old }
    {
        match self.probe {
            Some(probe) if probe.turn <= at.echo => {
                self.answer(&sent, &probe.sent, &at.vector, first);
            }
            _ => self.join(sent, &at.vector),
        }
    }

    /// The probe is answered by a peer that has what was heard.
    fn answer(&mut self, sent: &Vector, probed: &Vector, heard: &Vector, first: u64)
        ensures { self.new ≡ follow.answered sent.now probed.now heard.now first self.old }
    {
        if is_lost(sent, probed, heard) {
            self.place = first;
        }
        self.sent = Some(settled(sent, probed, heard));
        self.probe = None;
    }

    /// The peer has this beside what was sent.
    fn join(&mut self, mut sent: Vector, heard: &Vector)
        ensures { self.new ≡ follow.joined sent heard.now self.old }
    {
        sent.join_with(heard);
        self.sent = Some(sent);
    }

    /// An operation of this dot came from the peer, so it need not be sent there.
    pub fn hear_dot(&mut self, dot: Dot)
        requires { dot.n ≤ LAST }
        ensures { self.new ≡ follow.heard_dot dot self.old }
    {
        if let Some(mut sent) = self.sent {
            raise(&mut sent, &dot);
            self.sent = Some(sent);
        }
        raise(&mut self.heard, &dot);
    }

    /// From now on this site takes the peer's operations.
    pub fn open_up(&mut self)
        ensures { self.new ≡ follow.opened self.old }
    {
        self.open = true;
    }

    /// From now on this site does not take the peer's operations.
    pub fn close(&mut self)
        ensures { self.new ≡ follow.closed self.old }
    {
        self.open = false;
    }

    /// Whether this site takes the peer's operations.
    pub fn is_open(&self) -> bool
        ensures { result ≡ follow.is_open self.now }
    {
        self.open
    }

    /// The peer is being given the whole heap: nothing is pushed until it opens again.
    pub fn serve(&mut self)
        ensures { self.new ≡ follow.served self.old }
    {
        self.shut = true;
    }

    /// The operations of these sites are to be pushed, from a log that begins at `first`.
    pub fn prepare(&mut self, class: SiteSet, first: u64)
        ensures { self.new ≡ follow.prepared class first self.old }
    {
        if self.class.lacks(&class) {
            self.place = first;
        } else {
            self.place = self.place.max(first);
        }
        self.class = class;
    }

    /// Whether fewer operations of some site of the class were sent than this vector has.
    pub fn is_below(&self, base: &Vector) -> bool
        ensures { result ≡ follow.is_below base.now self.now }
    {
        match &self.sent {
            Some(sent) => is_short(&self.class, sent, base),
            None => false,
        }
    }

    /// The peer is told that the log does not reach back to what it lacks.
    pub fn tell_behind(&mut self)
        ensures { self.new ≡ follow.told_behind self.old }
    {
        self.behind = true;
    }

    /// Whether operations may be pushed.
    pub fn may_push(&self) -> bool
        ensures { result ≡ follow.may_push self.now }
    {
        self.sent.is_some() && !self.shut && !self.behind
    }

    /// How many operations of the class may be pushed.
    pub fn allowance(&self) -> u64
        ensures { result ≡ follow.allowance self.now }
    {
        match &self.sent {
            Some(sent) => self
                .window
                .saturating_add(self.spare)
                .saturating_sub(beyond(&self.class, sent, &self.heard)),
            None => 0,
        }
    }

    /// Operations were pushed, after which this counts as sent, and the log is read from `next` on.
    pub fn note_pushed(&mut self, sent: Vector, next: u64)
        ensures { self.new ≡ follow.pushed sent next self.old }
    {
        self.sent = Some(sent);
        self.place = next;
    }

    /// The window is wider by so much until the peer's next At, where it has no room.
    pub fn widen(&mut self, by: u64)
        ensures { self.new ≡ follow.widened by self.old }
    {
        if self.allowance() == 0 {
            self.spare = self.spare.saturating_add(by);
        }
    }

    /// What counts as sent, if anything was heard of the peer.
    pub fn sent(&self) -> Option<&Vector>
        ensures { option_copied result ≡ self.now.sent }
    {
        self.sent.as_ref()
    }

    /// The place in the log from which the next operations are pushed.
    pub fn place(&self) -> u64
        ensures { result ≡ self.now.place }
    {
        self.place
    }

    /// The sites whose operations are pushed.
    pub fn class(&self) -> &SiteSet
        ensures { result.now ≡ self.now.class }
    {
        &self.class
    }

    /// This vector is told to the peer: the head of the At that does. In a calm it carries a probe,
    /// unless one is out that is no older than `PROBE_TURNS` Ats.
    pub fn tell(&mut self, vector: &Vector, is_calm: bool) -> AtHead
        ensures told { self.new ≡ tell.told_at vector.now is_calm self.old }
        ensures head { result ≡ tell.head_of self.new }
    {
        self.turn = self.turn.saturating_add(1);
        self.told = *vector;
        if is_calm {
            self.send_probe();
        }
        AtHead {
            turn: self.turn,
            echo: self.echo,
            open: self.open,
        }
    }

    /// The peer is asked about what was sent by now, if a probe is due.
    fn send_probe(&mut self)
        ensures { self.new ≡ tell.probed self.old }
    {
        if let Some(sent) = self.sent
            && self.is_probe_due()
        {
            self.probe = Some(Probe {
                turn: self.turn,
                sent,
            });
        }
    }

    /// Whether no probe is out, or the one that is out is too old.
    fn is_probe_due(&self) -> bool
        ensures { result ≡ tell.is_due self.now.turn self.now.probe }
    {
        match &self.probe {
            Some(probe) => self.turn.saturating_sub(probe.turn) > PROBE_TURNS,
            None => true,
        }
    }

    /// Whether the peer is owed an At with this vector: where of these sites a quarter of what it
    /// was granted, and at least one operation, came since the last.
    pub fn owes_at(&self, vector: &Vector, sites: &SiteSet, granted: u64) -> bool
        ensures { result ≡ tell.owes_at vector.now sites.now granted self.now }
    {
        beyond(sites, vector, &self.told) >= (granted / 4).max(1)
    }
}
