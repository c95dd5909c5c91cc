//! What waits for a link thread: the state of a mailbox, apart from its lock.
ghost use Rattle.std.specs.Prelude.{◌≡◌, IfOk, IfSome, option_map};
ghost use Rattle.zq_peers.specs.Slips.{IsTaken};
ghost use Rattle.zq_peers.specs.Trays.{IsGiven, has_tick, is_full, left_in, next_in, nothing, stopped, ticked};

use std::alloc::{AllocError, Global};
use std::collections::VecDeque;
use std::marker::Model;
use std::snapshot::Snapshot;
use zq_dots::SiteNo;
use zq_links::Message;

/// What became of a frame that was given.
#[derive(Clone, Copy, Debug, PartialEq, Eq)]
pub enum Fate {
    /// It waits.
    Waits,
    /// No more may wait: it is lost.
    Lost,
    /// There was no memory: it is lost.
    NoMemory,
}

/// A receipt: the frame of this site was given, and this became of it. Only a tray makes one. It
/// takes the room of a site and a fate.
#[derive(Drop)]
pub struct Slip {
    from: SiteNo,
    frame: Snapshot<Vec<u8>>,
    fate: Fate,
    /// What waited before.
    before: Snapshot<Tray>,
    /// What waits then.
    after: Snapshot<Tray>,
}

/// A receipt: this message was taken. Only a tray makes one. It takes no room.
#[derive(Drop)]
pub struct Taken {
    message: Snapshot<Message>,
    /// What waited before.
    before: Snapshot<Tray>,
    /// What waits then.
    after: Snapshot<Tray>,
}

impl Slip {
    /// What became of the frame.
    pub(crate) fn fate(&self) -> Fate
        ensures { result ≡ self.now.fate }
    {
        self.fate
    }
}

/// What waits for a link thread, the oldest first: frames, and a Tick at most. There is always room
/// for the Tick. Where it was stopped nothing more comes in, and a Stop follows what waits.
#[derive(Drop)]
pub(crate) struct Tray {
    waiting: VecDeque<Message>,
    ticks: bool,
    over: bool,
}

impl Model for Tray {
    ghost use Rattle.zq_peers.specs.Trays.{Waiting};

    ghost Value = { Waiting };

    ghost use Rattle.zq_peers.specs.Inside.{IsTray, waiting_in};

    ghost view = { waiting_in };

    ghost invariant = { IsTray };
}

impl Tray {
    /// Nothing waits.
    pub(crate) fn new(alloc: Global) -> Result<Tray, AllocError>
        ensures { IfOk result (λ tray. tray ≡ nothing) }
    {
        Ok(Tray {
            waiting: VecDeque::with_capacity(alloc, 1)?,
            ticks: false,
            over: false,
        })
    }

    /// Whether a Tick waits.
    pub(crate) fn has_tick(&self) -> bool
        ensures { result ≡ has_tick self.now.messages }
    {
        self.ticks
    }

    /// Whether no frame comes in: as many messages wait as may, or it was stopped.
    fn is_full(&self, most: usize) -> bool
        ensures { result ≡ is_full most self.now }
    {
        self.over || self.waiting.len() >= most
    }

    /// A Tick waits, behind all that wait, where none does yet.
    pub(crate) fn tick(&mut self)
        ensures { self.new ≡ ticked self.old }
    {
        if !self.over && !self.ticks {
            self.waiting.push_back_reserved(Message::Tick);
            self.ticks = true;
        }
    }

    /// Nothing more comes in.
    pub(crate) fn stop(&mut self)
        ensures { self.new ≡ stopped self.old }
    {
        self.over = true;
    }

    /// The frame of this site waits, behind all that wait. Where so many messages wait it is lost,
    /// and a Tick waits in its place. Where there is no memory it is lost.
    pub(crate) fn give(&mut self, most: usize, from: SiteNo, bytes: Vec<u8>) -> Slip
        ensures from { result.from ≡ from }
        ensures frame { result.frame.value ≡ bytes }
        ensures before { result.before.value ≡ self.old }
        ensures after { result.after.value ≡ self.new }
        ensures given { IsGiven most from bytes self.old result.fate self.new }
    {
        let frame = Snapshot::of(&bytes);
        let before = Snapshot::of(&*self);
        let fate = self.put(most, from, bytes);
        let after = Snapshot::of(&*self);
        Slip {
            from,
            frame,
            fate,
            before,
            after,
        }
    }

    /// The same, without the slip.
    fn put(&mut self, most: usize, from: SiteNo, bytes: Vec<u8>) -> Fate
        ensures { IsGiven most from bytes self.old result self.new }
    {
        if self.is_full(most) {
            self.tick();
            return Fate::Lost;
        }
        // Beside the frame there is room for a Tick.
        if self.waiting.reserve(2).is_err() {
            return Fate::NoMemory;
        }
        self.waiting
            .push_back_reserved(Message::Frame { from, bytes });
        Fate::Waits
    }

    /// What waits first, which then waits no more, with a receipt. Where it was stopped, and
    /// nothing else waits, it is a Stop.
    pub(crate) fn take(&mut self) -> Option<(Message, Taken)>
        ensures next { option_map (λ t. t.0) result ≡ next_in self.old }
        ensures left { self.new ≡ left_in self.old }
        ensures taken { IfSome result (λ t. IsTaken t.0 t.1) }
    {
        let before = Snapshot::of(&*self);
        let message = self.draw()?;
        let taken = Taken {
            message: Snapshot::of(&message),
            before,
            after: Snapshot::of(&*self),
        };
        Some((message, taken))
    }

    /// The same, without the receipt.
    fn draw(&mut self) -> Option<Message>
        ensures next { result ≡ next_in self.old }
        ensures left { self.new ≡ left_in self.old }
    {
        match self.waiting.pop_front() {
            Some(message) => {
                if let Message::Tick = &message {
                    self.ticks = false;
                }
                Some(message)
            }
            None if self.over => Some(Message::Stop),
            None => None,
        }
    }
}
