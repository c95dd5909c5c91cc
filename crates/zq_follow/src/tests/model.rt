//! A site that keeps a vector and a list of dots, and pushes by what stands in this crate.

use crate::{AtHead, Follow, HeardAt, SiteSet, asks, class_of, overdue};
use std::alloc::{AllocError, Global};
use std::collections::VecDeque;
use zq_dots::{Dot, LAST_COUNTER, SITES, SiteNo, Vector};

/// What goes over a link.
#[derive(Drop)]
pub enum Frame {
    /// Operations.
    Ops(Vec<Dot>),
    /// What its site knows, and what it says of its links.
    At(Told),
}

/// What an At says.
#[derive(Drop)]
pub struct Told {
    head: AtHead,
    vector: Vector,
    window: u64,
    reach: SiteSet,
    asked: SiteSet,
    far: SiteSet,
}

/// One end of a link, and what is on its way from here.
#[derive(Drop)]
pub struct End {
    pub peer: SiteNo,
    pub follow: Follow,
    pub outbox: VecDeque<Frame>,
    /// What the peer says: its links, what it asks this site for, and what is far to it.
    reach: SiteSet,
    asked: SiteSet,
    far: SiteSet,
    /// What this site asks the peer for, and what of it for its lateness.
    asks: SiteSet,
    late: SiteSet,
    /// The vector in the peer's last At.
    earlier: Option<Vector>,
}

/// A site.
#[derive(Drop)]
pub struct Site {
    pub number: SiteNo,
    pub vector: Vector,
    pub log: Vec<Dot>,
    pub ends: Vec<End>,
    linked: SiteSet,
    far: SiteSet,
    sources: [Option<SiteNo>; SITES],
    /// What it grants to each peer.
    pub window: u64,
    /// How many operations it pushed.
    pub pushed: u64,
    /// Whether a push left a gap.
    pub has_gap: bool,
}

impl End {
    fn new(alloc: Global, peer: SiteNo) -> End {
        End {
            peer,
            follow: Follow::deaf(),
            outbox: VecDeque::new(alloc),
            reach: SiteSet::empty(),
            asked: SiteSet::empty(),
            far: SiteSet::empty(),
            asks: SiteSet::empty(),
            late: SiteSet::empty(),
            earlier: None,
        }
    }
}

impl Site {
    pub fn new(alloc: Global, number: SiteNo, window: u64) -> Site {
        Site {
            number,
            vector: Vector::new(),
            log: Vec::new(alloc),
            ends: Vec::new(alloc),
            linked: SiteSet::empty(),
            far: SiteSet::empty(),
            sources: [None; SITES],
            window,
            pushed: 0,
            has_gap: false,
        }
    }

    /// The place of the link to a peer.
    pub fn end_to(&self, peer: SiteNo) -> Option<usize> {
        self.ends.iter().position(|end| end.peer == peer)
    }

    /// A link to the peer is there, and is not begun.
    pub fn link(&mut self, alloc: Global, peer: SiteNo) -> Result<(), AllocError> {
        self.linked = self.linked.with(peer);
        self.ends.push(End::new(alloc, peer))?;
        Ok(())
    }

    /// The link at a place begins, or is cut and begins again: what was known of it is forgotten.
    pub fn begin(&mut self, alloc: Global, place: usize) -> Result<(), AllocError> {
        if let Some(end) = self.ends.get_mut(place) {
            *end = End::new(alloc, end.peer);
        }
        self.route(alloc)?;
        self.tell(place, false)
    }

    /// An operation is made here.
    pub fn make(&mut self) -> Result<(), AllocError> {
        if let Ok(dot) = self.vector.next(self.number) {
            self.enter(dot, None)?;
        }
        Ok(())
    }

    /// An operation is entered that came from this peer, or was made here.
    fn enter(&mut self, dot: Dot, source: Option<SiteNo>) -> Result<(), AllocError> {
        self.log.push(dot)?;
        raise(&mut self.vector, &dot);
        self.sources[dot.site.value() as usize] = source;
        Ok(())
    }

    /// What peers are asked for is found anew. Where it changes for a peer, that is told.
    fn route(&mut self, alloc: Global) -> Result<(), AllocError> {
        let mut reaches = Vec::new(alloc);
        for end in &self.ends {
            reaches.push((end.peer, end.reach))?;
        }
        let (asked, far) = asks(self.number, &self.linked, &reaches, alloc)?;
        let is_far = far != self.far;
        self.far = far;
        for place in 0..asked.len() {
            if let Some((_, set)) = asked.get(place)
                && (self.ask(place, set) || is_far)
            {
                self.tell(place, false)?;
            }
        }
        Ok(())
    }

    /// The peer at a place is asked for these sites, and for what is late: whether it changes.
    fn ask(&mut self, place: usize, set: &SiteSet) -> bool {
        match self.ends.get_mut(place) {
            Some(end) => {
                let asks = set.union(&end.late);
                let is_new = asks != end.asks;
                end.asks = asks;
                is_new
            }
            None => false,
        }
    }

    /// An At goes to the peer at a place.
    pub fn tell(&mut self, place: usize, is_calm: bool) -> Result<(), AllocError> {
        if let Some(end) = self.ends.get_mut(place) {
            let told = Told {
                head: end.follow.tell(&self.vector, is_calm),
                vector: self.vector,
                window: self.window,
                reach: self.linked,
                asked: end.asks,
                far: self.far,
            };
            end.outbox.push_back(Frame::At(told))?;
        }
        Ok(())
    }

    /// An At goes to each peer, and windows that are full get wider.
    pub fn calm(&mut self) -> Result<(), AllocError> {
        for place in 0..self.ends.len() {
            if let Some(end) = self.ends.get_mut(place) {
                end.follow.widen(1);
            }
            self.tell(place, true)?;
        }
        Ok(())
    }

    /// At most so many operations go to the peer at a place: whether some do.
    pub fn push(&mut self, alloc: Global, place: usize, most: u64) -> Result<bool, AllocError> {
        let Some(end) = self.ends.get_mut(place) else {
            return Ok(false);
        };
        let class = class_of(
            self.number,
            end.peer,
            &end.asked,
            &end.far,
            &end.reach,
            &self.sources,
        );
        end.follow.prepare(class, 0);
        if !end.follow.may_push() {
            return Ok(false);
        }
        let (dots, has_gap) = take_batch(alloc, &mut end.follow, &self.log, most)?;
        if has_gap {
            self.has_gap = true;
        }
        if dots.is_empty() {
            return Ok(false);
        }
        self.pushed = self.pushed.saturating_add(dots.len() as u64);
        end.outbox.push_back(Frame::Ops(dots))?;
        Ok(true)
    }

    /// A frame of the peer at a place is heard.
    pub fn hear(&mut self, alloc: Global, place: usize, frame: &Frame) -> Result<(), AllocError> {
        match frame {
            Frame::Ops(dots) => {
                for dot in dots {
                    self.hear_dot(place, dot)?;
                }
                self.acknowledge()
            }
            Frame::At(told) => self.hear_at(alloc, place, told),
        }
    }

    /// An operation is heard: it is taken where it is the next of its site.
    fn hear_dot(&mut self, place: usize, dot: &Dot) -> Result<(), AllocError> {
        let peer = match self.ends.get_mut(place) {
            Some(end) => {
                note(&mut end.follow, dot);
                Some(end.peer)
            }
            None => None,
        };
        match self.vector.next(dot.site) {
            Ok(next) if next == *dot => self.enter(next, peer),
            _ => Ok(()),
        }
    }

    /// An At goes to each peer that is owed one.
    fn acknowledge(&mut self) -> Result<(), AllocError> {
        for place in 0..self.ends.len() {
            let is_owed = match self.ends.get(place) {
                Some(end) => {
                    let sites = end.asks.union(&self.far).with(end.peer);
                    end.follow.is_open() && end.follow.owes_at(&self.vector, &sites, self.window)
                }
                None => false,
            };
            if is_owed {
                self.tell(place, false)?;
            }
        }
        Ok(())
    }

    /// An At is heard.
    fn hear_at(&mut self, alloc: Global, place: usize, told: &Told) -> Result<(), AllocError> {
        let Some(end) = self.ends.get_mut(place) else {
            return Ok(());
        };
        let at = HeardAt {
            vector: told.vector,
            turn: told.head.turn,
            echo: told.head.echo,
            open: told.head.open,
            window: told.window,
        };
        end.follow.hear_at(&at, 0);
        if let Some(earlier) = &end.earlier {
            let late = overdue(self.number, end.peer, earlier, &self.vector, &end.asks);
            end.late = end.late.union(&late);
        }
        end.earlier = Some(told.vector);
        end.asked = told.asked;
        end.far = told.far;
        end.reach = told.reach;
        let opens = !end.follow.is_open();
        end.follow.open_up();
        self.route(alloc)?;
        if opens {
            self.tell(place, false)?;
        }
        Ok(())
    }
}

/// Raises a vector to an operation, if its counter is in range.
#[tactic(auto, unfolding(zq_model::specs::Sets::LAST))]
fn raise(vector: &mut Vector, dot: &Dot) {
    if dot.n <= LAST_COUNTER {
        vector.set(dot.site, dot.n);
    }
}

/// Notes that an operation came, if its counter is in range.
#[tactic(auto, unfolding(zq_model::specs::Sets::LAST))]
fn note(follow: &mut Follow, dot: &Dot) {
    if dot.n <= LAST_COUNTER {
        follow.hear_dot(*dot);
    }
}

/// Takes the next operations for a peer off the log, and whether one of them leaves a gap.
fn take_batch(
    alloc: Global,
    follow: &mut Follow,
    log: &[Dot],
    most: u64,
) -> Result<(Vec<Dot>, bool), AllocError> {
    let mut dots = Vec::new(alloc);
    let mut has_gap = false;
    let mut sent = match follow.sent() {
        Some(sent) => *sent,
        None => Vector::new(),
    };
    let class = *follow.class();
    let most = follow.allowance().min(most);
    let mut place = follow.place();
    for dot in log.iter().skip(place as usize) {
        if dots.len() as u64 >= most {
            break;
        }
        place = place.saturating_add(1);
        if class.has(dot.site) && dot.n > sent.get(dot.site) {
            has_gap = has_gap || dot.n != sent.get(dot.site) + 1;
            raise(&mut sent, dot);
            dots.push(*dot)?;
        }
    }
    follow.note_pushed(sent, place);
    Ok((dots, has_gap))
}
