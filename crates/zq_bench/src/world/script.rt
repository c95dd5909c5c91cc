//! What the sites of a world do, by drawn words.
use crate::requests::request;
use rand_core::Rng;
use std::alloc::Global;
use zq_world::Event;

/// How many sites there are.
pub const SITES: u8 = 8;

/// How many heaps a site has.
pub const HEAPS: u8 = 4;

/// How many members are asked for.
const MEMBERS: u64 = 1000;

/// How many events ago the moment of a merge is at most.
const BACK: u64 = 256;

/// A list of events, with how far it brings each site.
#[derive(Drop)]
pub struct Script {
    events: Vec<Event>,
    /// How many operations are made: one by each increment.
    made: usize,
    /// How many of them each site was handed, the oldest first.
    handed: Vec<usize>,
}

impl Script {
    /// No event.
    pub fn new(alloc: Global) -> Option<Script> {
        let mut handed = Vec::new(alloc);
        for _site in 0..SITES {
            handed.push(0usize).ok()?;
        }
        Some(Script {
            events: Vec::new(alloc),
            made: 0,
            handed,
        })
    }

    pub fn events(&self) -> &[Event] {
        &self.events
    }

    /// Adds an event of a drawn site. One in 64 merges an image that another had shortly before,
    /// one in 8 asks for an increment, and the others hand over the oldest operation that the site
    /// was not handed yet, if there is one.
    pub fn draw<R: Rng>(&mut self, alloc: Global, draws: &mut R) -> Option<()> {
        let site = below(draws, SITES);
        let event = match draws.next_u64() % 64 {
            0 => self.merge(draws, site),
            1..=8 => self.increment(alloc, draws, site)?,
            _ => match self.next_for(site) {
                Some(op) => Event::Take { site, op },
                None => self.increment(alloc, draws, site)?,
            },
        };
        self.events.push(event).ok()
    }

    /// Adds merges by which each site has what all had: the first merges the images of the others,
    /// and these merge its own.
    pub fn gather(&mut self) -> Option<()> {
        let drawn = self.events.len();
        for from in 1..SITES {
            self.merge_all(0, from, drawn)?;
        }
        let gathered = self.events.len();
        for site in 1..SITES {
            self.merge_all(site, 0, gathered)?;
        }
        Some(())
    }

    /// Adds a merge of each heap of a site as it was at a moment.
    fn merge_all(&mut self, site: u8, from: u8, moment: usize) -> Option<()> {
        for heap in 0..HEAPS {
            let event = Event::Merge {
                site,
                from,
                heap,
                moment,
            };
            self.events.push(event).ok()?;
        }
        Some(())
    }

    /// A merge of a drawn heap of a drawn site.
    fn merge<R: Rng>(&self, draws: &mut R, site: u8) -> Event {
        let ago = draws.next_u64() % BACK;
        Event::Merge {
            site,
            from: below(draws, SITES),
            heap: below(draws, HEAPS),
            moment: self.events.len().saturating_sub(ago as usize),
        }
    }

    /// An increment of a drawn member by 1 to 9.
    fn increment<R: Rng>(&mut self, alloc: Global, draws: &mut R, site: u8) -> Option<Event> {
        self.made = self.made.saturating_add(1);
        let amount = draws.next_u64() % 9 + 1;
        let member = draws.next_u64() % MEMBERS;
        let line = format!(in alloc; "ZINCRBY board {amount} member:{member}").ok()?;
        Some(Event::Do {
            site,
            request: request(alloc, &line)?,
            w1: 0,
            w2: 0,
        })
    }

    /// The place of the oldest operation that a site was not handed yet, which it then was.
    fn next_for(&mut self, site: u8) -> Option<usize> {
        let handed = self.handed.get_mut(site as usize)?;
        let op = *handed;
        if op >= self.made {
            return None;
        }
        *handed = op.saturating_add(1);
        Some(op)
    }
}

/// A drawn number below a limit that is not 0.
fn below<R: Rng>(draws: &mut R, limit: u8) -> u8 {
    (draws.next_u64() % u64::from(limit.max(1))) as u8
}
