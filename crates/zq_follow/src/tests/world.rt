//! Some sites and the links between them.

use super::model::{Frame, Site};
use std::alloc::{AllocError, Global};
use zq_dots::{SiteNo, Vector};

/// What happens to the frame that is next, or drawn, of a link.
#[derive(Clone, Copy, Debug)]
pub enum Fate {
    /// It is heard.
    Heard,
    /// It is lost.
    Lost,
    /// It is heard, and once more.
    Doubled,
    /// The frame at this place of those on their way is heard, before those ahead of it.
    Ahead(usize),
}

/// Sites, each with its number as its place.
#[derive(Drop)]
pub struct World {
    pub sites: Vec<Site>,
    /// How many operations go in one frame.
    pub most: u64,
}

impl World {
    /// This many sites, which grant this window and push this many operations in a frame.
    pub fn new(alloc: Global, sites: u8, window: u64, most: u64) -> Result<World, AllocError> {
        let mut world = World {
            sites: Vec::new(alloc),
            most,
        };
        for number in 0..sites {
            if let Some(site) = SiteNo::new(number) {
                world.sites.push(Site::new(alloc, site, window))?;
            }
        }
        Ok(world)
    }

    /// The number of a site, and of its peer at a place.
    fn names(&self, site: usize, place: usize) -> Option<(SiteNo, SiteNo)> {
        let site = self.sites.get(site)?;
        Some((site.number, site.ends.get(place)?.peer))
    }

    /// The other end of a link: the place of the peer's site, and of its end.
    fn other_end(&self, site: usize, place: usize) -> Option<(usize, usize)> {
        let (own, peer) = self.names(site, place)?;
        let other = usize::from(peer.value());
        Some((other, self.sites.get(other)?.end_to(own)?))
    }

    /// There is a link between two sites, which begins once `begin` is called.
    pub fn link(&mut self, alloc: Global, one: u8, other: u8) -> Result<(), AllocError> {
        if let (Some(first), Some(second)) = (SiteNo::new(one), SiteNo::new(other)) {
            if let Some(site) = self.sites.get_mut(usize::from(one)) {
                site.link(alloc, second)?;
            }
            if let Some(site) = self.sites.get_mut(usize::from(other)) {
                site.link(alloc, first)?;
            }
        }
        Ok(())
    }

    /// A link is cut, with all that is on its way, and begins again.
    pub fn begin(&mut self, alloc: Global, site: usize, place: usize) -> Result<(), AllocError> {
        if let Some((other, end)) = self.other_end(site, place) {
            self.begin_end(alloc, site, place)?;
            self.begin_end(alloc, other, end)?;
        }
        Ok(())
    }

    /// One end of a link begins.
    fn begin_end(&mut self, alloc: Global, site: usize, place: usize) -> Result<(), AllocError> {
        match self.sites.get_mut(site) {
            Some(site) => site.begin(alloc, place),
            None => Ok(()),
        }
    }

    /// Each link begins.
    pub fn begin_all(&mut self, alloc: Global) -> Result<(), AllocError> {
        for site in 0..self.sites.len() {
            for place in 0..self.ends_of(site) {
                self.begin_end(alloc, site, place)?;
            }
        }
        Ok(())
    }

    /// How many links a site has.
    pub fn ends_of(&self, site: usize) -> usize {
        match self.sites.get(site) {
            Some(site) => site.ends.len(),
            None => 0,
        }
    }

    /// A site makes an operation.
    pub fn make(&mut self, site: usize) -> Result<(), AllocError> {
        match self.sites.get_mut(site) {
            Some(site) => site.make(),
            None => Ok(()),
        }
    }

    /// A site pushes over one of its links: whether something goes.
    pub fn push(&mut self, alloc: Global, site: usize, place: usize) -> Result<bool, AllocError> {
        let most = self.most;
        match self.sites.get_mut(site) {
            Some(site) => site.push(alloc, place, most),
            None => Ok(false),
        }
    }

    /// A calm comes at a site.
    pub fn calm(&mut self, site: usize) -> Result<(), AllocError> {
        match self.sites.get_mut(site) {
            Some(site) => site.calm(),
            None => Ok(()),
        }
    }

    /// A frame is taken off a link, at this place of those on their way.
    fn take(&mut self, site: usize, place: usize, number: usize) -> Option<Frame> {
        self.sites
            .get_mut(site)?
            .ends
            .get_mut(place)?
            .outbox
            .remove(number)
    }

    /// Something happens to a frame on its way from a site over one of its links: whether there is
    /// one.
    pub fn deliver(
        &mut self,
        alloc: Global,
        site: usize,
        place: usize,
        fate: Fate,
    ) -> Result<bool, AllocError> {
        let number = match fate {
            Fate::Ahead(number) => number,
            _ => 0,
        };
        let Some(frame) = self.take(site, place, number) else {
            return Ok(false);
        };
        let times = match fate {
            Fate::Lost => 0u8,
            Fate::Doubled => 2,
            _ => 1,
        };
        if let Some((other, end)) = self.other_end(site, place) {
            for _ in 0..times {
                self.hear(alloc, other, end, &frame)?;
            }
        }
        Ok(true)
    }

    /// A site hears a frame over one of its links.
    fn hear(
        &mut self,
        alloc: Global,
        site: usize,
        place: usize,
        frame: &Frame,
    ) -> Result<(), AllocError> {
        match self.sites.get_mut(site) {
            Some(site) => site.hear(alloc, place, frame),
            None => Ok(()),
        }
    }

    /// All that is on its way is heard, and all that may be pushed is pushed, until nothing is left
    /// to do: whether that comes.
    pub fn rest(&mut self, alloc: Global) -> Result<bool, AllocError> {
        for _ in 0..10_000u32 {
            if !self.turn(alloc)? {
                return Ok(true);
            }
        }
        Ok(false)
    }

    /// Each site pushes once over each link, and one frame of each link is heard: whether there was
    /// something to do.
    pub fn turn(&mut self, alloc: Global) -> Result<bool, AllocError> {
        let mut did = false;
        for site in 0..self.sites.len() {
            for place in 0..self.ends_of(site) {
                let pushed = self.push(alloc, site, place)?;
                let heard = self.deliver(alloc, site, place, Fate::Heard)?;
                did = did || pushed || heard;
            }
        }
        Ok(did)
    }

    /// A calm comes at each site, and all that follows.
    pub fn calm_all(&mut self, alloc: Global) -> Result<bool, AllocError> {
        for site in 0..self.sites.len() {
            self.calm(site)?;
        }
        self.rest(alloc)
    }

    /// A vector of all that was made.
    fn made(&self) -> Vector {
        let mut made = Vector::new();
        for site in &self.sites {
            made.join_with(&site.vector);
        }
        made
    }

    /// Whether each site has all that was made.
    pub fn is_equal(&self) -> bool {
        let made = self.made();
        self.sites.iter().all(|site| site.vector == made)
    }

    /// Whether no push left a gap.
    pub fn is_gapless(&self) -> bool {
        self.sites.iter().all(|site| !site.has_gap)
    }

    /// How many operations were pushed by all.
    pub fn pushed(&self) -> u64 {
        let mut pushed = 0u64;
        for site in &self.sites {
            pushed = pushed.saturating_add(site.pushed);
        }
        pushed
    }
}
