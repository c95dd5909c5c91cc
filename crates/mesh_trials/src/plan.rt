//! What a world is to be.

use crate::draws::Draws;
use crate::wrong::Wrong;
use mesh_sites::SitePlan;
use std::alloc::Global;
use zq_dots::SiteNo;

/// How many operations of a heap may be under way to a site.
const WINDOWS: [u64; 3] = [4, 20, 300];

/// How many bytes of operations a log keeps.
const LOGS: [u64; 5] = [300, 500, 1_000, 3_000, 30_000];

/// How many members of a heap go at once.
const PIECES: [usize; 4] = [1, 2, 3, 7];

/// How many calls clients make before a link is up, and of how many of a hundred steps: in one half
/// of the worlds all of them while links come and go, and in the other most of them before, so that
/// heaps go in pieces while frames are lost and links are cut.
const AT_LINKS: (usize, usize) = (0, 30);

const BEFORE_LINKS: (usize, usize) = (60, 6);

/// A world has at most so many sites.
const MOST_SITES: usize = 5;

/// What a world is to be.
#[derive(Drop)]
pub struct Plan {
    /// The sites.
    pub sites: Vec<SitePlan>,
    /// The links, each by the places of its two sites: all sites are linked with each other over
    /// some of them.
    pub links: Vec<(usize, usize)>,
    /// How many steps are drawn.
    pub steps: usize,
    /// How many calls clients make before a link is up.
    pub before: usize,
    /// How many of a hundred steps are calls of clients.
    pub asks: usize,
    /// Whether links that are up lose frames, double them, and let some overtake others.
    pub is_hostile: bool,
    /// Whether a site may die.
    pub is_deadly: bool,
    /// Whether some lines put many members at once.
    pub is_busy: bool,
    /// How many keys there are, and members of each.
    pub keys: usize,
    pub members: usize,
}

impl Plan {
    /// Draws what a world is to be.
    pub fn drawn(alloc: Global, draws: &mut Draws) -> Result<Plan, Wrong> {
        let count = 2 + draws.below(MOST_SITES - 1);
        let sites = drawn_sites(alloc, draws, count)?;
        let links = drawn_links(alloc, draws, count)?;
        let (before, asks) = if draws.hits(2) {
            AT_LINKS
        } else {
            BEFORE_LINKS
        };
        Ok(Plan {
            sites,
            links,
            steps: 100 + draws.below(301),
            before,
            asks,
            is_hostile: draws.hits(2),
            is_deadly: draws.hits(3),
            is_busy: draws.hits(10),
            keys: 1 + draws.below(3),
            members: 1 + draws.below(8),
        })
    }
}

/// Draws so many sites, with rising numbers.
fn drawn_sites(alloc: Global, draws: &mut Draws, count: usize) -> Result<Vec<SitePlan>, Wrong> {
    let mut sites = Vec::new(alloc);
    let mut next: u8 = 0;
    for _site in 0..count {
        let number = next.saturating_add(draws.below(12) as u8);
        next = number.saturating_add(1);
        let number = SiteNo::new(number).ok_or(Wrong::NoPlace)?;
        let plan = SitePlan {
            number,
            window: draws.one_of(&WINDOWS),
            log: draws.one_of(&LOGS),
            piece: drawn_piece(draws),
        };
        sites.reserve(1)?;
        sites.push_reserved(plan);
    }
    Ok(sites)
}

/// Draws how many members of a heap go at once, where the site knows pieces: one of five does not.
fn drawn_piece(draws: &mut Draws) -> Option<usize> {
    let at = draws.below(PIECES.len() + 1);
    PIECES.get(at).copied()
}

/// Draws the links of so many sites: a tree, and of all other pairs none, half or all.
fn drawn_links(
    alloc: Global,
    draws: &mut Draws,
    count: usize,
) -> Result<Vec<(usize, usize)>, Wrong> {
    let mut links = Vec::new(alloc);
    for site in 1..count {
        links.reserve(1)?;
        links.push_reserved((draws.below(site), site));
    }
    let density = draws.below(3);
    for one in 0..count {
        for other in one..count {
            let more = draws.below(2) < density;
            if more && one < other && !has_link(&links, one, other) {
                links.reserve(1)?;
                links.push_reserved((one, other));
            }
        }
    }
    Ok(links)
}

/// Whether there is a link of these two sites.
fn has_link(links: &[(usize, usize)], one: usize, other: usize) -> bool {
    links.iter().any(|link| link.0 == one && link.1 == other)
}
