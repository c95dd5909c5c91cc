//! A key of a heap that grows past the members that lie in a list, and falls back to a list: a
//! growth is refused at any member, at a merge, at a copy, and where the form changes.
ghost use Rattle.std.specs.Prelude.{length, ◌≤◌};

use std::alloc::Global;
use zq_dots::{Act, Score, SiteNo};
use zq_shard::{MakeFault, MergeFault, Shard};
use zq_trials::{Ended, Tried};

/// How many members there are. A list has at most 32.
const MEMBERS: usize = 40;

/// What is done to a member of the key, or to the heap.
#[derive(Clone, Copy)]
enum Deed {
    /// The member is put.
    Put,
    /// The member is dropped.
    Drop,
    /// The heap merges another site's, which has put the members from 4 on: all of them come.
    Merge,
    /// The same once more: none of them comes.
    MergeAgain,
    /// The heap is copied.
    Copy,
}

/// What is done to the members from one number up to another, one after the other.
const STEPS: [(Deed, usize, usize); 11] = [
    (Deed::Put, 0, 36),
    (Deed::Copy, 0, 1),
    (Deed::Drop, 0, 32),
    (Deed::Put, 0, 3),
    (Deed::Copy, 0, 1),
    (Deed::Merge, 0, 1),
    (Deed::Drop, 3, 40),
    (Deed::MergeAgain, 0, 1),
    (Deed::Put, 3, 36),
    (Deed::Put, 3, 36),
    (Deed::Drop, 0, 36),
];

/// Whether each member stands, by its number.
type Stood = [bool; MEMBERS];

const LETTERS: &[u8; 80] =
    b"0123456789abcdefghijklmnopqrstuvwxyzABCD0123456789abcdefghijklmnopqrstuvwxyzABCD";

/// A member's name: one letter, and of every second member forty, which take memory of their own.
fn name_of(number: usize) -> &'static [u8]
    ensures { length result.now ≤ 40 }
{
    let letters: &[u8] = LETTERS;
    let at = number % MEMBERS;
    let len = if at % 2 == 0 { 1 } else { MEMBERS };
    &letters[at..at + len]
}

/// A member's score. No two members have the same.
fn score_of(number: usize) -> i64 {
    (number % MEMBERS * 7 % MEMBERS) as i64
}

/// How many of the members that stand have a lesser score.
fn rank_of(stood: &Stood, number: usize) -> usize {
    let mut rank: usize = 0;
    for other in 0..MEMBERS {
        if stood[other] && score_of(other) < score_of(number) {
            rank = rank.saturating_add(1);
        }
    }
    rank
}

/// How many members stand.
fn count_of(stood: &Stood) -> usize {
    let mut count: usize = 0;
    for stands in stood {
        if *stands {
            count = count.saturating_add(1);
        }
    }
    count
}

/// Whether the heap shows a member as it stands. That takes no memory.
fn shows(shard: &Shard, stood: &Stood, number: usize) -> bool {
    let (member, stands) = (name_of(number), stood[number % MEMBERS]);
    let score = if stands {
        Some(i128::from(score_of(number)))
    } else {
        None
    };
    let rank = if stands {
        Some(rank_of(stood, number))
    } else {
        None
    };
    shard.score(b"q", member) == score
        && shard.rank(b"q", member) == rank
        && shard.entry(b"q", member).is_some() == stands
}

/// Whether the heap shows each member as it stands, and the first of them.
fn shows_all(shard: &Shard, stood: &Stood) -> bool {
    for number in 0..MEMBERS {
        if !shows(shard, stood, number) {
            return false;
        }
    }
    let first = match shard.top(b"q") {
        Some((_, member)) => shard.rank(b"q", member) == Some(0),
        None => count_of(stood) == 0,
    };
    first && shard.count(b"q") == count_of(stood)
}

/// Copies a heap. The copy is the same, and shows the same.
fn copied(alloc: Global, shard: &Shard, stood: &Stood) -> Tried {
    match shard.copy(alloc) {
        Ok(copy) if copy.same(shard) && shows_all(&copy, stood) => Tried::Done,
        Ok(_) => Tried::Other,
        Err(_) => Tried::Refused,
    }
}

/// A heap merges another.
fn merged(alloc: Global, shard: &mut Shard, theirs: &Shard) -> Tried {
    match shard.merge(alloc, theirs) {
        Ok(()) => Tried::Done,
        Err(MergeFault::NoMemory) => Tried::Refused,
        Err(_) => Tried::Other,
    }
}

/// A site acts on a member.
fn acted(alloc: Global, shard: &mut Shard, site: SiteNo, number: usize, act: Act) -> Tried {
    match shard.make(alloc, site, b"q", name_of(number), act) {
        Ok(_) => Tried::Done,
        Err(MakeFault::NoMemory) => Tried::Refused,
        Err(_) => Tried::Other,
    }
}

/// The deed is done.
fn done(
    alloc: Global,
    shard: &mut Shard,
    stood: &Stood,
    theirs: &Shard,
    deed: Deed,
    number: usize,
) -> Tried {
    match (deed, SiteNo::new(0), Score::new(score_of(number))) {
        (Deed::Put, Some(site), Some(score)) => {
            acted(alloc, shard, site, number, Act::Put(score))
        }
        (Deed::Drop, Some(site), _) => acted(alloc, shard, site, number, Act::Drop),
        (Deed::Merge | Deed::MergeAgain, _, _) => merged(alloc, shard, theirs),
        (Deed::Copy, _, _) => copied(alloc, shard, stood),
        _ => Tried::Other,
    }
}

/// Which members stand after a deed.
fn after(stood: &mut Stood, deed: Deed, number: usize) {
    match deed {
        Deed::Put => stood[number % MEMBERS] = true,
        Deed::Drop => stood[number % MEMBERS] = false,
        Deed::Merge => stood[4..].fill(true),
        Deed::MergeAgain | Deed::Copy => {}
    }
}

/// The deed is done, and once more where there was no memory: nothing has changed then.
fn goes(
    alloc: Global,
    shard: &mut Shard,
    stood: &mut Stood,
    theirs: &Shard,
    deed: Deed,
    number: usize,
) -> Tried {
    let tried = done(alloc, shard, stood, theirs, deed, number);
    let kept = tried != Tried::Refused || shows_all(shard, stood);
    let again = match tried {
        Tried::Refused => done(alloc, shard, stood, theirs, deed, number),
        other => other,
    };
    after(stood, deed, number);
    if kept && again == Tried::Done && shows_all(shard, stood) {
        tried
    } else {
        Tried::Other
    }
}

/// A step is made, member by member: whether one of its calls had no memory.
fn step(
    alloc: Global,
    shard: &mut Shard,
    stood: &mut Stood,
    theirs: &Shard,
    (deed, from, to): (Deed, usize, usize),
) -> Tried {
    let mut all = Tried::Done;
    for number in from..to {
        match goes(alloc, shard, stood, theirs, deed, number) {
            Tried::Done => {}
            Tried::Refused => all = Tried::Refused,
            Tried::Other => return Tried::Other,
        }
    }
    all
}

/// The heap of site 1, which has put the members from 4 on; `None` where it had no memory.
fn theirs(alloc: Global) -> Option<Shard> {
    let site = SiteNo::new(1)?;
    let mut shard = Shard::new(alloc, 0, 1);
    for number in 4..MEMBERS {
        let act = Act::Put(Score::new(score_of(number))?);
        if acted(alloc, &mut shard, site, number, act) != Tried::Done {
            return None;
        }
    }
    Some(shard)
}

/// All steps are made, whether memory is refused to one of their calls or not.
fn followed(alloc: Global, shard: &mut Shard, theirs: &Shard) -> Ended {
    let (mut stood, mut refused) = ([false; MEMBERS], false);
    for each in STEPS {
        match step(alloc, shard, &mut stood, theirs, each) {
            Tried::Done => {}
            Tried::Refused => refused = true,
            Tried::Other => return Ended::Wrong,
        }
    }
    if refused {
        Ended::Refused(0)
    } else {
        Ended::Owed(1)
    }
}

/// The key grows and falls, in a heap that has nothing else.
pub fn grown(alloc: Global) -> Option<Ended> {
    let theirs = theirs(alloc)?;
    let mut shard = Shard::new(alloc, 0, 1);
    Some(followed(alloc, &mut shard, &theirs))
}
