//! Drawn steps of two sites on three keys of 0 to 40 members each, against plain lists. What the
//! sites do is recorded in books, so that it can be undone.

use crate::deed::Deed;
use crate::held::{
    Held, MEMBERS, NONE, change, count, count_before, has_score, is_top, join, lists, lists_turned,
    name_of, next_from, rank, score_of,
};
use crate::rows::row_holds;
use rand_core::{Rng, SeedableRng};
use rand_pcg::Pcg64;
use std::alloc::{AllocError, Global};
use std::process::Abort;
use zq_dots::{Rule, SiteNo};
use zq_journal::Book;
use zq_posheap::Seeded;
use zq_shard::Shard;

/// How many keys there are.
const KEY_COUNT: usize = 3;

const KEYS: [&[u8; 3]; KEY_COUNT] = [b"one", b"two", b"six"];

/// What is known at a site of each key's members.
#[derive(Drop)]
struct Lists {
    one: Held,
    two: Held,
    six: Held,
}

impl Lists {
    fn at(&self, key: usize) -> &Held {
        match key % KEY_COUNT {
            0 => &self.one,
            1 => &self.two,
            _ => &self.six,
        }
    }

    fn at_mut(&mut self, key: usize) -> &mut Held {
        match key % KEY_COUNT {
            0 => &mut self.one,
            1 => &mut self.two,
            _ => &mut self.six,
        }
    }
}

/// A site: its book of one heap, its lists, and its number.
#[derive(Drop)]
struct Site {
    book: Book,
    lists: Lists,
    number: SiteNo,
}

impl Site {
    fn new(alloc: Global, rule: Rule, number: SiteNo, seed: u64) -> Site {
        Site {
            book: Book::new(
                alloc,
                Shard::new_ruled(alloc, 0, 1, rule, Seeded::new(seed)),
            ),
            lists: Lists {
                one: NONE,
                two: NONE,
                six: NONE,
            },
            number,
        }
    }
}

/// What is drawn: a key, a member, an amount, and what is done.
#[derive(Clone, Copy)]
struct Draw {
    key: usize,
    member: usize,
    amount: u8,
    kind: u8,
}

fn draw_of(word: u64) -> Draw {
    let bytes = word.to_le_bytes();
    Draw {
        key: usize::from(bytes[0]) % KEY_COUNT,
        member: usize::from(bytes[1]) % MEMBERS,
        amount: bytes[2] & 15,
        kind: bytes[3] & 15,
    }
}

/// Where most steps put members, mostly the next one that does not stand is taken, and where most
/// drop members, the next one that stands.
fn aimed(draw: Draw, lists: &Lists, rises: bool) -> Draw {
    if draw.amount < 2 {
        return draw;
    }
    Draw {
        member: next_from(lists.at(draw.key), draw.member, !rises),
        ..draw
    }
}

/// What becomes of a member's score, and `None` where it does not stand then.
fn score_after(score: Option<i64>, deed: Deed) -> Option<i64> {
    match deed {
        Deed::Put(value) => Some(value),
        Deed::Bump(increment) => Some(score?.saturating_add(increment)),
        Deed::Drop => None,
    }
}

/// What is done to a member. Where `rises`, mostly a Put, and else mostly a Drop.
fn deed_of(draw: Draw, rises: bool) -> Deed {
    if draw.kind < 5 {
        Deed::Bump(i64::from(draw.amount) - 8)
    } else if rises == (draw.kind < 15) {
        Deed::Put(i64::from(draw.amount))
    } else {
        Deed::Drop
    }
}

/// A site acts on a member, in its book and in its list: whether the book says that the member
/// stood.
fn acts(site: &mut Site, alloc: Global, draw: Draw, deed: Deed, step: usize) -> bool {
    let Some(act) = deed.act() else {
        return false;
    };
    let (stamp, key) = (site.book.stamp(), KEYS[draw.key % KEY_COUNT]);
    let held = site.lists.at_mut(draw.key);
    let before = score_of(held, draw.member);
    change(held, draw.member, score_after(before, deed), step);
    match site
        .book
        .make(alloc, site.number, stamp, key, name_of(draw.member), act)
    {
        Ok(stood) => stood == before.is_some(),
        Err(_) => false,
    }
}

/// One site takes all that another has: whether it could.
fn merges(site: &mut Site, alloc: Global, other: &Site) -> bool {
    for key in 0..KEY_COUNT {
        join(site.lists.at_mut(key), other.lists.at(key));
    }
    let stamp = site.book.stamp();
    site.book.merge(alloc, stamp, other.book.shard()).is_ok()
}

/// A copy takes the place of a site's heap, with no records: whether it could, and is the same.
fn copies(site: &mut Site, alloc: Global) -> bool {
    match site.book.shard().copy(alloc) {
        Ok(copy) => {
            let same = copy.same(site.book.shard());
            site.book = Book::new(alloc, copy);
            same
        }
        Err(AllocError) => false,
    }
}

/// Whether all that a site did since its last merge can be undone, and done again.
fn is_undone(site: &Site, alloc: Global) -> bool {
    matches!(site.book.audit(alloc), Ok(true))
}

/// Does what is drawn, at a site and with another: whether it could, with the answers that it
/// should have.
fn follows(
    site: &mut Site,
    other: &Site,
    alloc: Global,
    draw: Draw,
    rises: bool,
    step: usize,
) -> bool {
    match draw.kind {
        0 | 1 => merges(site, alloc, other),
        2 if draw.amount < 8 => copies(site, alloc),
        2 => is_undone(site, alloc),
        3 => {
            let most = usize::from(draw.amount);
            site.book.index(alloc, KEYS[draw.key % KEY_COUNT], most);
            true
        }
        _ => acts(site, alloc, draw, deed_of(draw, rises), step),
    }
}

/// Whether a heap shows what the list has of a member.
fn shows_member(shard: &Shard, held: &Held, key: &[u8], number: usize) -> bool {
    let member = name_of(number);
    let score = i128::from(score_of(held, number).unwrap_or(0));
    let before = count_before(held, score, b"");
    has_score(held, number, shard.score(key, member))
        && shard.entry(key, member).is_some() == score_of(held, number).is_some()
        && shard.rank(key, member) == rank(held, number)
        && shard.count_before(key, score, member) == count_before(held, score, member)
        && shard.count_below(key, score, false) == before
        && shard.count_below(key, score, true) == count_before(held, score.saturating_add(1), b"")
}

/// Whether a heap lists what the list has, and its part from one place up to another.
fn shows_order(
    shard: &Shard,
    held: &Held,
    alloc: Global,
    key: &[u8],
    from: usize,
    to: usize,
) -> bool {
    shard.count(key) == count(held)
        && is_top(held, shard.top(key))
        && lists(held, 0, MEMBERS, shard.in_order(alloc, key))
        && lists(held, 0, to, shard.first(alloc, key, to))
        && lists(held, from, to, shard.slice(alloc, key, from, to))
        && lists_turned(held, from, to, shard.slice_turned(alloc, key, from, to))
}

/// Whether a site shows its list of a key, with the member and the part that the step's number
/// says.
fn shows(site: &Site, alloc: Global, key: usize, step: usize) -> bool {
    let (shard, from) = (site.book.shard(), step % 19);
    let (key, held) = (KEYS[key % KEY_COUNT], site.lists.at(key));
    shows_member(shard, held, key, step % MEMBERS)
        && shows_order(shard, held, alloc, key, from, from + step % 7)
}

/// Whether a site shows all its lists.
fn shows_all(site: &Site, alloc: Global) -> bool {
    for step in 0..KEY_COUNT * MEMBERS {
        if !shows(site, alloc, step, step) {
            return false;
        }
    }
    true
}

/// Plays a run of two sites, each of which changes its own half of each key's members. The keys
/// rise and fall at different times.
fn play(rt: &impl Abort, alloc: Global, ours: &mut Site, theirs: &mut Site, draws: &mut Pcg64) {
    for row in 0..1200usize {
        let drawn = draw_of(draws.next_u64());
        let step = row.saturating_add(1);
        let rises = (row / 300).saturating_add(drawn.key) % 2 == 0;
        let draw = aimed(drawn, &ours.lists, rises);
        let done = if draw.member % 2 == 0 {
            follows(ours, theirs, alloc, draw, rises, step)
        } else {
            follows(theirs, ours, alloc, draw, rises, step)
        };
        let holds = shows(ours, alloc, draw.key, step) && shows(theirs, alloc, draw.key, step);
        row_holds(rt, "drawn steps", row, done && holds);
    }
}

/// Whether two sites have the same once each has taken what the other has.
fn meet(ours: &mut Site, theirs: &mut Site, alloc: Global) -> bool {
    merges(ours, alloc, theirs)
        && merges(theirs, alloc, ours)
        && ours.book.shard().same(theirs.book.shard())
        && shows_all(theirs, alloc)
}

#[test]
fn keys_of_each_size_show_plain_lists(rt: HostRuntime) {
    let alloc = rt.alloc();
    let one = SiteNo::new(0).expect(&rt, "a site");
    let other = SiteNo::new(63).expect(&rt, "a site");
    for (seed, rule) in [(1, Rule::High), (2, Rule::Low)] {
        let mut draws = Pcg64::seed_from_u64(seed);
        let mut ours = Site::new(alloc, rule, one, seed);
        let mut theirs = Site::new(alloc, rule, other, seed);
        play(&rt, alloc, &mut ours, &mut theirs, &mut draws);
        assert!(rt; meet(&mut ours, &mut theirs, alloc));
    }
}
