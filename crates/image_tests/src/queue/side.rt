//! A queue at one side, with the vector of what the side has seen.
ghost use Rattle.std.specs.Prelude.{IfSome, false, ◌≡◌, ◌≤◌};
ghost use Rattle.zq_dots.specs.Act.{act_of};
ghost use Rattle.zq_model.specs.Operation.{is_bump};
ghost use Rattle.zq_model.specs.Sets.{LAST};

use std::alloc::Global;
use zq_dots::{Act, Dot, Rule, Score, SiteNo, Vector};
use zq_entry::Entry;
use zq_posheap::Seeded;
use zq_queue::{Effect, Queue};

/// A queue, what its side has seen, and the site of the side's operations.
#[derive(Drop)]
pub struct Side {
    pub queue: Queue,
    pub seen: Vector,
    pub site: SiteNo,
}

impl Side {
    pub fn new(alloc: Global, rule: Rule, site: SiteNo) -> Side {
        Side {
            queue: Queue::new(alloc, rule, Seeded::new(5)),
            seen: Vector::new(),
            site,
        }
    }

    /// Puts a member of one byte at this score: whether it could.
    pub fn puts(&mut self, alloc: Global, member: u8, value: i64) -> bool {
        self.changes(alloc, &[member], Some(value)).is_some()
    }

    /// Drops a member of one byte: whether it could.
    pub fn drops(&mut self, alloc: Global, member: u8) -> bool {
        self.changes(alloc, &[member], None).is_some()
    }

    /// Puts a member at this score, or drops it, and answers the score that it had; `None` where it
    /// could not.
    pub fn changes(
        &mut self,
        alloc: Global,
        member: &[u8],
        value: Option<i64>,
    ) -> Option<Option<i128>> {
        let rule = self.queue.rule();
        match self.take(alloc, member, act(value)?)? {
            Some(before) => Some(before.score(rule)),
            None => Some(None),
        }
    }

    /// Puts a member at this score, or drops it, and the member gets back what it had: whether it
    /// could.
    pub fn undoes(&mut self, alloc: Global, member: &[u8], value: Option<i64>) -> bool {
        let Some(act) = act(value) else {
            return false;
        };
        match self.take(alloc, member, act) {
            Some(before) => self.queue.put_back(member, before).is_ok(),
            None => false,
        }
    }

    /// Makes an operation on a member, and answers what the member had.
    fn take(&mut self, alloc: Global, member: &[u8], act: Act) -> Option<Option<Entry>>
        requires { is_bump (act_of act) ≡ false }
    {
        let dot = self.seen.next(self.site).ok()?;
        put(&mut self.queue, &mut self.seen, alloc, dot, member, act)
    }
}

/// A Put at this score, or a Drop; `None` where the number is no score.
fn act(value: Option<i64>) -> Option<Act>
    ensures { IfSome result (λ act. is_bump (act_of act) ≡ false) }
{
    match value {
        Some(value) => Some(Act::Put(Score::new(value)?)),
        None => Some(Act::Drop),
    }
}

/// Takes an act on a member that has seen what the vector has, and answers what the
/// member had. The vector comes to know it.
fn put(
    queue: &mut Queue,
    seen: &mut Vector,
    alloc: Global,
    dot: Dot,
    member: &[u8],
    act: Act,
) -> Option<Option<Entry>>
    requires counter { (1 ≤ dot.n) × (dot.n ≤ LAST) }
    requires act { is_bump (act_of act) ≡ false }
{
    let Dot { site, n } = dot;
    let effect = Effect { dot, act, seen };
    let before = queue.take(alloc, member, &effect).ok()?;
    seen.set(site, n);
    Some(before)
}
