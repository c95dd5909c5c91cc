//! Where a member lies over the books, and its score.

ghost use Rattle.std.specs.Prelude.{IfSome, length, ◌≡◌, ◌≤◌};
ghost use Rattle.zq_commands.specs.Lending.{HasBook, IsHomeAt, IsLending, queues_in};
ghost use Rattle.zq_commands.specs.Wide.{IsWide};
ghost use Rattle.zq_model.specs.Operation.{LONGEST};
ghost use Rattle.zq_model.specs.Moves.{score_in};

use crate::books::Books;

/// The place of a member's book, for a move that follows, and the member's score.
#[derive(Clone, Copy, Debug)]
pub struct Found {
    pub place: usize,
    /// `None` where the member is not in the queue of the key.
    pub score: Option<i128>,
}

/// Where a member of a key lies, and its score.
#[inline(always)]
pub fn find<B: Books>(books: &B, key: &[u8], member: &[u8]) -> Found
    requires lent { IsLending (B.lent books.now) }
    requires home { HasBook key.now member.now (B.lent books.now) }
    requires key { length key.now ≤ LONGEST }
    ensures home { IsHomeAt key.now member.now result.place (B.lent books.now) }
    ensures score { result.score ≡ score_in (queues_in (B.lent books.now) key.now) member.now }
    ensures wide { IfSome result.score IsWide }
{
    let place = books.home(key, member);
    let score = books.score(place, key, member);
    Found { place, score }
}

/// A member's score, and `None` where it is not in the queue of the key.
pub fn score_of<B: Books>(books: &B, key: &[u8], member: &[u8]) -> Option<i128>
    requires lent { IsLending (B.lent books.now) }
    requires home { HasBook key.now member.now (B.lent books.now) }
    requires key { length key.now ≤ LONGEST }
    ensures score { result ≡ score_in (queues_in (B.lent books.now) key.now) member.now }
    ensures wide { IfSome result IsWide }
{
    find(books, key, member).score
}
