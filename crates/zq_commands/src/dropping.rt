//! Members that are dropped one after the other.

ghost use Rattle.std.specs.Prelude.{All, IfOk, IsErrOf, List, OnErr, length, ℕ, ◌<◌, ◌^◌, ◌≡◌, ◌≤◌};
ghost use Rattle.zq_commands.specs.Dropping.{DropsEach};
ghost use Rattle.zq_commands.specs.Lending.{HasBook, IsDated, IsLending, move_of, queues_in};
ghost use Rattle.zq_commands.specs.Running.{IsWorn};
ghost use Rattle.zq_commands.specs.Stepping.{Steps};
ghost use Rattle.zq_model.specs.Operation.{Drop as Removal, LONGEST};
ghost use Rattle.zq_semantics.specs.Plan.{one, zrem_part};
ghost use Rattle.zq_words.specs.Limits.{IsShort};
ghost use Rattle.zq_words.specs.Words.{views};

use crate::books::Books;
use crate::call::Call;
use crate::cleared::Cleared;
use crate::made::Made;
use crate::making::make_at;
use crate::scores::find;
use crate::stopped::Stopped;
use zq_dots::Act;

/// Drops each member that is there in turn, up to one that is refused. It counts the moves.
pub fn drop_each<B: Books>(books: &mut B, call: &Call, key: &[u8], members: &[Vec<u8>]) -> Cleared
    requires lent { IsLending (B.lent books.old) }
    requires dated { IsDated call.now.stamp (B.lent books.old) }
    requires homes { All (λ member. HasBook key.now member (B.lent books.old)) (views members.now) }
    requires key { length key.now ≤ LONGEST }
    requires members { All IsShort (views members.now) }
    requires few { length members.now < 2 ^ 63 }
    ensures dropped { DropsEach call.now.site call.now.stamp key.now (views members.now)
        (B.lent books.old) (B.lent books.new) result }
    ensures few { result.done ≤ length members.now }
    ensures lent { IsLending (B.lent books.new) }
    ensures dated { IsDated call.now.stamp (B.lent books.new) }
    ensures keeps { B.keeps books.old books.new }
{
    let mut done = 0;
    for member in members {
        match drop_one(books, call, key, member) {
            Ok(made) => done += made.moves,
            Err(cut) => {
                return Cleared {
                    done,
                    cut: Some(cut),
                };
            }
        }
    }
    Cleared { done, cut: None }
}

/// Drops a member, if it is there.
fn drop_one<B: Books>(
    books: &mut B,
    call: &Call,
    key: &[u8],
    member: &[u8],
) -> Result<Made, Stopped>
    requires lent { IsLending (B.lent books.old) }
    requires dated { IsDated call.now.stamp (B.lent books.old) }
    requires home { HasBook key.now member.now (B.lent books.old) }
    requires key { length key.now ≤ LONGEST }
    requires member { length member.now ≤ LONGEST }
    ensures steps { IfOk result
        (λ made. Steps call.now.site call.now.stamp
        (zrem_part key.now (queues_in (B.lent books.old)) member.now)
        (B.lent books.old) (B.lent books.new) made) }
    ensures most { IfOk result (λ made. (made.moves ≤ 1)) }
    ensures one { IfOk result (λ made. (made.counted ≡ made.moves)) }
    ensures refused { OnErr result (B.lent books.new ≡ B.lent books.old) }
    ensures there { OnErr result
        ((zrem_part key.now (queues_in (B.lent books.old)) member.now).moves
        ≡ one key.now member.now Removal) }
    ensures worn { IsErrOf result Stopped.Worn →
        IsWorn call.now.site (move_of key.now member.now Removal) (B.lent books.old) }
    ensures memory { IsErrOf result Stopped.NoMemory →
        IsWorn call.now.site (move_of key.now member.now Removal) (B.lent books.old) → ⊥ }
    ensures lent { IsLending (B.lent books.new) }
    ensures dated { IsDated call.now.stamp (B.lent books.new) }
    ensures keeps { B.keeps books.old books.new }
    ensures homes { (k m : List ℕ) → HasBook k m (B.lent books.old) →
        HasBook k m (B.lent books.new) }
{
    let found = find(books, key, member);
    if found.score.is_none() {
        return Ok(Made::NOTHING);
    }
    make_at(books, call, found.place, key, member, Act::Drop)?;
    Ok(Made {
        moves: 1,
        counted: 1,
    })
}
