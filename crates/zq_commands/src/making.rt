//! One move.

ghost use Rattle.std.specs.Prelude.{IfOk, IsErrOf, List, OnErr, OnOk, is_some, length, ℕ, ◌≡◌, ◌≤◌};
ghost use Rattle.zq_commands.specs.Lending.{HasBook, IsDated, IsHomeAt, IsLending, lent_after, move_of, queues_in};
ghost use Rattle.zq_dots.specs.Act.{act_of};
ghost use Rattle.zq_model.specs.Operation.{LONGEST};
ghost use Rattle.zq_model.specs.Moves.{after, score_in};
ghost use Rattle.zq_commands.specs.Running.{IsWorn};

use crate::books::Books;
use crate::call::Call;
use crate::stopped::Stopped;
use zq_dots::Act;

/// Makes a move in the book at a place, which is that of its heap: it changes the queues as the
/// move says. It answers whether the member stood before.
pub fn make_at<B: Books>(
    books: &mut B,
    call: &Call,
    place: usize,
    key: &[u8],
    member: &[u8],
    act: Act,
) -> Result<bool, Stopped>
    requires lent { IsLending (B.lent books.old) }
    requires dated { IsDated call.now.stamp (B.lent books.old) }
    requires home { IsHomeAt key.now member.now place (B.lent books.old) }
    requires key { length key.now ≤ LONGEST }
    requires member { length member.now ≤ LONGEST }
    ensures made { OnOk result
        (B.lent books.new ≡ lent_after call.now.site call.now.stamp
        (move_of key.now member.now (act_of act)) (B.lent books.old)) }
    ensures queues { OnOk result
        (queues_in (B.lent books.new)
        ≡ after (move_of key.now member.now (act_of act))
        (queues_in (B.lent books.old))) }
    ensures stood { IfOk result
        (λ stood. stood ≡ is_some (score_in (queues_in (B.lent books.old) key.now) member.now)) }
    ensures refused { OnErr result (B.lent books.new ≡ B.lent books.old) }
    ensures worn { IsErrOf result Stopped.Worn →
        IsWorn call.now.site (move_of key.now member.now (act_of act)) (B.lent books.old) }
    ensures memory { IsErrOf result Stopped.NoMemory →
        IsWorn call.now.site (move_of key.now member.now (act_of act)) (B.lent books.old) → ⊥ }
    ensures lent { IsLending (B.lent books.new) }
    ensures dated { IsDated call.now.stamp (B.lent books.new) }
    ensures keeps { B.keeps books.old books.new }
    ensures homes { (k m : List ℕ) → HasBook k m (B.lent books.old) →
        HasBook k m (B.lent books.new) }
{
    // For the proof: a site's number is in range.
    let _number = call.site.value();
    books.make(call.alloc, place, call.site, call.stamp, key, member, act)
}
