//! ZADD.

ghost use Rattle.std.specs.Prelude.{All, IfOk, IsErrOf, IsTrue, List, OnErr, [], length, map, ℕ, ◌∷◌, ◌≡◌, ◌≤◌, true};
ghost use Rattle.zq_commands.specs.Lending.{HasBook, IsDated, IsLending, move_of, queues_in};
ghost use Rattle.zq_commands.specs.Running.{EndsOver, IsWorn};
ghost use Rattle.zq_commands.specs.Stepping.{Steps};
ghost use Rattle.zq_model.specs.Operation.{LONGEST, Put as Putting};
ghost use Rattle.zq_semantics.specs.Plan.{in_turn, one, zadd_part};
ghost use Rattle.zq_semantics.specs.Run.{ForMoves, cut_error};
ghost use Rattle.zq_resp.specs.Reply.{is_writable, reply_bytes};
ghost use Rattle.zq_words.specs.Limits.{IsPair};
ghost use Rattle.zq_words.specs.Shown.{pair_shown};

use crate::books::Books;
use crate::call::Call;
use crate::made::Made;
use crate::making::make_at;
use crate::ran::Outcome;
use crate::replies::count_reply;
use crate::scores::{Found, find};
use crate::stopped::Stopped;
use crate::zadd_flags::{are_none, is_counted, is_let};
use zq_dots::{Act, Score};
use zq_words::{Flags, Pair};

/// Puts each pair that the flags let in turn, and answers how many members were added, with CH also
/// how many scores changed.
pub fn put_pairs<B: Books, O: Outcome>(
    books: &mut B,
    call: &Call,
    key: &[u8],
    flags: Flags,
    pairs: &[Pair],
) -> O
    requires lent { IsLending (B.lent books.old) }
    requires dated { IsDated call.now.stamp (B.lent books.old) }
    requires homes { All (λ pair. HasBook key.now pair.1 (B.lent books.old))
        (map pair_shown pairs.now) }
    requires key { length key.now ≤ LONGEST }
    requires pairs { All IsPair (map pair_shown pairs.now) }
    requires few { length pairs.now ≤ 65536 }
    ensures ran { EndsOver call.now.site call.now.stamp ForMoves
        (in_turn (zadd_part key.now flags) (map pair_shown pairs.now)
        (queues_in (B.lent books.old))) cut_error
        (B.lent books.old) (B.lent books.new) (reply_bytes (O.reply result)) (O.is_short result) }
    ensures lent { IsLending (B.lent books.new) }
    ensures dated { IsDated call.now.stamp (B.lent books.new) }
    ensures keeps { B.keeps books.old books.new }
    ensures writable { IsTrue (is_writable (O.reply result)) }
{
    let mut done = 0;
    let mut counted = 0;
    for pair in pairs {
        match put_one(books, call, key, flags, pair) {
            Ok(made) => {
                counted += made.counted;
                done += made.moves;
            }
            Err(cut) => return O::of_cut(cut, done),
        }
    }
    O::of_reply(count_reply(counted))
}

/// Puts a pair, if the flags let it. Where there are no flags, what the member had is not looked up
/// before.
fn put_one<B: Books>(
    books: &mut B,
    call: &Call,
    key: &[u8],
    flags: Flags,
    pair: &Pair,
) -> Result<Made, Stopped>
    requires lent { IsLending (B.lent books.old) }
    requires dated { IsDated call.now.stamp (B.lent books.old) }
    requires home { HasBook key.now pair.now.member.now (B.lent books.old) }
    requires key { length key.now ≤ LONGEST }
    requires pair { IsPair (pair_shown pair.now) }
    ensures steps { IfOk result
        (λ made. Steps call.now.site call.now.stamp
        (zadd_part key.now flags (queues_in (B.lent books.old)) (pair_shown pair.now))
        (B.lent books.old) (B.lent books.new) made) }
    ensures most { IfOk result (λ made. (made.moves ≤ 1)) }
    ensures one { IfOk result (λ made. (made.counted ≤ 1)) }
    ensures refused { OnErr result (B.lent books.new ≡ B.lent books.old) }
    ensures there { OnErr result
        ((zadd_part key.now flags (queues_in (B.lent books.old)) (pair_shown pair.now)).moves
        ≡ one key.now pair.now.member.now (Putting pair.now.score)) }
    ensures worn { IsErrOf result Stopped.Worn →
        IsWorn call.now.site (move_of key.now pair.now.member.now (Putting pair.now.score))
        (B.lent books.old) }
    ensures memory { IsErrOf result Stopped.NoMemory →
        IsWorn call.now.site (move_of key.now pair.now.member.now (Putting pair.now.score))
        (B.lent books.old) → ⊥ }
    ensures lent { IsLending (B.lent books.new) }
    ensures dated { IsDated call.now.stamp (B.lent books.new) }
    ensures keeps { B.keeps books.old books.new }
    ensures homes { (k m : List ℕ) → HasBook k m (B.lent books.old) →
        HasBook k m (B.lent books.new) }
{
    let Some(score) = Score::new(pair.score) else {
        unreachable!();
    };
    if are_none(flags) {
        let place = books.home(key, pair.member);
        let stood = make_at(books, call, place, key, pair.member, Act::Put(score))?;
        let counted = if stood { 0 } else { 1 };
        return Ok(Made { moves: 1, counted });
    }
    let Found { place, score: old } = find(books, key, pair.member);
    let new = i128::from(pair.score);
    if !is_let(flags, old, &new) {
        return Ok(Made::NOTHING);
    }
    let counted = if is_counted(flags, old, &new) { 1 } else { 0 };
    make_at(books, call, place, key, pair.member, Act::Put(score))?;
    Ok(Made { moves: 1, counted })
}
