//! ZINCRBY, and ZADD with INCR.

ghost use Rattle.std.specs.Prelude.{IfSome, IsErrOf, IsTrue, OnErr, OnOk, length, ◌≡◌, ◌≤◌, false};
ghost use Rattle.zq_commands.specs.Lending.{HasBook, IsDated, IsHomeAt, IsLending, lent_after, queues_in};
ghost use Rattle.zq_commands.specs.Raising.{raising_move};
ghost use Rattle.zq_commands.specs.Running.{EndsOver, IsWorn};
ghost use Rattle.zq_model.specs.Operation.{LONGEST};
ghost use Rattle.zq_model.specs.Moves.{score_in};
ghost use Rattle.zq_semantics.specs.Plan as plan;
ghost use Rattle.zq_semantics.specs.Run.{ForMoves, cut_error};
ghost use Rattle.zq_commands.specs.Wide.{IsWide};
ghost use Rattle.zq_resp.specs.Reply.{is_writable, reply_bytes};
ghost use Rattle.zq_words.specs.Limits.{IsPair};
ghost use Rattle.zq_words.specs.Shown.{pair_shown};
ghost use Rattle.zq_words.specs.Words as words;

use crate::books::Books;
use crate::call::Call;
use crate::making::make_at;
use crate::ran::Outcome;
use crate::scores::{Found, find};
use crate::stopped::Stopped;
use zq_dots::{Act, GREATEST, Score};
use zq_resp::Reply;
use zq_words::{Flags, Pair};

/// Adds to a member's score, and answers the sum. A member that is not there begins with 0.
pub fn raise<B: Books, O: Outcome>(books: &mut B, call: &Call, key: &[u8], pair: &Pair) -> O
    requires lent { IsLending (B.lent books.old) }
    requires dated { IsDated call.now.stamp (B.lent books.old) }
    requires home { HasBook key.now pair.now.member.now (B.lent books.old) }
    requires key { length key.now ≤ LONGEST }
    requires pair { IsPair (pair_shown pair.now) }
    ensures ran { EndsOver call.now.site call.now.stamp ForMoves
        (plan.raise key.now pair.now.member.now
        (score_in (queues_in (B.lent books.old) key.now) pair.now.member.now) pair.now.score)
        cut_error
        (B.lent books.old) (B.lent books.new) (reply_bytes (O.reply result)) (O.is_short result) }
    ensures lent { IsLending (B.lent books.new) }
    ensures dated { IsDated call.now.stamp (B.lent books.new) }
    ensures keeps { B.keeps books.old books.new }
    ensures writable { IsTrue (is_writable (O.reply result)) }
{
    let found = find(books, key, pair.member);
    raise_from(books, call, key, pair, found)
}

/// The same where the flags let the member have the sum, and else nothing, which the null bulk
/// says.
pub fn raise_if<B: Books, O: Outcome>(
    books: &mut B,
    call: &Call,
    key: &[u8],
    flags: Flags,
    pair: &Pair,
) -> O
    requires lent { IsLending (B.lent books.old) }
    requires dated { IsDated call.now.stamp (B.lent books.old) }
    requires home { HasBook key.now pair.now.member.now (B.lent books.old) }
    requires key { length key.now ≤ LONGEST }
    requires pair { IsPair (pair_shown pair.now) }
    ensures ran { EndsOver call.now.site call.now.stamp ForMoves
        (plan.raise_if flags key.now pair.now.member.now
        (score_in (queues_in (B.lent books.old) key.now) pair.now.member.now) pair.now.score)
        cut_error
        (B.lent books.old) (B.lent books.new) (reply_bytes (O.reply result)) (O.is_short result) }
    ensures lent { IsLending (B.lent books.new) }
    ensures dated { IsDated call.now.stamp (B.lent books.new) }
    ensures keeps { B.keeps books.old books.new }
    ensures writable { IsTrue (is_writable (O.reply result)) }
{
    let found = find(books, key, pair.member);
    if !is_sum_let(flags, found.score, pair) {
        return O::of_reply(Reply::NullBulk);
    }
    raise_from(books, call, key, pair, found)
}

/// Adds to the score that the member has. The reply takes no memory.
fn raise_from<B: Books, O: Outcome>(
    books: &mut B,
    call: &Call,
    key: &[u8],
    pair: &Pair,
    found: Found,
) -> O
    requires lent { IsLending (B.lent books.old) }
    requires dated { IsDated call.now.stamp (B.lent books.old) }
    requires home { IsHomeAt key.now pair.now.member.now found.place (B.lent books.old) }
    requires key { length key.now ≤ LONGEST }
    requires pair { IsPair (pair_shown pair.now) }
    requires wide { IfSome found.score IsWide }
    ensures ran { EndsOver call.now.site call.now.stamp ForMoves
        (plan.raise key.now pair.now.member.now found.score pair.now.score) cut_error
        (B.lent books.old) (B.lent books.new) (reply_bytes (O.reply result)) (O.is_short result) }
    ensures lent { IsLending (B.lent books.new) }
    ensures dated { IsDated call.now.stamp (B.lent books.new) }
    ensures keeps { B.keeps books.old books.new }
    ensures writable { IsTrue (is_writable (O.reply result)) }
{
    if !is_sum_in_range(found.score, pair) {
        return O::of_reply(Reply::Error {
            text: "ERR result out of range",
            after: None,
        });
    }
    let sum = sum_of(found.score, pair);
    match raise_member(books, call, key, pair, found) {
        Ok(()) => O::of_reply(Reply::Number(sum)),
        Err(cut) => O::of_cut(cut, 0),
    }
}

/// The move: a Bump of a member that is there, and else a Put.
fn raise_member<B: Books>(
    books: &mut B,
    call: &Call,
    key: &[u8],
    pair: &Pair,
    found: Found,
) -> Result<(), Stopped>
    requires lent { IsLending (B.lent books.old) }
    requires dated { IsDated call.now.stamp (B.lent books.old) }
    requires home { IsHomeAt key.now pair.now.member.now found.place (B.lent books.old) }
    requires key { length key.now ≤ LONGEST }
    requires pair { IsPair (pair_shown pair.now) }
    ensures made { OnOk result
        (B.lent books.new ≡ lent_after call.now.site call.now.stamp
        (raising_move key.now pair.now found.score) (B.lent books.old)) }
    ensures refused { OnErr result (B.lent books.new ≡ B.lent books.old) }
    ensures worn { IsErrOf result Stopped.Worn →
        IsWorn call.now.site (raising_move key.now pair.now found.score) (B.lent books.old) }
    ensures memory { IsErrOf result Stopped.NoMemory →
        IsWorn call.now.site (raising_move key.now pair.now found.score) (B.lent books.old) → ⊥ }
    ensures lent { IsLending (B.lent books.new) }
    ensures dated { IsDated call.now.stamp (B.lent books.new) }
    ensures keeps { B.keeps books.old books.new }
{
    let Some(increment) = Score::new(pair.score) else {
        unreachable!();
    };
    let act = match found.score {
        None => Act::Put(increment),
        Some(_) => Act::Bump(increment),
    };
    make_at(books, call, found.place, key, pair.member, act)?;
    Ok(())
}

fn sum_of(old: Option<i128>, pair: &Pair) -> i128
    requires { IfSome old IsWide }
    ensures { result ≡ plan.sum_of old pair.now.score }
{
    old.unwrap_or(0) + i128::from(pair.score)
}

/// Whether the sum can be a score.
fn is_sum_in_range(old: Option<i128>, pair: &Pair) -> bool
    requires { IfSome old IsWide }
    ensures { result ≡ words.is_in_range (plan.sum_of old pair.now.score) }
{
    let sum = sum_of(old, pair);
    -i128::from(GREATEST) <= sum && sum <= i128::from(GREATEST)
}

/// Whether the flags let the member have the sum, which is greater than its score where the
/// increment is above 0.
fn is_sum_let(flags: Flags, old: Option<i128>, pair: &Pair) -> bool
    ensures { result ≡ plan.lets flags old (plan.sum_of old pair.now.score) }
{
    match old {
        None => !flags.xx,
        Some(_) => !flags.nx && ((!flags.gt || 0 < pair.score) && (!flags.lt || pair.score < 0)),
    }
}
