//! DEL.

ghost use Rattle.std.specs.Prelude.{All, IsErrOf, IsTrue, None, Ok, OnErr, Some, [], false, length, true, ◌<◌, ◌≡◌, ◌≤◌};
ghost use Rattle.zq_commands.specs.Clearing.{Clears};
ghost use Rattle.zq_commands.specs.FirstPairs.{DropsFirst, IsFirstWorn};
ghost use Rattle.zq_commands.specs.Lending.{IsDated, IsLending, queues_in};
ghost use Rattle.zq_commands.specs.Running.{EndsOver};
ghost use Rattle.zq_commands.specs.declared.stopped.Stopped.{Stopped as Cuts};
ghost use Rattle.zq_model.specs.Operation.{LONGEST};
ghost use Rattle.zq_semantics.specs.Plan as plan;
ghost use Rattle.zq_semantics.specs.Run.{ForCopies, cut_error};
ghost use Rattle.zq_resp.specs.Reply.{is_writable, reply_bytes};
ghost use Rattle.zq_words.specs.Limits.{IsShort};
ghost use Rattle.zq_words.specs.Words.{views};

use crate::books::Books;
use crate::call::Call;
use crate::cleared::Cleared;
use crate::first_of_key::top_of;
use crate::first_pair::{copy_top, drop_top};
use crate::ran::Outcome;
use crate::replies::count_reply;
use crate::stopped::Stopped;

/// Drops the members of each key in turn, and answers how many keys had some.
pub fn clear_keys<B: Books, O: Outcome>(books: &mut B, call: &Call, keys: &[Vec<u8>]) -> O
    requires lent { IsLending (B.lent books.old) }
    requires dated { IsDated call.now.stamp (B.lent books.old) }
    requires keys { All IsShort (views keys.now) }
    requires few { length keys.now ≤ 65536 }
    ensures ran { EndsOver call.now.site call.now.stamp ForCopies
        (plan.in_turn plan.del_part (views keys.now) (queues_in (B.lent books.old))) cut_error
        (B.lent books.old) (B.lent books.new) (reply_bytes (O.reply result)) (O.is_short result) }
    ensures lent { IsLending (B.lent books.new) }
    ensures dated { IsDated call.now.stamp (B.lent books.new) }
    ensures keeps { B.keeps books.old books.new }
    ensures writable { IsTrue (is_writable (O.reply result)) }
{
    let mut done = 0;
    let mut counted = 0;
    for key in keys {
        let cleared = clear_key(books, call, key, done);
        match cleared.cut {
            Some(cut) => return O::of_cut(cut, cleared.done),
            None => {}
        }
        counted += one_if_more(done, cleared.done);
        done = cleared.done;
    }
    O::of_reply(count_reply(counted))
}

/// One where moves were made, else none.
fn one_if_more(before: u64, done: u64) -> u64
    ensures more { before < done → result ≡ 1 }
    ensures none { done ≤ before → result ≡ 0 }
    ensures most { result ≤ 1 }
{
    if before < done { 1 } else { 0 }
}

/// Drops the first pair of a key until there is none. It counts on from `before`, up to the last
/// number.
fn clear_key<B: Books>(books: &mut B, call: &Call, key: &[u8], before: u64) -> Cleared
    requires lent { IsLending (B.lent books.old) }
    requires dated { IsDated call.now.stamp (B.lent books.old) }
    requires key { length key.now ≤ LONGEST }
    ensures cleared { Clears call.now.site call.now.stamp key.now before (B.lent books.old)
        (B.lent books.new) result }
    ensures lent { IsLending (B.lent books.new) }
    ensures dated { IsDated call.now.stamp (B.lent books.new) }
    ensures keeps { B.keeps books.old books.new }
{
    let mut done = before;
    while done < u64::MAX {
        match drop_first(books, call, key) {
            Ok(true) => done += 1,
            Ok(false) => return Cleared { done, cut: None },
            Err(cut) => return Cleared {
                done,
                cut: Some(cut),
            },
        }
    }
    Cleared {
        done,
        cut: cut_at_last(books, key),
    }
}

/// Where no number counts one more move: why it is not made, if there is one to make.
///
/// A call does not come to this: a book counts at most 2^48 - 1 moves of a site, and a site has at
/// most 16 books. It cannot be left out, since [`Books`] does not say how many books there are.
fn cut_at_last<B: Books>(books: &B, key: &[u8]) -> Option<Stopped>
    requires { IsLending (B.lent books.now) }
    ensures none { result ≡ None → queues_in (B.lent books.now) key.now ≡ [] }
    ensures some { (cut : Cuts) → result ≡ Some cut → cut ≡ Stopped.NoMemory }
    ensures there { (cut : Cuts) → result ≡ Some cut →
        IsTrue (plan.is_there (queues_in (B.lent books.now) key.now)) }
{
    match top_of(books, key) {
        None => None,
        Some(_) => Some(Stopped::NoMemory),
    }
}

/// Drops the first pair of a key, if there is one.
fn drop_first<B: Books>(books: &mut B, call: &Call, key: &[u8]) -> Result<bool, Stopped>
    requires lent { IsLending (B.lent books.old) }
    requires dated { IsDated call.now.stamp (B.lent books.old) }
    requires key { length key.now ≤ LONGEST }
    ensures dropped { result ≡ Ok true →
        DropsFirst call.now.site call.now.stamp key.now (B.lent books.old) (B.lent books.new) }
    ensures empty { result ≡ Ok false → queues_in (B.lent books.old) key.now ≡ [] }
    ensures idle { result ≡ Ok false → B.lent books.new ≡ B.lent books.old }
    ensures refused { OnErr result (B.lent books.new ≡ B.lent books.old) }
    ensures worn { IsErrOf result Stopped.Worn →
        IsFirstWorn call.now.site key.now (B.lent books.old) }
    ensures there { OnErr result (IsTrue (plan.is_there (queues_in (B.lent books.old) key.now))) }
    ensures lent { IsLending (B.lent books.new) }
    ensures dated { IsDated call.now.stamp (B.lent books.new) }
    ensures keeps { B.keeps books.old books.new }
{
    let pair = match copy_top(books, call.alloc, key)? {
        Some(pair) => pair,
        None => return Ok(false),
    };
    let dropped = drop_top(books, call, pair.place, key, &pair.member);
    drop(pair);
    match dropped {
        Ok(()) => Ok(true),
        Err(cut) => Err(cut),
    }
}
