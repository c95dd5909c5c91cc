//! ZREM.

ghost use Rattle.std.specs.Prelude.{All, IsTrue, None, Option, Some, length, true, ◌≡◌, ◌≤◌, ◌<◌, ◌^◌};
ghost use Rattle.zq_commands.specs.Lending.{HasBook, IsDated, IsLending, queues_in};
ghost use Rattle.zq_commands.specs.Running.{EndsOver};
ghost use Rattle.zq_commands.specs.Stopped.{want_of};
ghost use Rattle.zq_commands.specs.declared.stopped.Stopped.{Stopped as Cuts};
ghost use Rattle.zq_model.specs.Operation.{LONGEST};
ghost use Rattle.zq_semantics.specs.Plan.{in_turn, zrem_part};
ghost use Rattle.zq_semantics.specs.Replies as replies;
ghost use Rattle.zq_semantics.specs.Run.{ForMoves, Memory, cut_error};
ghost use Rattle.zq_resp.specs.Reply.{is_writable, reply_bytes};
ghost use Rattle.zq_words.specs.Limits.{IsShort};
ghost use Rattle.zq_words.specs.Words.{views};

use crate::books::Books;
use crate::call::Call;
use crate::cleared::Cleared;
use crate::dropping::drop_each;
use crate::ran::Outcome;
use crate::replies::count_reply;

/// Drops each member that is there in turn, and answers how many were.
pub fn drop_members<B: Books, O: Outcome>(
    books: &mut B,
    call: &Call,
    key: &[u8],
    members: &[Vec<u8>],
) -> O
    requires lent { IsLending (B.lent books.old) }
    requires dated { IsDated call.now.stamp (B.lent books.old) }
    requires homes { All (λ member. HasBook key.now member (B.lent books.old)) (views members.now) }
    requires key { length key.now ≤ LONGEST }
    requires members { All IsShort (views members.now) }
    requires few { length members.now ≤ 65536 }
    ensures ran { EndsOver call.now.site call.now.stamp ForMoves
        (in_turn (zrem_part key.now) (views members.now) (queues_in (B.lent books.old))) cut_error
        (B.lent books.old) (B.lent books.new) (reply_bytes (O.reply result)) (O.is_short result) }
    ensures lent { IsLending (B.lent books.new) }
    ensures dated { IsDated call.now.stamp (B.lent books.new) }
    ensures keeps { B.keeps books.old books.new }
    ensures writable { IsTrue (is_writable (O.reply result)) }
{
    answer_dropped(&drop_each(books, call, key, members))
}

/// How many members were dropped, or the error of the one that was not.
pub fn answer_dropped<O: Outcome>(dropped: &Cleared) -> O
    requires { dropped.now.done < 2 ^ 63 }
    ensures whole { dropped.now.cut ≡ None →
        reply_bytes (O.reply result) ≡ replies.bytes_of (replies.count_reply dropped.now.done) }
    ensures part { (cut : Cuts) → dropped.now.cut ≡ Some cut → reply_bytes (O.reply result)
        ≡ replies.bytes_of (cut_error dropped.now.done (want_of cut)) }
    ensures short { (cut : Cuts) → dropped.now.cut ≡ Some cut → want_of cut ≡ Memory →
        O.is_short result ≡ true }
    ensures writable { IsTrue (is_writable (O.reply result)) }
{
    match dropped.cut {
        None => O::of_reply(count_reply(dropped.done)),
        Some(cut) => O::of_cut(cut, dropped.done),
    }
}
