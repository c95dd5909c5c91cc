//! Several things that a site is asked, under one stamp.

ghost use Rattle.std.specs.Prelude.{All, IsTrue, List, length, map, vec_capacity, ℕ, ◌+◌, ◌≡◌, ◌≤◌};
ghost use Rattle.zq_commands.specs.Arrays.{are_writable};
ghost use Rattle.zq_commands.specs.Calls.{AnswersAll, procedures};
ghost use Rattle.zq_commands.specs.Lending.{HasBook, IsDated, IsLending};
ghost use Rattle.zq_resp.specs.Reply.{reply_bytes};
ghost use Rattle.zq_words.specs.Calls.{IsCallWithinLimits, call_shown};

use crate::asked::run_call;
use crate::books::Books;
use std::alloc::Global;
use zq_dots::SiteNo;
use zq_resp::Reply;
use zq_words::SiteCall;

/// Runs what a site is asked over the books that are lent, one after the other, and puts the
/// replies behind those that are there. There is room for them, and all heaps are lent. One that is
/// cut says so in its reply, and the next is run.
pub fn run_each<B: Books>(
    books: &mut B,
    alloc: Global,
    site: SiteNo,
    stamp: u64,
    calls: &[SiteCall],
    replies: &mut Vec<Reply>,
)
    requires lent { IsLending (B.lent books.old) }
    requires dated { IsDated stamp (B.lent books.old) }
    requires homes { (key member : List ℕ) → HasBook key member (B.lent books.old) }
    requires limits { All (λ asked. IsCallWithinLimits (call_shown asked)) calls.now }
    requires room { length replies.old.items + length calls.now ≤ vec_capacity replies.old }
    ensures ran { AnswersAll (B.lent books.old).rule site stamp (procedures calls.now)
        (B.lent books.old).books (B.lent books.new).books
        (map reply_bytes replies.old.items) (map reply_bytes replies.new.items) }
    ensures rule { (B.lent books.new).rule ≡ (B.lent books.old).rule }
    ensures lent { IsLending (B.lent books.new) }
    ensures dated { IsDated stamp (B.lent books.new) }
    ensures keeps { B.keeps books.old books.new }
    ensures writable { IsTrue (are_writable replies.old.items) →
        IsTrue (are_writable replies.new.items) }
{
    for asked in calls {
        let reply = run_call(books, alloc, site, stamp, asked);
        replies.push_reserved(reply);
    }
}
