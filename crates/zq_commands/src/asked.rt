//! What a site is asked, over the books that are lent.

ghost use Rattle.std.specs.Prelude.{IsTrue, None, true, ◌≡◌};
ghost use Rattle.zq_commands.specs.Calls.{EndsProcedure, HasCallBooks};
ghost use Rattle.zq_commands.specs.Lending.{IsDated, IsLending};
ghost use Rattle.zq_resp.specs.Reply.{is_writable, reply_bytes};
ghost use Rattle.zq_semantics.specs.Procedures.{RunsProcedure, procedure};
ghost use Rattle.zq_words.specs.Calls.{IsCallWithinLimits, call_shown, plain_of};

use crate::books::Books;
use crate::call::Call;
use crate::indexing::{index_all, index_each};
use crate::keys_there::{read_keys, read_type};
use crate::pop_leftmost::pop_leftmost;
use crate::ran::Outcome;
use crate::range_section::from_zero;
use crate::remove_range::remove_range;
use crate::running::run;
use crate::zmscore::read_scores;
use crate::zpopmax::pop_last;
use std::alloc::Global;
use zq_dots::SiteNo;
use zq_resp::Reply;
use zq_words::SiteCall;

/// Runs what a site is asked over the books that are lent, as a site and at a stamp that is no less
/// than theirs: it makes what the procedure plans over their queues, and gives the reply. The heap
/// of each member that is named is lent. Where a book's number is at its last value, or memory is
/// refused, the moves before stand, and the reply says what it may of them.
pub fn run_call<B: Books>(
    books: &mut B,
    alloc: Global,
    site: SiteNo,
    stamp: u64,
    asked: &SiteCall,
) -> Reply
    requires lent { IsLending (B.lent books.old) }
    requires dated { IsDated stamp (B.lent books.old) }
    requires homes { HasCallBooks (call_shown asked.now) (B.lent books.old) }
    requires limits { IsCallWithinLimits (call_shown asked.now) }
    ensures ran { RunsProcedure (B.lent books.old).rule site stamp
        (procedure (call_shown asked.now)) (B.lent books.old).books (B.lent books.new).books
        (reply_bytes result) }
    ensures rule { (B.lent books.new).rule ≡ (B.lent books.old).rule }
    ensures heaps { (B.lent books.new).heaps ≡ (B.lent books.old).heaps }
    ensures told { EndsProcedure site stamp (procedure (call_shown asked.now)) (B.lent books.old)
        (B.lent books.new) (reply_bytes result) true }
    ensures lent { IsLending (B.lent books.new) }
    ensures dated { IsDated stamp (B.lent books.new) }
    ensures keeps { B.keeps books.old books.new }
    ensures writable { IsTrue (is_writable result) }
{
    match asked {
        SiteCall::Command(command) => run(books, alloc, site, stamp, command),
        other => {
            index_asked(books, alloc, other);
            let call = Call { alloc, site, stamp };
            run_other(books, &call, other)
        }
    }
}

/// Makes indexes of the keys whose queues are read from behind, or by ranges.
fn index_asked<B: Books>(books: &mut B, alloc: Global, asked: &SiteCall)
    requires { IsLending (B.lent books.old) }
    ensures same { B.lent books.new ≡ B.lent books.old }
    ensures keeps { B.keeps books.old books.new }
{
    match asked {
        SiteCall::PopLast { key, .. } | SiteCall::RemoveRange { key, .. } => {
            index_all(books, alloc, key);
        }
        SiteCall::PopLeftmost {
            keys,
            is_turned: true,
        } => index_each(books, alloc, keys),
        _ => {}
    }
}

/// Runs what is no command.
fn run_other<B: Books, O: Outcome>(books: &mut B, call: &Call, asked: &SiteCall) -> O
    requires lent { IsLending (B.lent books.old) }
    requires dated { IsDated call.now.stamp (B.lent books.old) }
    requires homes { HasCallBooks (call_shown asked.now) (B.lent books.old) }
    requires limits { IsCallWithinLimits (call_shown asked.now) }
    requires other { plain_of (call_shown asked.now) ≡ None }
    ensures told { EndsProcedure call.now.site call.now.stamp (procedure (call_shown asked.now))
        (B.lent books.old) (B.lent books.new) (reply_bytes (O.reply result))
        (O.is_short result) }
    ensures lent { IsLending (B.lent books.new) }
    ensures dated { IsDated call.now.stamp (B.lent books.new) }
    ensures keeps { B.keeps books.old books.new }
    ensures writable { IsTrue (is_writable (O.reply result)) }
{
    match asked {
        SiteCall::Command(_) => unreachable!(),
        SiteCall::Scores { key, members } => read_scores(books, call.alloc, key, members),
        SiteCall::Exist { keys } => read_keys(books, keys),
        SiteCall::TypeOf { key } => read_type(books, key),
        SiteCall::PopLast { key, count } => {
            O::of_ran(pop_last(books, call, key, from_zero(*count)))
        }
        SiteCall::RemoveRange { key, range } => remove_range(books, call, key, range),
        SiteCall::PopLeftmost { keys, is_turned } => pop_leftmost(books, call, keys, *is_turned),
    }
}
