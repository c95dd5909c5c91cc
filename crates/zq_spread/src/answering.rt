//! What a held heap answers to a command.
ghost use Rattle.std.specs.Prelude.{◌≡◌, ◌≤◌, [], IsTrue};
ghost use Rattle.zq_model.specs.Books.{Book as Books};
ghost use Rattle.zq_model.specs.Reach.{IsWorked};
ghost use Rattle.zq_journal.specs.Books.{LAST_STAMP};
ghost use Rattle.zq_resp.specs.Reply.{is_writable, reply_bytes};
ghost use Rattle.zq_spread.specs.Answers.{HasWorked};
ghost use Rattle.zq_spread.specs.Commanded.{IsAnswered};
ghost use Rattle.zq_words.specs.Heaps as named;
ghost use Rattle.zq_words.specs.declared.heaps.Heaps.TheVariants.{One};

use crate::locked_heap::LockedHeap;
use std::alloc::Global;
use zq_commands::run;
use zq_dots::SiteNo;
use zq_resp::Reply;
use zq_words::Command;

impl LockedHeap {
    /// Runs a command that names members of this heap alone.
    pub(crate) fn answer(
        &mut self,
        alloc: Global,
        site: SiteNo,
        stamp: u64,
        command: &Command,
    ) -> Reply
        requires stamp { self.old.book.stamp ≤ stamp }
        requires bounded { stamp ≤ LAST_STAMP }
        requires one { named.heaps_of command.now self.old.book.heaps ≡ One self.old.book.heap }
        ensures total { self.new.total ≡ self.old.total }
        ensures worked { (a : Books) → IsWorked self.old.book a stamp [] →
            HasWorked (IsAnswered self.old.book.rule site stamp command.now (reply_bytes result))
            self.new.book a stamp }
        ensures writable { IsTrue (is_writable result) }
    {
        // For the proof: a book is within its bounds.
        let _vector = self.book.shard().vector();
        run(self, alloc, site, stamp, command)
    }
}
