//! Laws of what is pushed. The functions do nothing: each stands for its contract.

ghost use Rattle.zq_follow.specs.FollowLaws as laws;

/// After a push of no more new operations than were allowed, no more are on their way than the
/// window has room for, or than were on their way before where that was more.
pub fn a_window_is_kept()
    ensures { laws.WindowIsKept }
{}

/// What a peer lacks of what was sent before a probe that it has answered does not count as sent
/// any more, and the log is read from its beginning.
pub fn what_was_lost_is_sent_again()
    ensures { laws.LostIsSentAgain }
{}

/// An At adds nothing to what counts as sent but what the peer says that it has.
pub fn nothing_is_claimed()
    ensures { laws.NothingIsClaimed }
{}
