//! What is true of a connection while others are served between its requests.

ghost use Rattle.std.specs.Prelude.{◌≡◌, ◌++◌, List, [], take, ℕ};
ghost use Rattle.zq_session.specs.Among.{Meanwhile};
ghost use Rattle.zq_session.specs.Connection.{Closes, ConnectionState, IsAlong, IsCutShort, IsEnded, IsNew, IsWritten, owed_of};

use crate::serving::Answers;

/// A connection is served from its beginning on, while others are, while what it is owed is
/// written, and when it is closed; that hearing it serves it, its methods say. At whatever moment
/// it ends, what was written is the front of what a session owes for the front of its text; and
/// where nothing is owed any more, it is all of that.
pub fn keeping<A: Answers>()
    ensures begins { (s : A) (c : ConnectionState) → IsNew c →
        IsAlong A.others A.answers s s [] [] c }
    ensures others { (begun now later : A) (text written : List ℕ) (c : ConnectionState) →
        IsAlong A.others A.answers begun now text written c → Meanwhile A.others now later →
        IsAlong A.others A.answers begun later text written c }
    ensures writes { (begun now : A) (text written : List ℕ) (count : ℕ)
        (old new : ConnectionState) →
        IsAlong A.others A.answers begun now text written old → IsWritten old count new →
        IsAlong A.others A.answers begun now text (written ++ take count (owed_of old)) new }
    ensures closes { (begun now : A) (text written : List ℕ) (old new : ConnectionState) →
        IsAlong A.others A.answers begun now text written old → Closes old new →
        IsAlong A.others A.answers begun now text written new }
    ensures stops { (begun now : A) (text written : List ℕ) (c : ConnectionState) →
        IsAlong A.others A.answers begun now text written c →
        IsCutShort A.others A.answers begun now text written }
    ensures ends { (begun now : A) (text written : List ℕ) (c : ConnectionState) →
        IsAlong A.others A.answers begun now text written c → owed_of c ≡ [] →
        IsEnded A.others A.answers begun now text written }
{}
