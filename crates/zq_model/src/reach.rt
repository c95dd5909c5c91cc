//! Laws of books that are reached from one another.

ghost use Rattle.std.specs.Prelude.{List, None, Some, [], drop, max, true, length, ℕ, ◌++◌, ◌-◌, ◌<◌, ◌∷◌, ◌≡◌, ◌≤◌};
ghost use Rattle.zq_model.specs.Books.{Book, Change, HandedOn, Merged, Recorded, Step, TookOver, advanced, handed_on, is_change_over, merged, recorded, taken_over, touched};
ghost use Rattle.zq_model.specs.Limits.{standard};
ghost use Rattle.zq_model.specs.Reach.{IsReachedBy, IsWorked, Reached, begun, bytes_in, cut_by_bytes, cut_by_length, cut_of, worked};
ghost use Rattle.zq_model.specs.Image.{Image};
ghost use Rattle.zq_model.specs.Operation.{has};
ghost use Rattle.zq_model.specs.Sets.{SITES, covers};

/// Every book is reached from itself, and what is reached from a book that was reached is reached.
/// A call's work with a later stamp reaches, and so do a higher stamp alone and a cut of the tail
/// alone.
pub fn reaching()
    ensures itself { (a : Book) → Reached a a }
    ensures through { (c b a : Book) → Reached c b → Reached b a → Reached c a }
    ensures works { (b a : Book) (stamp : ℕ) (steps : List Step) → IsWorked b a stamp steps →
        a.stamp < stamp → IsReachedBy b a steps }
    ensures touches { (a : Book) (stamp : ℕ) → a.stamp ≤ stamp →
        IsReachedBy (touched a stamp) a [] }
    ensures advances { (n : ℕ) (a : Book) → n ≤ cut_of a → IsReachedBy (advanced n a) a [] }
{}

/// A cut takes records of the tail alone, and none that was not handed on where that is asked. What
/// it leaves has at most as many bytes as a tail keeps. With the limits of a book where nothing
/// else is said a tail of 4,096 records or more is cut to its newest 2,048.
pub fn cutting()
    ensures within { (b : Book) → cut_of b ≤ length b.tail }
    ensures free { (b : Book) → b.handed ≡ None →
        cut_of b ≡ max (cut_by_length b.limits (length b.tail))
        (cut_by_bytes b.limits.bytes b.tail) }
    ensures handed { (b : Book) (n : ℕ) → b.handed ≡ Some n →
        cut_of b ≤ n - (b.count - length b.tail) }
    ensures light { (b : Book) (most : ℕ) → b.handed ≡ None → b.limits.bytes ≡ Some most →
        bytes_in (drop (cut_of b) b.tail) ≤ most }
    ensures short { (b : Book) → b.handed ≡ None → b.limits ≡ standard → length b.tail < 4096 →
        cut_of b ≡ 0 }
    ensures long { (b : Book) → b.handed ≡ None → b.limits ≡ standard → 4096 ≤ length b.tail →
        cut_of b ≡ length b.tail - 2048 }
{}

/// What is reached has lost nothing: its vector covers the one before, so that a dot that was known
/// stays known.
pub fn growing()
    ensures covers { (b a : Book) → Reached b a → covers b.state.vector a.state.vector ≡ true }
    ensures knows { (b a : Book) (site n : ℕ) → Reached b a → has a.state.vector site n ≡ true →
        has b.state.vector site n ≡ true }
{}

/// A call's work begins with a cut of the tail and the call's stamp, and goes on with each record,
/// each image that it merges or takes over, and each word of what was handed on. So the book that it
/// leaves is told by the one that it found, its stamp and its steps.
pub fn working()
    ensures starts { (a : Book) (stamp : ℕ) → IsWorked (begun stamp a) a stamp [] }
    ensures records { (b a : Book) (stamp : ℕ) (steps : List Step) (c : Change) →
        IsWorked b a stamp steps → is_change_over b.heaps b.heap b.state.vector c ≡ true →
        IsWorked (recorded b stamp c) a stamp
        (steps ++ Recorded (record { stamp = stamp; change = c }) ∷ []) }
    ensures merges { (b a : Book) (stamp : ℕ) (steps : List Step) (other : Image) →
        IsWorked b a stamp steps → length b.state.vector ≡ SITES →
        IsWorked (merged b stamp other) a stamp (steps ++ Merged stamp other ∷ []) }
    ensures hands_on { (b a : Book) (stamp handed : ℕ) (steps : List Step) →
        IsWorked b a stamp steps →
        IsWorked (handed_on b stamp handed) a stamp (steps ++ HandedOn stamp handed ∷ []) }
    ensures takes_over { (b a : Book) (stamp : ℕ) (steps : List Step) (other : Image) →
        IsWorked b a stamp steps → length b.state.vector ≡ SITES →
        covers other.vector b.state.vector ≡ true →
        IsWorked (taken_over b stamp other) a stamp (steps ++ TookOver stamp other ∷ []) }
    ensures leaves { (b a : Book) (stamp : ℕ) (steps : List Step) → IsWorked b a stamp steps →
        b ≡ worked stamp steps a }
{}
