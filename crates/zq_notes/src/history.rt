//! Laws of notes.

ghost use Rattle.std.specs.Prelude.{List, ℕ, ◌++◌, ◌∷◌, ◌≡◌};
ghost use Rattle.zq_dots.specs.Rule.{rule_of};
ghost use Rattle.zq_model.specs.Rule.{Rule as Rules};
ghost use Rattle.zq_model.specs.Sets.{IsIn};
ghost use Rattle.zq_notes.specs.Calls.{AreCallsFrom, AreInTurn, Call, IsCallOver, notes_of};
ghost use Rattle.zq_notes.specs.Notes.{Books, Note};
ghost use Rattle.zq_notes.specs.Order.{AreOrdered};
ghost use Rattle.zq_notes.specs.Thread.{AreOverLeft, IsOneThread, left_by, left_by_all};
ghost use Rattle.zq_spread.specs.Calls.{HasSeenBook, heaps_of};
ghost use Rattle.zq_spread.specs.declared.site.Site.{Site as Sites};

/// Notes of which each is over what those before it left in its heaps are one thread's. They stay
/// so, in order of stamp, and leave the same books, where neighbours of one stamp change places.
pub fn one_history()
    ensures one { (rule : Rules) (K site : ℕ) (opening : Books) (notes : List Note) →
        AreOverLeft rule K site opening notes → IsOneThread rule K site opening notes }
    ensures swaps { (rule : Rules) (K site : ℕ) (opening : Books) (front : List Note) (n m : Note)
        (rest : List Note) → n.stamp ≡ m.stamp → AreOrdered (front ++ n ∷ m ∷ rest) →
        IsOneThread rule K site opening (front ++ n ∷ m ∷ rest) →
        IsOneThread rule K site opening (front ++ m ∷ n ∷ rest) }
    ensures ordered { (front : List Note) (n m : Note) (rest : List Note) → n.stamp ≡ m.stamp →
        AreOrdered (front ++ n ∷ m ∷ rest) →
        AreOrdered (front ++ m ∷ n ∷ rest) }
    ensures leaves { (opening : Books) (front : List Note) (n m : Note) (rest : List Note) →
        n.stamp ≡ m.stamp → AreOrdered (front ++ n ∷ m ∷ rest) →
        left_by_all (front ++ n ∷ m ∷ rest) opening ≡ left_by_all (front ++ m ∷ n ∷ rest) opening }
{}

/// The calls of a site, each of which found in its heaps what those before it left there, are one
/// thread's history, and what a call leaves is what its pass has then seen. Their notes are in
/// order, rising strictly in each heap and along each pass, where no stamp falls and each pass
/// makes its calls one after the other.
pub fn calling()
    ensures thread { (site : Sites) (opening : Books) (calls : List Call) →
        AreCallsFrom site opening calls →
        IsOneThread (rule_of site.rule) (heaps_of site) site.number opening (notes_of calls) }
    ensures sees { (site : Sites) (books : Books) (c : Call) → IsCallOver site books c → (h : ℕ) →
        IsIn h c.note.heaps → HasSeenBook c.after h (λ b. b ≡ left_by c.note books h) }
    ensures ordered { (site : Sites) (opening : Books) (calls : List Call) →
        AreCallsFrom site opening calls → AreInTurn calls → AreOrdered (notes_of calls) }
{}
