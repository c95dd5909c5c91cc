//! Plans and ranges of a queue with the pairs (1, a), (2, b), (2, c) and (5, d).

ghost use Rattle.std.specs.Prelude.{None, Some, [], neg_ℤ, pos, reverse, ◌∷◌, ◌≡◌};
ghost use Rattle.zq_model.specs.Operation.{Drop as Removal, Put as Addition};
ghost use Rattle.zq_model.specs.Moves.{after, after_act};
ghost use Rattle.zq_model.specs.Readings.{rank_in, turned_rank_in};
ghost use Rattle.zq_semantics.specs.Examples.{a, all_four, b, c, count_changes, d, four, from_two, no_flags, only_greater, only_new, over_two, up_to_five};
ghost use Rattle.zq_semantics.specs.Plan.{one, plan_of};
ghost use Rattle.zq_semantics.specs.Ranges.{ranged, turned_if};
ghost use Rattle.zq_semantics.specs.Replies.{Integer, NullBulk};
ghost use Rattle.zq_words.specs.Command.{Zadd, ZaddIncr, Zrem};
ghost use Rattle.zq_words.specs.declared.range.Range.TheVariants.{ByPlace, ByScore};

/// ZADD with GT at an equal score, and with NX of a member that is there, makes nothing; a member
/// named twice counts once; with CH a changed score counts. ZREM counts what is there. INCR that a
/// flag forbids answers the null bulk.
pub fn planning()
    ensures equal { (plan_of (Zadd [] only_greater ((pos 2, b) ∷ [])) all_four).moves ≡ [] }
    ensures greater { (plan_of (Zadd [] only_greater ((pos 3, b) ∷ [])) all_four).moves
        ≡ one [] b (Addition (pos 3)) }
    ensures there { (plan_of (Zadd [] only_new ((pos 3, b) ∷ [])) all_four).moves ≡ [] }
    ensures twice { (plan_of (Zadd [] no_flags ((pos 3, 120 ∷ []) ∷ (pos 4, 120 ∷ []) ∷ []))
        all_four).reply ≡ Integer (pos 1) }
    ensures changed { (plan_of (Zadd [] count_changes ((pos 3, b) ∷ (pos 1, a) ∷ []))
        all_four).reply ≡ Integer (pos 1) }
    ensures removed { (plan_of (Zrem [] (a ∷ (120 ∷ []) ∷ a ∷ [])) all_four).reply
        ≡ Integer (pos 1) }
    ensures forbidden { (plan_of (ZaddIncr [] only_new (pos 1) a) all_four).reply ≡ NullBulk }
{}

/// Ranks count from 0, equal scores go by bytes, and an act keeps the order.
pub fn answering()
    ensures first { rank_in four a ≡ Some 0 }
    ensures bytes { rank_in four c ≡ Some 2 }
    ensures turned { turned_rank_in four d ≡ Some 0 }
    ensures absent { rank_in four (120 ∷ []) ≡ None }
    ensures put { after_act (Addition (pos 2)) four d ≡ (pos 1, a) ∷ (pos 2, b) ∷ (pos 2, c)
        ∷ (pos 2, d) ∷ [] }
    ensures dropped { after_act Removal four b ≡ (pos 1, a) ∷ (pos 2, c) ∷ (pos 5, d) ∷ [] }
{}

/// Both ends of a range of places are included, and a negative place counts from the end. A bound
/// that is out leaves out its score. A window leaves out its offset first.
pub fn slicing()
    ensures all { ranged (ByPlace (pos 0) (neg_ℤ (pos 1))) four ≡ four }
    ensures last { ranged (ByPlace (neg_ℤ (pos 2)) (neg_ℤ (pos 1))) four
        ≡ (pos 2, c) ∷ (pos 5, d) ∷ [] }
    ensures past { ranged (ByPlace (pos 3) (pos 9)) four ≡ (pos 5, d) ∷ [] }
    ensures none { ranged (ByPlace (pos 2) (pos 1)) four ≡ [] }
    ensures within { ranged (ByScore from_two up_to_five None) four
        ≡ (pos 2, b) ∷ (pos 2, c) ∷ (pos 5, d) ∷ [] }
    ensures out { ranged (ByScore over_two up_to_five None) four ≡ (pos 5, d) ∷ [] }
    ensures window { ranged
        (ByScore from_two up_to_five (Some (record { offset = pos 1; count = pos 1 }))) four
        ≡ (pos 2, c) ∷ [] }
    ensures rest { ranged
        (ByScore from_two up_to_five (Some (record { offset = pos 1; count = neg_ℤ (pos 1) }))) four
        ≡ (pos 2, c) ∷ (pos 5, d) ∷ [] }
    ensures negative { ranged
        (ByScore from_two up_to_five (Some (record { offset = neg_ℤ (pos 1); count = pos 5 }))) four
        ≡ [] }
    ensures reversed { ranged (ByPlace (pos 0) (pos 1)) (reverse four)
        ≡ (pos 5, d) ∷ (pos 2, c) ∷ [] }
{}
