//! What merging does, by example. Two sites act on members of a key that lie in two heaps.
//! Each row is told twice: of the sites 0 and 1, and of the sites 7 and 63.

ghost use Rattle.std.specs.Prelude.{[], neg_ℤ, pos, ◌∷◌, ◌≡◌};
ghost use Rattle.zq_model.specs.Examples.{AreMade, far, near, put_a, put_y};
ghost use Rattle.zq_model.specs.Image.{image_of, join};
ghost use Rattle.zq_model.specs.Rule.{Greatest, Least};
ghost use Rattle.zq_model.specs.Sets.{Early, Known, New, taken_of, vector_of};
ghost use Rattle.zq_model.specs.Cases.{AreInTurn, Holds, bumps, drop_and_bump, drop_and_put, greatest_bumps, puts_apart, second_drops, second_puts, two_drops};

/// Each operation of the examples is what its site makes over what it has.
pub fn operations_are_made()
    ensures of_near { AreMade near }
    ensures of_far { AreMade far }
{}

/// Two sites share x at 10. One adds 5, the other 7. After they meet x is at 22.
pub fn bumps_add_up()
    ensures greatest { Holds Greatest bumps }
    ensures least { Holds Least bumps }
{}

/// Two sites share x at 3. The second puts it at 2, or at 4. That is where x is at both after they
/// meet, whichever score the rule prefers: a Put takes away what its site had seen, also Puts of
/// other sites.
pub fn a_put_replaces_what_it_had_seen()
    ensures greatest { Holds Greatest second_puts }
    ensures least { Holds Least second_puts }
{}

/// Two sites share x at 3. The second, which has not put it, drops it. After they meet it is gone.
pub fn a_drop_takes_what_it_had_seen()
    ensures greatest { Holds Greatest second_drops }
    ensures least { Holds Least second_drops }
{}

/// Two sites share x at 3. One drops it, the other puts it at 4. The Put, which the Drop had not
/// seen, stands after they meet.
pub fn drop_spares_an_unseen_put()
    ensures greatest { Holds Greatest drop_and_put }
    ensures least { Holds Least drop_and_put }
{}

/// Two sites share x at 3. One drops it, the other adds 7. The Bump goes with the Put that it added
/// to.
pub fn drop_takes_a_bump_along()
    ensures greatest { Holds Greatest drop_and_bump }
    ensures least { Holds Least drop_and_bump }
{}

/// Two sites put x apart, at 5 and at 9. After they meet the rule says which of the two counts: 9
/// by the greatest, 5 by the least. One of them then adds -6 to both Puts, and after they meet
/// again x is at 3, or at -1.
pub fn the_rule_chooses_between_puts()
    ensures greatest { Holds Greatest (puts_apart (pos 9) (pos 3)) }
    ensures least { Holds Least (puts_apart (pos 5) (neg_ℤ (pos 1))) }
{}

/// One site puts a and then y. A site that has nothing is handed y's Put too early, then a's, then
/// y's again, and has both. Where it merges the image first, it knows both.
pub fn operations_come_in_turn()
    ensures early { taken_of (vector_of [] 0) (put_y near) ≡ Early }
    ensures new { taken_of (vector_of [] 0) (put_a near) ≡ New }
    ensures new_then { taken_of (vector_of (put_a near ∷ []) 0) (put_y near) ≡ New }
    ensures known { taken_of
        (join (image_of [] 0) (image_of (put_y near ∷ put_a near ∷ []) 0)).vector (put_a near)
        ≡ Known }
    ensures known_then { taken_of
        (join (image_of [] 0) (image_of (put_y near ∷ put_a near ∷ []) 0)).vector (put_y near)
        ≡ Known }
    ensures far_early { taken_of (vector_of [] 0) (put_y far) ≡ Early }
    ensures far_new_then { taken_of (vector_of (put_a far ∷ []) 0) (put_y far) ≡ New }
    ensures greatest { AreInTurn Greatest near }
    ensures least { AreInTurn Least far }
{}

/// Two sites share x at 0, and each adds the greatest increment. After they meet x is at twice the
/// greatest score, and one of them can take half of it back.
pub fn sums_pass_the_greatest_score()
    ensures greatest { Holds Greatest greatest_bumps }
    ensures least { Holds Least greatest_bumps }
{}

/// Two sites share x at 1, and both drop it. After they meet it is gone.
pub fn both_drop()
    ensures greatest { Holds Greatest two_drops }
    ensures least { Holds Least two_drops }
{}
