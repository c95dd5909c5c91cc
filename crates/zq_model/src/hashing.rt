//! Where members lie.

ghost use Rattle.std.specs.Prelude.{[], map, ◌∷◌, ◌≡◌};
ghost use Rattle.zq_model.specs.Heaps.{fnv1a64, heap_of};

/// The hash and the heaps of some members, by numbers known from outside. The key `pq` with the
/// member `a`, and the key `p` with the member `qa`, differ in nothing but the key's length.
#[tactic(auto, unfolding(crate::specs::Heaps::fnv1a64, crate::specs::Heaps::heap_of))]
pub fn placing()
    ensures nothing { fnv1a64 [] ≡ 14695981039346656037 }
    ensures letter_a { fnv1a64 (97 ∷ []) ≡ 12638187200555641996 }
    ensures of_two { map (λ m. heap_of (113 ∷ []) (m ∷ []) 2)
        (97 ∷ 99 ∷ 121 ∷ 109 ∷ 98 ∷ 100 ∷ 120 ∷ []) ≡ 0 ∷ 0 ∷ 0 ∷ 0 ∷ 1 ∷ 1 ∷ 1 ∷ [] }
    ensures of_three { map (λ m. heap_of (113 ∷ []) (m ∷ []) 3) (97 ∷ 98 ∷ 99 ∷ 100 ∷ [])
        ≡ 1 ∷ 1 ∷ 0 ∷ 0 ∷ [] }
    ensures of_four { map (λ m. heap_of (113 ∷ []) (m ∷ []) 4) (97 ∷ 98 ∷ 99 ∷ 100 ∷ [])
        ≡ 0 ∷ 1 ∷ 2 ∷ 3 ∷ [] }
    ensures longer_key { heap_of (112 ∷ 113 ∷ []) (97 ∷ []) 15 ≡ 9 }
    ensures longer_member { heap_of (112 ∷ []) (113 ∷ 97 ∷ []) 15 ≡ 7 }
{}
