//! What merging makes of the images that the sites of a world have or had.

ghost use Rattle.std.specs.Prelude.{List, true, ℕ, ◌++◌, ◌≡◌};
ghost use Rattle.zq_model.specs.Image.{image_of, join};
ghost use Rattle.zq_model.specs.Rule.{Rule};
ghost use Rattle.zq_model.specs.Sets.{covers};
ghost use Rattle.zq_semantics.specs.Events.{Event, set_at};
ghost use Rattle.zq_semantics.specs.Runs.{IsPlayable, run};

/// The join of images that any sites had at any moments is the image of what they had together, so
/// it loses no operation. It is commutative, associative and idempotent, and its vector covers
/// both.
pub fn meeting()
    ensures union { (rule : Rule) (K sites : ℕ) (events : List Event) →
        IsPlayable rule K sites events → (i site j other heap : ℕ) →
        join (image_of (set_at (run rule K events) i site) heap)
        (image_of (set_at (run rule K events) j other) heap)
        ≡ image_of (set_at (run rule K events) i site ++ set_at (run rule K events) j other) heap }
    ensures commutes { (rule : Rule) (K sites : ℕ) (events : List Event) →
        IsPlayable rule K sites events → (i site j other heap : ℕ) →
        join (image_of (set_at (run rule K events) i site) heap)
        (image_of (set_at (run rule K events) j other) heap)
        ≡ join (image_of (set_at (run rule K events) j other) heap)
        (image_of (set_at (run rule K events) i site) heap) }
    ensures groups { (rule : Rule) (K sites : ℕ) (events : List Event) →
        IsPlayable rule K sites events → (i site j other k third heap : ℕ) →
        join (join (image_of (set_at (run rule K events) i site) heap)
        (image_of (set_at (run rule K events) j other) heap))
        (image_of (set_at (run rule K events) k third) heap)
        ≡ join (image_of (set_at (run rule K events) i site) heap)
        (join (image_of (set_at (run rule K events) j other) heap)
        (image_of (set_at (run rule K events) k third) heap)) }
    ensures once { (rule : Rule) (K sites : ℕ) (events : List Event) →
        IsPlayable rule K sites events → (moment site heap : ℕ) →
        join (image_of (set_at (run rule K events) moment site) heap)
        (image_of (set_at (run rule K events) moment site) heap)
        ≡ image_of (set_at (run rule K events) moment site) heap }
    ensures covers_first { (rule : Rule) (K sites : ℕ) (events : List Event) →
        IsPlayable rule K sites events → (i site j other heap : ℕ) →
        covers (join (image_of (set_at (run rule K events) i site) heap)
        (image_of (set_at (run rule K events) j other) heap)).vector
        (image_of (set_at (run rule K events) i site) heap).vector ≡ true }
    ensures covers_second { (rule : Rule) (K sites : ℕ) (events : List Event) →
        IsPlayable rule K sites events → (i site j other heap : ℕ) →
        covers (join (image_of (set_at (run rule K events) i site) heap)
        (image_of (set_at (run rule K events) j other) heap)).vector
        (image_of (set_at (run rule K events) j other) heap).vector ≡ true }
{}
