//! What the sites of a world gather.

ghost use Rattle.std.specs.Prelude.{List, length, take, ℕ, ◌++◌, ◌≡◌, ◌≤◌};
ghost use Rattle.zq_model.specs.Bounded.{HasShortNames};
ghost use Rattle.zq_model.specs.Operation.{Operation};
ghost use Rattle.zq_model.specs.Rule.{Rule};
ghost use Rattle.zq_model.specs.Sets.{AreSame, IsClosed, IsIn, IsWorld, vector_of};
ghost use Rattle.zq_semantics.specs.Events.{Event, set_at};
ghost use Rattle.zq_semantics.specs.Runs.{IsPlayable, known_by, run};

/// In every run all operations that are made are of one world, and their names are short. What a
/// site has at any moment lies among them and is closed. A site has what it made itself, and what
/// it has it keeps.
pub fn gathering()
    ensures world { (rule : Rule) (K sites : ℕ) (events : List Event) →
        IsPlayable rule K sites events → IsWorld K (run rule K events).now.made }
    ensures short { (rule : Rule) (K sites : ℕ) (events : List Event) →
        IsPlayable rule K sites events → (o : Operation) →
        IsIn o (run rule K events).now.made → HasShortNames o }
    ensures within { (rule : Rule) (K sites : ℕ) (events : List Event) →
        IsPlayable rule K sites events → (moment site : ℕ) (o : Operation) →
        IsIn o (set_at (run rule K events) moment site) → IsIn o (run rule K events).now.made }
    ensures closed { (rule : Rule) (K sites : ℕ) (events : List Event) →
        IsPlayable rule K sites events → (moment site : ℕ) →
        IsClosed (set_at (run rule K events) moment site) }
    ensures own { (rule : Rule) (K sites : ℕ) (events : List Event) →
        IsPlayable rule K sites events → (o : Operation) →
        IsIn o (run rule K events).now.made → IsIn o ((run rule K events).now.sets o.site) }
    ensures stays { (rule : Rule) (K : ℕ) (events more : List Event) (site : ℕ) (o : Operation) →
        IsIn o ((run rule K events).now.sets site) →
        IsIn o ((run rule K (events ++ more)).now.sets site) }
{}

/// What a site had after a number of events is what it has where these are all. What it has is what
/// its vectors, one for each heap, say of the operations that were made.
pub fn telling()
    ensures moments { (rule : Rule) (K : ℕ) (events : List Event) (moment site : ℕ) →
        moment ≤ length events →
        set_at (run rule K events) moment site ≡ (run rule K (take moment events)).now.sets site }
    ensures known { (rule : Rule) (K sites : ℕ) (events : List Event) →
        IsPlayable rule K sites events → (site : ℕ) →
        AreSame (known_by (vector_of ((run rule K events).now.sets site))
        (run rule K events).now.made) ((run rule K events).now.sets site) }
{}
