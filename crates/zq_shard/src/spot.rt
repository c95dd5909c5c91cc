//! `Spot`.

ghost use Rattle.std.specs.Prelude.{IsTrue, ◌-◌, ◌^◌, ◌↔◌, ◌≡◌};
ghost use Rattle.zq_shard.specs.Standing.{IsEnd};

/// Where a walk over the members of a heap is. Keys are numbered from 0, and so are the members of
/// each. What is left at a spot are all members of the keys below its key, and those of its key
/// below its member.
#[derive(Clone, Copy, Debug, PartialEq, Eq)]
pub struct Spot {
    /// The number of a key, or one past all.
    pub key: usize,
    /// The number of a member of that key, or one past all.
    pub member: usize,
}

impl Spot {
    /// Above all members, where a walk begins.
    pub fn start() -> Spot
        ensures key { result.key ≡ 2 ^ 64 - 1 }
        ensures member { result.member ≡ 0 }
    {
        Spot {
            key: usize::MAX,
            member: 0,
        }
    }

    /// Below all members, where it ends.
    pub fn end() -> Spot
        ensures { IsEnd result }
    {
        Spot { key: 0, member: 0 }
    }

    /// Whether nothing is left.
    pub fn is_end(self) -> bool
        ensures { IsTrue result ↔ IsEnd self }
    {
        self.key == 0 && self.member == 0
    }
}
