//! The heaps that a command works in.

ghost use Rattle.std.specs.Prelude.{◌≡◌, ◌≤◌, length};
ghost use Rattle.zq_words.specs.Heaps as heap;
ghost use Rattle.zq_words.specs.Limits.{IsWithinLimits};
ghost use Rattle.zq_words.specs.Shown.{shown};

use crate::kind::Kind;
use zq_dots::heap_of;

/// The heaps that a command works in.
#[derive(Clone, Copy, Debug, PartialEq, Eq)]
pub enum Heaps {
    NoHeap,
    /// The heap of its one member.
    One(u8),
    /// Two heaps that are drawn.
    Near,
    All,
}

/// The heaps of a command, of this number of heaps.
pub fn heaps_of(kind: &Kind, heaps: u8) -> Heaps
    requires heaps { (1 ≤ heaps) × (heaps ≤ 16) }
    requires limits { IsWithinLimits (shown kind.now) }
    ensures { result ≡ heap.heaps_of (shown kind.now) heaps }
{
    match kind {
        Kind::Ping(_) => Heaps::NoHeap,
        Kind::Zadd { key, pairs, .. } => match pairs.as_slice() {
            [pair] => Heaps::One(heap_of(key, pair.member, heaps)),
            _ => Heaps::All,
        },
        Kind::ZaddIncr { key, pair, .. } | Kind::Zincrby { key, pair } => {
            Heaps::One(heap_of(key, pair.member, heaps))
        }
        Kind::Zrem { key, members } => match members {
            [member] => Heaps::One(heap_of(key, member, heaps)),
            _ => Heaps::All,
        },
        Kind::Zscore { key, member } => Heaps::One(heap_of(key, member, heaps)),
        Kind::Zpopnear { .. } => Heaps::Near,
        Kind::Zcard { .. }
        | Kind::Zcount { .. }
        | Kind::Zrank { .. }
        | Kind::Zrevrank { .. }
        | Kind::Zrange { .. }
        | Kind::Zpopmin { .. }
        | Kind::Del { .. } => Heaps::All,
    }
}
