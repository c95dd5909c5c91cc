//! When a worker has nothing more to do.

ghost use Rattle.std.specs.Prelude.{◌≡◌};
ghost use Rattle.zq_loop.specs.Ending.{is_done};

/// Whether a worker ends: where its port is cut whatever is left, and else where all connections
/// have come and none is left.
pub fn is_done(is_cut: bool, has_all: bool, is_left: bool) -> bool
    ensures { result ≡ is_done is_cut has_all is_left }
{
    is_cut || has_all && !is_left
}
