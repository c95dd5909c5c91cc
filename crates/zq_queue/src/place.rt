//! `Place`.

ghost use Rattle.std.specs.Prelude.{false, true, ◌≡◌};
ghost use Rattle.zq_queue.specs.Place.{index_of, is_many};

use zq_posheap::Place as HeapPlace;

/// Where a member is among those of a key, in the form that these have. It is good until a member
/// is added or removed.
#[derive(Clone, Copy)]
pub(crate) enum Place {
    Few(usize),
    Many(HeapPlace),
}

impl Place {
    /// The place in a list.
    pub(crate) fn few(self) -> usize
        requires { is_many self ≡ false }
        ensures { result ≡ index_of self }
    {
        match self {
            Place::Few(index) => index,
            Place::Many(_) => unreachable!(),
        }
    }

    /// The place in the large form.
    pub(crate) fn many(self) -> HeapPlace
        requires { is_many self ≡ true }
        ensures { result.index ≡ index_of self }
    {
        match self {
            Place::Few(_) => unreachable!(),
            Place::Many(place) => place,
        }
    }
}
