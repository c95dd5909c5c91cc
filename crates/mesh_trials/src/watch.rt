//! What is watched of a link in one direction.

use crate::marks::Marks;
use crate::news::{News, Told};
use crate::wrong::Wrong;
use mesh_sites::HEAPS;
use zq_dots::{Dot, Vector};

/// What went over a link in one direction, and what its sender has heard of the receiver there.
#[derive(Clone, Copy, Debug)]
pub struct Watch {
    heaps: [HeapWatch; HEAPS as usize],
    /// Whether an operation may go twice, as frames are lost.
    is_hostile: bool,
}

/// The same of a heap.
#[derive(Clone, Copy, Debug)]
struct HeapWatch {
    /// The last operations that went of each site, since the receiver opened the heap.
    last: Marks,
    /// The last ones that ever went, or that the receiver was heard to have.
    known: Marks,
    /// Whether the receiver takes none, or is given the whole heap.
    is_shut: bool,
}

impl Watch {
    /// Nothing went over a link that is hostile or not.
    pub fn new(is_hostile: bool) -> Watch {
        let heap = HeapWatch {
            last: Marks::none(),
            known: Marks::none(),
            is_shut: true,
        };
        Watch {
            heaps: [heap; HEAPS as usize],
            is_hostile,
        }
    }

    /// A frame goes. Of each site no operation is left out after the last one that went, or that
    /// the receiver was heard to have; and none goes twice, but where frames are lost.
    pub fn send(&mut self, news: &News) -> Result<(), Wrong> {
        match news {
            News::Ops { heap, dots } => self.send_all(*heap, dots),
            News::Heap(heap) => {
                if let Some(watch) = self.heaps.get_mut(usize::from(*heap)) {
                    watch.is_shut = true;
                }
                Ok(())
            }
            News::Piece { heap, vector } => {
                if let Some(watch) = self.heaps.get_mut(usize::from(*heap)) {
                    watch.give(vector);
                }
                Ok(())
            }
            News::At(_) | News::Rest { .. } | News::Other => Ok(()),
        }
    }

    /// Operations of a heap go.
    fn send_all(&mut self, heap: u8, dots: &[Dot]) -> Result<(), Wrong> {
        let is_hostile = self.is_hostile;
        let Some(watch) = self.heaps.get_mut(usize::from(heap)) else {
            return Err(Wrong::NoPlace);
        };
        for dot in dots {
            watch.send(*dot, is_hostile)?;
        }
        Ok(())
    }

    /// The sender hears a frame of the receiver.
    pub fn hear(&mut self, news: &News) {
        match news {
            News::Ops { heap, dots } => {
                if let Some(watch) = self.heaps.get_mut(usize::from(*heap)) {
                    for dot in dots {
                        watch.known.raise(dot.site, dot.n);
                    }
                }
            }
            News::At(told) => {
                if let Some(watch) = self.heaps.get_mut(usize::from(told.heap)) {
                    watch.hear(told);
                }
            }
            News::Rest { heap, vector } => {
                if let Some(watch) = self.heaps.get_mut(usize::from(*heap)) {
                    watch.known.raise_all(vector);
                }
            }
            News::Heap(_) | News::Piece { .. } | News::Other => {}
        }
    }
}

impl HeapWatch {
    /// An operation goes.
    fn send(&mut self, dot: Dot, is_hostile: bool) -> Result<(), Wrong> {
        if dot.n.saturating_sub(1) > self.known.get(dot.site) {
            return Err(Wrong::Gap(dot));
        }
        if dot.n <= self.last.get(dot.site) && !is_hostile {
            return Err(Wrong::Twice(dot));
        }
        self.last.raise(dot.site, dot.n);
        self.known.raise(dot.site, dot.n);
        Ok(())
    }

    /// A piece goes: the receiver has what the sender had of the heap, as soon as all came. In a
    /// stream operations go that may have gone before.
    fn give(&mut self, vector: &Vector) {
        self.known.raise_all(vector);
        self.last = Marks::none();
        self.is_shut = true;
    }

    /// The sender hears what the receiver has. Where the heap is opened again, or the receiver has
    /// parked what came early and does not say so, operations may go once more.
    fn hear(&mut self, told: &Told) {
        self.known.raise_all(&told.vector);
        if (self.is_shut && told.is_open) || told.has_parked {
            self.last = Marks::none();
        }
        self.is_shut = !told.is_open;
    }
}
