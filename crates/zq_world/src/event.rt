//! Events of a world.

use zq_resp::Request;

/// An event of a world. Sites and heaps are numbered from 0.
#[derive(Debug, Drop)]
pub enum Event {
    /// A site is asked a request. ZPOPNEAR draws its heaps by the two words.
    Do {
        site: u8,
        request: Request,
        w1: u64,
        w2: u64,
    },
    /// A site is handed an operation, by its place among those that were made so far.
    Take {
        site: u8,
        op: usize,
    },
    /// A site merges the image of a heap that another had after this number of events.
    Merge {
        site: u8,
        from: u8,
        heap: u8,
        moment: usize,
    },
}
