//! How a log is given what a heap has made, two operations at a time. With key q and 2 heaps the
//! member a lies in heap 0, and its operation number n puts it at n.
ghost use Rattle.std.specs.Prelude.{◌≡◌, ◌<◌, length};
ghost use Rattle.zq_model.specs.Rule.{Greatest};
ghost use Rattle.zq_spread.specs.Passes.{IsPassOf};

use super::cutting::{peer, put};
use super::last_values::opened_over;
use std::alloc::Global;
use std::process::Abort;
use std::sync::Wait;
use std::test::Fail;
use zq_dots::Op;
use zq_journal::{Book, Since, TailLimits};
use zq_shard::Shard;
use zq_spread::{Pass, Site};

/// A book of heap 0 of which a tail of four records is long, and two are left of it.
fn limited(alloc: Global) -> Book
    ensures { (result.heap ≡ 0) × (result.heaps ≡ 2) × (result.rule ≡ Greatest) }
{
    let mut book = Book::new(alloc, Shard::new(alloc, 0, 2));
    book.set_limits(TailLimits {
        long: 4,
        kept: 2,
        bytes: None,
    });
    book
}

/// What a log is given: the numbers of at most two operations, where 0 stands for none.
#[derive(Clone, Copy, PartialEq, Eq, Debug)]
enum Piece {
    TooOld,
    Ops([u64; 2]),
}

/// The scores from the first up to the second, without it, at which the member is put; how many
/// operations the log has, and what it is given; how many steps the pass has made by then.
type Row = ((u64, u64), u64, Piece, u64);

const ROWS: [Row; 6] = [
    ((1, 4), 0, Piece::Ops([1, 2]), 4),
    // What was not given is not cut off, though the tail is long.
    ((4, 7), 2, Piece::Ops([3, 4]), 8),
    ((7, 7), 4, Piece::Ops([5, 6]), 9),
    ((7, 7), 6, Piece::Ops([0, 0]), 10),
    // The book knows that all was given.
    ((7, 7), 6, Piece::Ops([0, 0]), 10),
    // What was given was cut off.
    ((7, 7), 2, Piece::TooOld, 10),
];

/// The number of the operation at this place, and 0 where there is none.
fn number_at(ops: &[Op], place: usize) -> u64 {
    match ops.get(place) {
        Some(op) => op.dot().n,
        None => 0,
    }
}

/// What a log is given of heap 0 that has so many operations of site 0.
fn drained<R: Wait>(
    rt: &R,
    alloc: Global,
    site: &Site,
    pass: &mut Pass,
    operations: u64,
) -> Option<Piece>
    requires heaps { 0 < length site.now.slots.items }
    requires pass { IsPassOf site.now pass.old }
    ensures pass { IsPassOf site.now pass.new }
{
    let vector = peer(operations)?;
    match site.drain(rt, alloc, pass, 0, &vector, 2).ok()? {
        Since::TooOld => Some(Piece::TooOld),
        Since::Ops(ops) => Some(Piece::Ops([number_at(&ops, 0), number_at(&ops, 1)])),
    }
}

/// Puts the member at each of these scores.
fn put_each<R: Wait + Abort>(
    rt: &R,
    alloc: Global,
    site: &Site,
    pass: &mut Pass,
    scores: (u64, u64),
)
    requires { IsPassOf site.now pass.old }
    ensures { IsPassOf site.now pass.new }
{
    for score in scores.0..scores.1 {
        let answer = put(rt, alloc, site, pass, score);
        assert!(rt; answer.is_some(), "score {score}");
    }
}

/// Does what each row says, and looks at what the log is given.
fn follow_rows<R: Wait + Abort>(rt: &R, alloc: Global, site: &Site, pass: &mut Pass)
    requires heaps { 0 < length site.now.slots.items }
    requires pass { IsPassOf site.now pass.old }
    ensures pass { IsPassOf site.now pass.new }
{
    for (scores, operations, piece, steps) in &ROWS {
        put_each(rt, alloc, site, pass, *scores);
        let found = drained(rt, alloc, site, pass, *operations);
        assert!(rt;
            found == Some(*piece) && pass.steps(0) == *steps,
            "{operations} operations"
        );
    }
}

#[test]
fn a_heap_is_drained_in_pieces(rt: HostRuntime) -> Result<(), Fail> {
    let alloc = rt.alloc();
    let (site, mut pass, _) = opened_over(alloc, 0, limited(alloc)).ok_or("memory")?;
    follow_rows(&rt, alloc, &site, &mut pass);
    Ok(())
}
