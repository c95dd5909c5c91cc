//! Which heaps are adopted, and by whom.

ghost use Rattle.std.specs.Prelude.{IfOk, ◌<◌, ◌≡◌};

use crate::judging::{Unfit, judge};
use std::alloc::Global;
use std::process::Abort;
use std::test::Fail;
use zq_dots::{Act, Rule, Score, SiteNo};
use zq_keeper::Reader;
use zq_posheap::Seeded;
use zq_recovery::Identity;
use zq_shard::Shard;
use zq_stage::Stage;

/// A site of this number with two heaps.
fn identity(number: u8) -> Result<Identity, Fail>
    ensures { IfOk result (λ identity. identity.heaps ≡ 2) }
{
    let site = SiteNo::new(number).ok_or("a site")?;
    Ok(Identity {
        site,
        heaps: 2,
        rule: Rule::Low,
    })
}

/// A heap in which this site has added a member, and removed it.
fn heap_at(alloc: Global, site: SiteNo, heap: u8) -> Result<Shard, Fail>
    requires { heap < 2 }
{
    let mut shard = Shard::new_ruled(alloc, heap, 2, Rule::Low, Seeded::new(1));
    let score = Score::new(1).ok_or("a score")?;
    let _ = shard.make(alloc, site, b"q", b"gone", Act::Put(score));
    let _ = shard.make(alloc, site, b"q", b"gone", Act::Drop);
    Ok(shard)
}

/// The heaps of such a site, as they are read.
fn stages_at(alloc: Global, site: SiteNo) -> Result<Vec<Stage>, Fail> {
    let mut stages = Vec::new(alloc);
    for heap in 0..2 {
        let shard = heap_at(alloc, site, heap)?;
        stages.push(Stage::new(0, shard, true))?;
    }
    Ok(stages)
}

/// Why the heaps of a log of the site 0, which have operations of the site 3 alone, are not adopted by
/// a site; the last of them has all of its pieces, or has not.
fn why(alloc: Global, is_whole: bool, number: u8) -> Result<Option<Unfit>, Fail> {
    let mut stages = stages_at(alloc, identity(3)?.site)?;
    if !is_whole {
        stages.push(Stage::new(0, heap_at(alloc, identity(3)?.site, 0)?, false))?;
    }
    let mut reader = Reader::new(alloc, identity(0)?, Seeded::new(1))?;
    reader.recovery.stages = stages;
    match judge(&reader, identity(number)?.site) {
        Ok(()) => Ok(None),
        Err(why) => Ok(Some(why)),
    }
}

#[test]
fn heaps_are_adopted_under_a_number_that_they_do_not_know(rt: HostRuntime) -> Result<(), Fail> {
    let rows = [
        (true, 5, None),
        (true, 63, None),
        (true, 0, Some(Unfit::OwnNumber)),
        (true, 3, Some(Unfit::UsedNumber)),
        (false, 5, Some(Unfit::NotWhole)),
        (false, 0, Some(Unfit::NotWhole)),
    ];
    for (is_whole, number, wanted) in rows {
        assert_eq!(rt; why(rt.alloc(), is_whole, number)?, wanted);
    }
    Ok(())
}
