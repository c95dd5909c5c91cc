//! Sites and their passes.

mod asking;
mod commands;
mod crowd;
mod cutting;
mod draining;
mod exchanging;
mod holding;
mod last_values;
mod portions;
mod taking;
mod taking_all;

ghost use Rattle.std.specs.Prelude.{◌≡◌, All, IfOk, IfSome, length};
ghost use Rattle.zq_spread.specs.Companies.{AreAllPasses};
ghost use Rattle.zq_spread.specs.Passes.{IsPassOf};

use std::alloc::Global;
use std::test::Fail;
use taking::{operations, steps_in, take_at_last, take_in_crowd, two_take};
use zq_dots::SiteNo;
use zq_journal::TakeFault;
use zq_shard::Taken;
use zq_spread::{Pass, Site, SiteFault};

/// The last two of a site's passes.
fn two_of(_site: &Site, passes: Vec<Pass>) -> Option<(Pass, Pass)>
    requires { All (IsPassOf _site.now) passes.items }
    ensures first { IfSome result (λ both. IsPassOf _site.now both.0) }
    ensures second { IfSome result (λ both. IsPassOf _site.now both.1) }
{
    let mut rest = passes;
    let second = rest.pop()?;
    let first = rest.pop()?;
    Some((first, second))
}

/// A site of this number and so many heaps, with two passes.
fn opened(alloc: Global, number: u8, heaps: u8) -> Option<(Site, Pass, Pass)>
    ensures heaps { IfSome result (λ made. length made.0.slots.items ≡ heaps) }
    ensures first { IfSome result (λ made. IsPassOf made.0 made.1) }
    ensures second { IfSome result (λ made. IsPassOf made.0 made.2) }
{
    let number = SiteNo::new(number)?;
    let Ok((site, passes)) = Site::new(alloc, number, heaps, 2) else {
        return None;
    };
    let (first, second) = two_of(&site, passes)?;
    Some((site, first, second))
}

/// Site 0 of two heaps, with so many passes.
fn opened_for(alloc: Global, passes: usize) -> Result<(Site, Vec<Pass>), Fail>
    ensures heaps { IfOk result (λ made. length made.0.slots.items ≡ 2) }
    ensures all { IfOk result (λ made. AreAllPasses made.0 made.1.items) }
    ensures number { IfOk result (λ made. length made.1.items ≡ passes) }
{
    let number = SiteNo::new(0).ok_or("a site")?;
    match Site::new(alloc, number, 2, passes) {
        Ok(made) => Ok(made),
        Err(_) => Err(Fail::from("no site")),
    }
}

/// Why a site of so many heaps and passes is not made.
fn fault_of(alloc: Global, heaps: u8, passes: usize) -> Result<Option<SiteFault>, Fail> {
    let number = SiteNo::new(63).ok_or("a site")?;
    match Site::new(alloc, number, heaps, passes) {
        Ok(_) => Ok(None),
        Err(fault) => Ok(Some(fault)),
    }
}

#[test]
fn a_site_has_2_to_16_heaps_and_1_to_128_passes(rt: HostRuntime) -> Result<(), Fail> {
    let bounds = Some(SiteFault::Bounds);
    for (heaps, passes, fault) in [
        (1u8, 1usize, bounds),
        (17, 1, bounds),
        (2, 0, bounds),
        (2, 129, bounds),
        (2, 128, None),
        (16, 1, None),
    ] {
        assert_eq!(rt;
            fault_of(rt.alloc(), heaps, passes)?,
            fault,
            "{heaps} heaps, {passes} passes"
        );
    }
    Ok(())
}

#[test]
fn threads_take_what_another_site_made(rt: HostRuntime) -> Result<(), Fail> {
    for (threads, rounds) in [(2usize, 200u32), (48, 50)] {
        let ops = operations(rt.alloc(), i64::from(rounds))?;
        let (site, mut passes) = opened_for(rt.alloc(), threads)?;
        take_in_crowd(&rt, rt.alloc(), &site, passes.as_mut_slice(), &ops);
        for heap in 0..2u8 {
            assert_eq!(rt;
                steps_in(&passes, heap),
                u64::from(rounds),
                "{threads} threads, heap {heap}"
            );
        }
    }
    Ok(())
}

#[test]
fn passes_meet(rt: HostRuntime) -> Result<(), Fail> {
    let ops = operations(rt.alloc(), 7)?;
    let (site, mut passes) = opened_for(rt.alloc(), 2)?;
    let last = two_take(&rt, rt.alloc(), &site, passes.as_mut_slice(), &ops)?;
    assert_eq!(rt; last, [7, 7]);
    Ok(())
}

#[test]
fn a_heap_at_its_last_stamp_is_worn(rt: HostRuntime) -> Result<(), Fail> {
    let taken = take_at_last(&rt, rt.alloc())?;
    assert_eq!(rt; taken, [Err(TakeFault::Worn), Ok(Taken::New)]);
    Ok(())
}
