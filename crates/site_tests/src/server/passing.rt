//! A server of a site, by the bytes that it answers.

ghost use Rattle.std.specs.Prelude.{All, IfOk};
ghost use Rattle.zq_spread.specs.Passes.{IsPassOf};

use super::asking::answered;
use std::alloc::Global;
use std::sync::Wait;
use std::test::Fail;
use zq_dots::SiteNo;
use zq_session::{Passing, SitePass};
use zq_spread::{Draws, Pass, Site};

/// Site 0 of two heaps, with so many passes.
pub fn opened(alloc: Global, passes: usize) -> Result<(Site, Vec<Pass>), Fail>
    ensures { IfOk result (λ made. All (IsPassOf made.0) made.1.items) }
{
    let number = SiteNo::new(0).ok_or("a site")?;
    match Site::new(alloc, number, 2, passes) {
        Ok(made) => Ok(made),
        Err(_) => Err(Fail::from("no site")),
    }
}

const ADD: &[u8] = b"*4\r\n$4\r\nZADD\r\n$1\r\nq\r\n$1\r\n3\r\n$1\r\na\r\n";

const ASK: &[u8] = b"*3\r\n$6\r\nZSCORE\r\n$1\r\nq\r\n$1\r\na\r\n";

/// What two passes of a site answer, each to one of the requests, in their order.
fn answered_by_two<R: Wait>(rt: &R, alloc: Global, requests: [&[u8]; 2]) -> Result<Vec<u8>, Fail> {
    let (site, passes) = opened(alloc, 2)?;
    let mut all = Vec::new(alloc);
    let mut rest = requests.as_slice();
    for pass in passes {
        let [request, others @ ..] = rest else {
            break;
        };
        let mut own = SitePass::new(&site, pass);
        let mut server = Passing::new(rt, &mut own, Draws::new(1));
        all.extend_from_slice(&answered(alloc, &mut server, request)?)?;
        rest = others;
    }
    Ok(all)
}

#[test]
fn what_one_pass_writes_another_reads(rt: HostRuntime) -> Result<(), Fail> {
    let written = answered_by_two(&rt, rt.alloc(), [ADD, ASK])?;
    assert_eq!(rt; written.as_slice(), b":1\r\n$1\r\n3\r\n".as_slice());
    Ok(())
}
