//! What a keeper refuses, and that it goes on as it was.

use crate::crashes::play_on;
use crate::live::Live;
use crate::playing::keeper_of;
use std::fmt::Write;
use std::test::Fail;

/// A script, why its last step is refused, and how it goes on then.
const REFUSED: &str = "\
r | Refused(NoStart) | b1r
t | Refused(NoStart) | b1r
s | Refused(NoStart) | b1r
bb | Refused(OldStart) | 1r
br | Refused(Entry(Field(1))) | 1r
bp | NoSwitch | 1r
f | Refused(NoStart) | b1r
b1rf | NoSwitch | 1r
b1rsxxxxxxf | NoSwitch | 1r
b13rsx1x | Refused(Piece(WrongVector)) | r
b1rsp | Refused(NotWhole) | xxxxxxxx1r
b1rsxp | Refused(NotWhole) | xxxxxxxx1r";

#[test]
fn a_refused_call_leaves_the_keeper_as_it_was(rt: HostRuntime) -> Result<(), Fail> {
    for row in REFUSED.lines() {
        let (script, rest) = row.split_once(" | ").ok_or("a script")?;
        let (expected, more) = rest.split_once(" | ").ok_or("a fault")?;
        let mut live = Live::new(rt.alloc())?;
        let keeper = keeper_of(rt.alloc(), &[], u64::MAX)?;
        let (keeper, fault, _) = play_on(rt.alloc(), keeper, &mut live, script)?;
        let mut told = String::new(rt.alloc());
        write!(told, "{:?}", fault.ok_or("a fault")?)?;
        assert_eq!(rt; told.as_str(), expected, "{script}");
        let (_, fault, _) = play_on(rt.alloc(), keeper, &mut live, more)?;
        assert!(rt; fault.is_none(), "{script}: {fault:?}");
    }
    Ok(())
}
