//! Site 1 hears what others say in the new form. The tags were made by another program.

use crate::greeting_side::{KEY, NONCE_1, new_side, old_side, side_in, site};
use std::alloc::{AllocError, Global};
use std::io;
use std::io::Read;
use std::test::Fail;
use zq_wire::{
    Form, MOST_HEAPS, Opened, Opening, Refusal, Run, Secret, Side, Unopened, VERSIONS, Versions,
    accept_over, dial_over, hear_opening, write_greeting,
};

// What site 1 greets with.
const GREETS_1: &[u8] =
    b"zq-peer\n\x00\x01\x02\x01\x04\x01run of site one.\x00\x00\x00\x00\x00\x00\x00\x03\
    \x00\x00\x00\x00\x00\x00\x00\x0a\x00\x00\x00\x00\x00\x00\x00\x14\x00\x00\x00\x00\x00\x00\x00\x1e\x00\x00\x00\x00\x00\x00\x00\x28\
    \x01\x00\x01\x02\x03\x04\x05\x06\x07\x08\x09\x0a\x0b\x0c\x0d\x0e\x0f";

// What site 2 greets with, of whom it is the fifth start.
const GREETS_2: &[u8; 87] =
    b"zq-peer\n\x00\x01\x02\x02\x04\x01run of site two.\x00\x00\x00\x00\x00\x00\x00\x05\
    \x00\x00\x00\x00\x00\x00\x00\x01\x00\x00\x00\x00\x00\x00\x00\x02\x00\x00\x00\x00\x00\x00\x01\x02\xff\xff\xff\xff\xff\xff\xff\xff\
    \x01\xf0\xf1\xf2\xf3\xf4\xf5\xf6\xf7\xf8\xf9\xfa\xfb\xfc\xfd\xfe\xff";

// The answers that they then owe.
const OWED_1: &[u8; 32] =
    b"\xd4\x13\xdd\x44\x56\x79\x3b\xa1\xe9\x97\x87\xd4\xd8\x12\xce\xd4\x4a\x99\x7c\xb5\xdb\x8c\xd0\x1e\xda\x95\x86\xbe\xf5\x34\x05\xe3";

const OWED_2: &[u8; 32] =
    b"\x4e\x5a\x71\xeb\xdc\x58\x24\x18\x04\x8a\x0c\x7f\xb0\xbb\xea\x83\x3a\xc6\x82\x98\xda\x79\x6f\x06\x6d\x74\x6b\x15\x38\x2b\x65\x67";

// The same where site 2 speaks the versions 1 to 1.
const LOW_OWED_1: &[u8; 32] =
    b"\xb8\xd3\x95\x5c\x9b\x0e\x95\x7c\xe4\x4d\x9a\x4a\xc1\xa1\xa9\x02\xba\xed\xce\xa4\x6c\x29\xc7\xdd\xae\x13\x52\x53\xb2\x16\x20\xa9";

const LOW_OWED_2: &[u8; 32] =
    b"\xb2\x74\x46\xdd\xa1\x4b\xb7\x5a\x5f\x94\xa4\xa4\xfd\x86\x2c\xa0\x67\x2a\xe5\x0c\x3e\x2a\x74\x04\x25\x8a\x67\x16\x83\x54\x18\xbe";

// Where the highest version stands in a greeting, and where the secret does.
const HIGHEST: usize = 10;

const SECRET: usize = 70;

const fn closed() -> Secret<'static> {
    Secret {
        key: KEY,
        nonce: NONCE_1,
    }
}

/// What site 2 says of its run.
fn run_2() -> Run {
    let mut counters = [0; MOST_HEAPS];
    counters[..4].copy_from_slice(&[1, 2, 258, u64::MAX]);
    Run {
        name: *b"run of site two.",
        start: 5,
        counters,
    }
}

/// What site 2 says, and the answer that it owes.
fn all_of(alloc: Global, greeting: &[u8], owed: &[u8; 32]) -> Result<Vec<u8>, AllocError> {
    let mut all = Vec::from_slice(alloc, greeting)?;
    all.extend_from_slice(owed)?;
    Ok(all)
}

#[test]
fn greetings_tell_of_versions_and_a_run(rt: HostRuntime) -> Result<(), Fail> {
    let mut out = Vec::new(rt.alloc());
    write_greeting(&mut out, &new_side(site(1)?, &[], Some(closed())))?;
    assert_eq!(rt; out.as_slice(), GREETS_1);
    out.clear();
    write_greeting(&mut out, &new_side(site(1)?, &[], None))?;
    assert_eq!(rt; out.len(), 71);
    assert_eq!(rt; out.get(..70), GREETS_1.get(..70));
    assert_eq!(rt; out.last(), Some(&0));
    Ok(())
}

#[test]
fn a_peer_with_the_secret_is_welcome_with_its_run(rt: HostRuntime) -> Result<(), Fail> {
    let peers = [site(2)?];
    let side = new_side(site(1)?, &peers, Some(closed()));
    let mut all = all_of(rt.alloc(), GREETS_2, OWED_2)?;
    for len in 0..all.len() {
        let due = if len < 87 {
            Opening::Waits
        } else {
            Opening::Answers { answer: *OWED_1 }
        };
        assert_eq!(rt; hear_opening(&side, GREETS_1, &all[..len]), Ok(due));
    }
    let welcome = Opening::Welcome {
        peer: site(2)?,
        version: 2,
        run: Some(run_2()),
        answer: Some(*OWED_1),
        used: 119,
    };
    assert_eq!(rt; hear_opening(&side, GREETS_1, &all), Ok(welcome));
    all.push(7)?;
    assert_eq!(rt; hear_opening(&side, GREETS_1, &all), Ok(welcome));
    Ok(())
}

#[test]
fn a_peer_without_a_secret_is_welcome_with_its_run(rt: HostRuntime) -> Result<(), Fail> {
    let peers = [site(2)?];
    let side = new_side(site(1)?, &peers, None);
    let mut all = Vec::from_slice(rt.alloc(), GREETS_2)?;
    all.truncate(SECRET);
    for len in 0..SECRET {
        let heard = &GREETS_2[..len];
        assert_eq!(rt; hear_opening(&side, b"", heard), Ok(Opening::Waits));
    }
    all.push(0)?;
    let welcome = Opening::Welcome {
        peer: site(2)?,
        version: 2,
        run: Some(run_2()),
        answer: None,
        used: 71,
    };
    assert_eq!(rt; hear_opening(&side, b"", &all), Ok(welcome));
    all.extend_from_slice(b"frames")?;
    assert_eq!(rt; hear_opening(&side, b"", &all), Ok(welcome));
    assert_eq!(rt;
        hear_opening(&side, b"", GREETS_2),
        Err(Refusal::SecretThere)
    );
    Ok(())
}

#[test]
fn a_byte_that_was_changed_on_the_way_is_refused(rt: HostRuntime) -> Result<(), Fail> {
    let peers = [site(2)?];
    let side = new_side(site(1)?, &peers, Some(closed()));
    let all = all_of(rt.alloc(), GREETS_2, OWED_2)?;
    for index in 0..all.len() {
        let mut changed = Vec::from_slice(rt.alloc(), &all)?;
        let byte = changed.get_mut(index).ok_or("a byte")?;
        *byte ^= 1;
        let opening = hear_opening(&side, GREETS_1, &changed);
        assert!(rt; opening.is_err(), "byte {index}");
        // What follows the terms is covered by the answer alone, but for the word on the secret.
        if index > 13 && index != SECRET {
            assert_eq!(rt; opening, Err(Refusal::Answer), "byte {index}");
        }
    }
    Ok(())
}

#[test]
fn a_range_that_was_lowered_on_the_way_is_refused(rt: HostRuntime) -> Result<(), Fail> {
    let peers = [site(2)?];
    let side = new_side(site(1)?, &peers, Some(closed()));
    let mut low = *GREETS_2;
    low[HIGHEST] = 1;
    let lowered = all_of(rt.alloc(), &low, OWED_2)?;
    assert_eq!(rt;
        hear_opening(&side, GREETS_1, &lowered),
        Err(Refusal::Answer)
    );
    // And so it is where the peer heard a range of this site that was lowered.
    let honest = all_of(rt.alloc(), GREETS_2, LOW_OWED_2)?;
    assert_eq!(rt;
        hear_opening(&side, GREETS_1, &honest),
        Err(Refusal::Answer)
    );
    // A peer that speaks no more than that is welcome.
    let all = all_of(rt.alloc(), &low, LOW_OWED_2)?;
    let welcome = Opening::Welcome {
        peer: site(2)?,
        version: 1,
        run: Some(run_2()),
        answer: Some(*LOW_OWED_1),
        used: 119,
    };
    assert_eq!(rt; hear_opening(&side, GREETS_1, &all), Ok(welcome));
    Ok(())
}

#[test]
fn the_greatest_version_that_both_speak_is_taken(rt: HostRuntime) -> Result<(), Fail> {
    // This site's lowest and highest version, the peer's, and the one that is spoken.
    let rows: [(u8, u8, u8, u8, Option<u8>); 13] = [
        (1, 2, 1, 2, Some(2)),
        (1, 2, 1, 1, Some(1)),
        (1, 1, 1, 2, Some(1)),
        (1, 2, 2, 9, Some(2)),
        (2, 4, 1, 3, Some(3)),
        (2, 4, 3, 255, Some(4)),
        (1, 255, 255, 255, Some(255)),
        (1, 2, 3, 4, None),
        (3, 4, 1, 2, None),
        (1, 2, 0, 2, None),
        (0, 2, 0, 0, None),
        (1, 4, 3, 2, None),
        (1, 2, 2, 1, None),
    ];
    let peers = [site(2)?];
    for (own_lowest, own_highest, lowest, highest, want) in rows {
        let own = Versions {
            lowest: own_lowest,
            highest: own_highest,
        };
        let side = side_in(Form::New, own, site(1)?, &peers, None);
        let mut heard = *GREETS_2;
        heard[HIGHEST - 1] = lowest;
        heard[HIGHEST] = highest;
        heard[SECRET] = 0;
        let spoken = match hear_opening(&side, b"", &heard) {
            Ok(Opening::Welcome { version, .. }) => Some(version),
            Err(refusal) => {
                let heard = Versions { lowest, highest };
                assert_eq!(rt; refusal, Refusal::Version { heard, own });
                None
            }
            Ok(_) => return Err("it waits".into()),
        };
        assert_eq!(rt; spoken, want);
    }
    Ok(())
}

#[test]
fn one_form_is_not_met_by_the_other(rt: HostRuntime) -> Result<(), Fail> {
    let peers = [site(2)?];
    let old = b"zq-peer\n\x01\x02\x04\x01\x00";
    let side = new_side(site(1)?, &peers, None);
    for len in 9..old.len() {
        let heard = &old[..len];
        assert_eq!(rt;
            hear_opening(&side, b"", heard),
            Err(Refusal::Form(Form::Old))
        );
    }
    let words = format!(in rt.alloc(); "{}", Refusal::Form(Form::Old))?;
    assert_eq!(rt; words.as_str(), "it greets in the old form");
    // A site that does not speak version 1 says so instead.
    let two = Versions {
        lowest: 2,
        highest: 2,
    };
    let one = Versions {
        lowest: 1,
        highest: 1,
    };
    let side = side_in(Form::New, two, site(1)?, &peers, None);
    let refusal = Refusal::Version {
        heard: one,
        own: two,
    };
    assert_eq!(rt; hear_opening(&side, b"", old), Err(refusal));
    let words = format!(in rt.alloc(); "{refusal}")?;
    assert_eq!(rt;
        words.as_str(),
        "it speaks version 1 of the protocol, and this site version 2"
    );
    let side = old_side(site(1)?, &peers, None);
    assert_eq!(rt;
        hear_opening(&side, b"", GREETS_2),
        Err(Refusal::Form(Form::New))
    );
    Ok(())
}

/// Gives pieces of drawn lengths.
#[derive(Drop)]
struct Drawn<'a> {
    rest: &'a [u8],
    state: u64,
}

impl Read for Drawn<'_> {
    fn read(&mut self, buf: &mut [u8]) -> io::Result<usize> {
        self.state = self
            .state
            .wrapping_mul(6_364_136_223_846_793_005)
            .wrapping_add(1_442_695_040_888_963_407);
        let drawn = (self.state >> 33) as usize % 40 + 1;
        let count = drawn.min(self.rest.len()).min(buf.len());
        buf[..count].copy_from_slice(&self.rest[..count]);
        self.rest = &self.rest[count..];
        Ok(count)
    }
}

/// What a site makes of a peer whose bytes come in drawn pieces, and what it writes.
fn opened_by(
    alloc: Global,
    dials: bool,
    side: &Side<'_>,
    rest: &[u8],
    seed: u64,
) -> (Result<Opened, Unopened>, Vec<u8>) {
    let mut written = Vec::new(alloc);
    let mut drawn = Drawn { rest, state: seed };
    let opened = if dials {
        dial_over(alloc, side, &mut drawn, &mut written)
    } else {
        accept_over(alloc, side, &mut drawn, &mut written)
    };
    (opened, written)
}

#[test]
fn links_open_in_the_new_form_however_the_peer_is_cut(rt: HostRuntime) -> Result<(), Fail> {
    let peers = [site(2)?];
    let side = new_side(site(1)?, &peers, Some(closed()));
    let alloc = rt.alloc();
    let all = all_of(alloc, GREETS_2, OWED_2)?;
    let owed = all_of(alloc, GREETS_1, OWED_1)?;
    for seed in 0..50 {
        for dials in [true, false] {
            let (opened, written) = opened_by(alloc, dials, &side, &all, seed);
            let Ok(opened) = opened else {
                return Err("not opened".into());
            };
            assert_eq!(rt; written, owed);
            assert_eq!(rt; (opened.peer, opened.version), (site(2)?, 2));
            assert_eq!(rt; opened.run, Some(run_2()));
            assert_eq!(rt; opened.first.as_slice(), b"".as_slice());
        }
    }
    Ok(())
}

/// That a site which dials, or accepts, speaks this version with a peer that says this, or opens no
/// link to it, and writes that.
fn opens_so(
    alloc: Global,
    dials: bool,
    side: &Side<'_>,
    heard: &[u8],
    want: Result<u8, Unopened>,
    write: &[u8],
) -> Result<(), Fail> {
    let (opened, written) = opened_by(alloc, dials, side, heard, 1);
    let spoken = match opened {
        Ok(opened) => Ok(opened.version),
        Err(why) => Err(why),
    };
    if spoken == want && written.as_slice() == write {
        Ok(())
    } else {
        Err("another opening".into())
    }
}

#[test]
fn a_site_that_accepts_greets_as_it_is_greeted(rt: HostRuntime) -> Result<(), Fail> {
    let peers = [site(2)?];
    let old_all = b"zq-peer\n\x01\x02\x04\x01\x00";
    let old_own = b"zq-peer\n\x01\x01\x04\x01\x00";
    let mut all = Vec::from_slice(rt.alloc(), GREETS_2)?;
    all.truncate(SECRET);
    all.push(0)?;
    let mut own = Vec::from_slice(rt.alloc(), GREETS_1)?;
    own.truncate(SECRET);
    own.push(0)?;
    let two = Versions {
        lowest: 2,
        highest: 2,
    };
    let one = Versions {
        lowest: 1,
        highest: 1,
    };
    let high = side_in(Form::New, two, site(1)?, &peers, None);
    let mut high_own = Vec::from_slice(rt.alloc(), &own)?;
    *high_own.get_mut(HIGHEST - 1).ok_or("a byte")? = 2;
    let refused = Unopened::Refused(Refusal::Version {
        heard: one,
        own: two,
    });
    let new = new_side(site(1)?, &peers, None);
    let old = old_side(site(1)?, &peers, None);
    let alloc = rt.alloc();
    opens_so(alloc, false, &new, old_all, Ok(1), old_own)?;
    opens_so(alloc, false, &old, old_all, Ok(1), old_own)?;
    opens_so(alloc, false, &new, &all, Ok(2), &own)?;
    opens_so(alloc, false, &old, &all, Ok(2), &own)?;
    opens_so(alloc, false, &high, old_all, Err(refused), &high_own)?;
    opens_so(alloc, true, &new, old_all, Err(Unopened::Old), &own)?;
    opens_so(alloc, true, &old, old_all, Ok(1), old_own)?;
    let new_form = Unopened::Refused(Refusal::Form(Form::New));
    opens_so(alloc, true, &old, &all, Err(new_form), old_own)?;
    opens_so(alloc, false, &new, b"zq-peer\n", Err(Unopened::Lost), b"")?;
    Ok(())
}
