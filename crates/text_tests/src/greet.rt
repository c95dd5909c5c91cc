//! Site 1 of four heaps and the rule Low hears what others say in the old form.

use crate::greeting_side::{KEY, NONCE_1, PROVED_1, old_side, site};
use std::alloc::Global;
use std::io;
use std::io::Read;
use std::test::Fail;
use zq_dots::SiteNo;
use zq_wire::{
    Form, Opening, Refusal, Secret, Side, Unopened, Versions, accept_over, dial_over, hear_opening,
    write_greeting,
};

// What sites 1 and 2 greet with, of whom site 2 has the nonce f0 to ff, and the answers that they
// then owe.
const PLAIN_1: &[u8] = b"zq-peer\n\x01\x01\x04\x01\x00";

const PLAIN_2: &[u8] = b"zq-peer\n\x01\x02\x04\x01\x00";

const PROVED_2: &[u8] =
    b"zq-peer\n\x01\x02\x04\x01\x01\xf0\xf1\xf2\xf3\xf4\xf5\xf6\xf7\xf8\xf9\xfa\xfb\xfc\xfd\xfe\xff";

const OWED_1: &[u8; 32] =
    b"\xcc\x31\x67\x06\xb1\x4e\xdf\x5c\xea\xd3\x04\x78\xfc\x8f\xdb\x78\x15\xbb\xa0\xf3\xdb\x97\xa4\x93\xd1\x82\x18\x79\x79\x81\xad\x20";

const OWED_2: &[u8; 32] =
    b"\x5a\xcc\xd1\xdf\xc3\x69\x37\xc4\x34\xec\x06\x72\xea\x51\x70\x74\x69\x90\x7e\x03\x60\xdc\x14\x5c\xfc\x20\x4f\x5c\xa7\xfc\x99\xaa";

/// Hears with this secret, as a site that expects these peers.
fn hear_closed<'a>(
    own: SiteNo,
    peers: &'a [SiteNo],
    key: &'a [u8],
    heard: &[u8],
) -> Result<Opening, Refusal> {
    let secret = Secret {
        key,
        nonce: NONCE_1,
    };
    hear_opening(&old_side(own, peers, Some(secret)), PROVED_1, heard)
}

#[test]
fn greetings_are_written(rt: HostRuntime) -> Result<(), Fail> {
    let open = old_side(site(1)?, &[], None);
    let secret = Secret {
        key: KEY,
        nonce: NONCE_1,
    };
    let closed = old_side(site(1)?, &[], Some(secret));
    let mut out = Vec::new(rt.alloc());
    write_greeting(&mut out, &open)?;
    assert_eq!(rt; out.as_slice(), b"zq-peer\n\x01\x01\x04\x01\x00".as_slice());
    out.clear();
    write_greeting(&mut out, &closed)?;
    let expected =
        b"zq-peer\n\x01\x01\x04\x01\x01\x00\x01\x02\x03\x04\x05\x06\x07\x08\x09\x0a\x0b\x0c\x0d\x0e\x0f";
    assert_eq!(rt; out.as_slice(), expected.as_slice());
    Ok(())
}

#[test]
fn a_peer_without_a_secret_is_welcome(rt: HostRuntime) -> Result<(), Fail> {
    let peers = [site(5)?, site(2)?];
    let side = old_side(site(1)?, &peers, None);
    for len in 0..PLAIN_2.len() {
        let heard = &PLAIN_2[..len];
        assert_eq!(rt; hear_opening(&side, PLAIN_1, heard), Ok(Opening::Waits));
    }
    let welcome = Opening::Welcome {
        peer: site(2)?,
        version: 1,
        run: None,
        answer: None,
        used: 13,
    };
    assert_eq!(rt; hear_opening(&side, PLAIN_1, PLAIN_2), Ok(welcome));
    let with_frames = b"zq-peer\n\x01\x02\x04\x01\x00frames";
    assert_eq!(rt; hear_opening(&side, PLAIN_1, with_frames), Ok(welcome));
    Ok(())
}

#[test]
fn a_peer_with_the_secret_is_welcome(rt: HostRuntime) -> Result<(), Fail> {
    let peers = [site(2)?];
    let own = site(1)?;
    let mut heard = Vec::from_slice(rt.alloc(), PROVED_2)?;
    let short = &PROVED_2[..28];
    assert_eq!(rt; hear_closed(own, &peers, KEY, short), Ok(Opening::Waits));
    for byte in OWED_2 {
        let due = Opening::Answers { answer: *OWED_1 };
        assert_eq!(rt; hear_closed(own, &peers, KEY, &heard), Ok(due));
        heard.push(*byte)?;
    }
    let welcome = Opening::Welcome {
        peer: site(2)?,
        version: 1,
        run: None,
        answer: Some(*OWED_1),
        used: 61,
    };
    assert_eq!(rt; hear_closed(own, &peers, KEY, &heard), Ok(welcome));
    heard.push(3)?;
    assert_eq!(rt; hear_closed(own, &peers, KEY, &heard), Ok(welcome));
    Ok(())
}

#[test]
fn an_answer_that_is_sent_back_is_wrong(rt: HostRuntime) -> Result<(), Fail> {
    let peers = [site(2)?];
    let own = site(1)?;
    for answer in [OWED_1, &[0; 32]] {
        let mut heard = Vec::from_slice(rt.alloc(), PROVED_2)?;
        heard.extend_from_slice(answer)?;
        assert_eq!(rt; hear_closed(own, &peers, KEY, &heard), Err(Refusal::Answer));
    }
    Ok(())
}

#[test]
fn the_first_thing_that_does_not_agree_is_named(rt: HostRuntime) -> Result<(), Fail> {
    let refusals: [(&[u8], Refusal, &str); 10] = [
        (
            b"GET / HTTP/1.1\r\n",
            Refusal::Magic,
            "it does not greet as a site does",
        ),
        (
            b"zq-peer\n\x02\x01",
            Refusal::Version {
                heard: Versions {
                    lowest: 2,
                    highest: 2,
                },
                own: Versions {
                    lowest: 1,
                    highest: 2,
                },
            },
            "it speaks version 2 of the protocol, and this site versions 1 to 2",
        ),
        (
            b"zq-peer\n\x00\x03\x05",
            Refusal::Version {
                heard: Versions {
                    lowest: 3,
                    highest: 5,
                },
                own: Versions {
                    lowest: 1,
                    highest: 2,
                },
            },
            "it speaks versions 3 to 5 of the protocol, and this site versions 1 to 2",
        ),
        (
            b"zq-peer\n\x00\x01\x02",
            Refusal::Form(Form::New),
            "it greets in the new form",
        ),
        (
            b"zq-peer\n\x01\x01",
            Refusal::SameSite,
            "it has the number of this site",
        ),
        (
            b"zq-peer\n\x01\x03\x05",
            Refusal::Unexpected(3),
            "site 3 is not expected",
        ),
        (
            b"zq-peer\n\x01\x02\x05\x00",
            Refusal::Heaps(5),
            "it has 5 heaps",
        ),
        (
            b"zq-peer\n\x01\x02\x04\x00\x00",
            Refusal::Rule,
            "it has another rule",
        ),
        (
            b"zq-peer\n\x01\x02\x04\x02\x00",
            Refusal::Rule,
            "it has another rule",
        ),
        (
            b"zq-peer\n\x01\x02\x04\x01\x01",
            Refusal::SecretThere,
            "it wants a secret, and this site has none",
        ),
    ];
    let peers = [site(2)?];
    let side = old_side(site(1)?, &peers, None);
    for (heard, refusal, words) in &refusals {
        assert_eq!(rt; hear_opening(&side, PLAIN_1, heard), Err(*refusal));
        let said = format!(in rt.alloc(); "{refusal}")?;
        assert_eq!(rt; said.as_str(), *words);
    }
    Ok(())
}

#[test]
fn a_peer_without_the_secret_is_refused(rt: HostRuntime) -> Result<(), Fail> {
    let peers = [site(2)?];
    let own = site(1)?;
    assert_eq!(rt;
        hear_closed(own, &peers, KEY, PLAIN_2),
        Err(Refusal::SecretHere)
    );
    let here = format!(in rt.alloc(); "{}", Refusal::SecretHere)?;
    assert_eq!(rt; here.as_str(), "it has no secret, and this site wants one");
    let wrong = format!(in rt.alloc(); "{}", Refusal::Answer)?;
    assert_eq!(rt; wrong.as_str(), "it does not know the secret");
    Ok(())
}

/// Gives so many bytes at once.
#[derive(Drop)]
struct Drip<'a> {
    rest: &'a [u8],
    most: usize,
}

impl Read for Drip<'_> {
    fn read(&mut self, buf: &mut [u8]) -> io::Result<usize> {
        let count = self.most.min(self.rest.len()).min(buf.len());
        buf[..count].copy_from_slice(&self.rest[..count]);
        self.rest = &self.rest[count..];
        Ok(count)
    }
}

/// What site 1 makes of a peer whose bytes come so many at once, and what it writes.
fn opened_by(
    alloc: Global,
    dials: bool,
    key: &[u8],
    rest: &[u8],
    most: usize,
) -> Result<(Result<Vec<u8>, Unopened>, Vec<u8>), Fail> {
    let peers = [site(2)?];
    let secret = Secret {
        key,
        nonce: NONCE_1,
    };
    let side = old_side(site(1)?, &peers, Some(secret));
    let mut written = Vec::new(alloc);
    let mut drip = Drip { rest, most };
    let opened = if dials {
        dial_over(alloc, &side, &mut drip, &mut written)
    } else {
        accept_over(alloc, &side, &mut drip, &mut written)
    };
    match opened {
        Ok(opened) if opened.peer == site(2)? && opened.version == 1 && opened.run.is_none() => {
            Ok((Ok(opened.first), written))
        }
        Ok(_) => Err("another peer".into()),
        Err(why) => Ok((Err(why), written)),
    }
}

#[test]
fn the_answer_is_written_once_however_the_peer_is_cut(rt: HostRuntime) -> Result<(), Fail> {
    // The bytes of site 2, which end in the front of a frame; how many come at once; what is left
    // of them once it is welcome.
    let all =
        b"zq-peer\n\x01\x02\x04\x01\x01\xf0\xf1\xf2\xf3\xf4\xf5\xf6\xf7\xf8\xf9\xfa\xfb\xfc\xfd\xfe\xff\
        \x5a\xcc\xd1\xdf\xc3\x69\x37\xc4\x34\xec\x06\x72\xea\x51\x70\x74\x69\x90\x7e\x03\x60\xdc\x14\x5c\xfc\x20\x4f\x5c\xa7\xfc\x99\xaa\
        frame";
    let owed =
        b"zq-peer\n\x01\x01\x04\x01\x01\x00\x01\x02\x03\x04\x05\x06\x07\x08\x09\x0a\x0b\x0c\x0d\x0e\x0f\
        \xcc\x31\x67\x06\xb1\x4e\xdf\x5c\xea\xd3\x04\x78\xfc\x8f\xdb\x78\x15\xbb\xa0\xf3\xdb\x97\xa4\x93\xd1\x82\x18\x79\x79\x81\xad\x20";
    let greeting = &owed[..29];
    let rows: [(&[u8], usize, Result<&[u8], Unopened>, &[u8]); 6] = [
        (all, 1, Ok(b""), owed),
        (all, 30, Ok(b"frame"), owed),
        (all, 64, Ok(b"fra"), owed),
        (&all[..60], 64, Err(Unopened::Lost), owed),
        (&all[..28], 64, Err(Unopened::Lost), greeting),
        (
            b"zq-peer\n\x01\x02\x04\x01\x00",
            5,
            Err(Unopened::Refused(Refusal::SecretHere)),
            greeting,
        ),
    ];
    for (rest, most, want, write) in rows {
        for dials in [true, false] {
            let (opened, written) = opened_by(rt.alloc(), dials, KEY, rest, most)?;
            assert_eq!(rt; written.as_slice(), write);
            match (opened, want) {
                (Ok(first), Ok(left)) => assert_eq!(rt; first.as_slice(), left),
                (Err(why), Err(wanted)) => assert_eq!(rt; why, wanted),
                _ => return Err("welcome, and not".into()),
            }
        }
    }
    Ok(())
}
