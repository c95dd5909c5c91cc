//! Who sends what to whom: tables by hand.

use super::{set_of, vector_of};
use crate::{SiteSet, asks, class_of, overdue};
use std::alloc::Global;
use std::test::Fail;
use zq_dots::{SITES, SiteNo};

/// Site 2 and its peer 5: what the peer asks for, what is far to it, to whom it has links, the peer
/// from which the last operation of the site 7 came, if from one, and what is pushed.
const CLASSES: [(&[u8], &[u8], &[u8], Option<u8>, &[u8]); 9] = [
    (&[], &[], &[], None, &[2]),
    (&[9], &[], &[2], None, &[2, 9]),
    (&[2, 5], &[], &[2], None, &[2]),
    (&[], &[7], &[2], None, &[2, 7]),
    (&[], &[7], &[2], Some(3), &[2, 7]),
    (&[], &[7], &[2, 3], Some(3), &[2]),
    (&[], &[7], &[2], Some(5), &[2]),
    (&[7], &[7], &[2], Some(5), &[2, 7]),
    (&[1], &[5, 7, 8], &[2, 63], Some(7), &[1, 2, 7, 8]),
];

/// The site of a number, and the site 0 where there is none.
fn named(number: u8) -> Result<SiteNo, Fail> {
    Ok(SiteNo::new(number).ok_or("no site")?)
}

#[test]
fn own_asked_and_far_sites_are_pushed(rt: HostRuntime) -> Result<(), Fail> {
    for (asked, far, reach, source, class) in CLASSES {
        let mut sources = [None; SITES];
        sources[7] = match source {
            Some(number) => SiteNo::new(number),
            None => None,
        };
        let sets = (set_of(asked), set_of(far), set_of(reach));
        let found = class_of(named(2)?, named(5)?, &sets.0, &sets.1, &sets.2, &sources);
        assert!(rt; found == set_of(class), "{asked:?} {far:?} {reach:?}");
    }
    Ok(())
}

/// A site, its peers with their links, what each peer is asked to relay, and some sites that are
/// far.
type Asked = (
    u8,
    &'static [(u8, &'static [u8])],
    &'static [&'static [u8]],
    &'static [u8],
);

/// In a mesh of three nothing is asked. In a chain of four the neighbour is asked for the next and
/// not for the one after it. Of two peers the one is asked that comes next after the site.
const ASKED: [Asked; 5] = [
    (0, &[(1, &[0, 2]), (2, &[0, 1])], &[&[], &[]], &[3, 63]),
    (0, &[(1, &[0, 2])], &[&[2]], &[3, 4]),
    (1, &[(0, &[1]), (2, &[1, 3])], &[&[], &[3]], &[4, 63]),
    (
        0,
        &[(4, &[0, 3, 6]), (5, &[0, 3, 6])],
        &[&[3, 6], &[]],
        &[1, 2, 7],
    ),
    (
        6,
        &[(9, &[6, 1]), (1, &[6, 8]), (8, &[6])],
        &[&[], &[], &[]],
        &[0, 7],
    ),
];

/// The peers' links as they are handed over.
fn reaches_of(
    alloc: Global,
    peers: &[(u8, &[u8])],
) -> Result<(SiteSet, Vec<(SiteNo, SiteSet)>), Fail> {
    let mut linked = SiteSet::empty();
    let mut reaches = Vec::new(alloc);
    for (number, reach) in peers {
        let peer = named(*number)?;
        linked = linked.with(peer);
        reaches.push((peer, set_of(reach)))?;
    }
    Ok((linked, reaches))
}

#[test]
fn the_next_peer_is_asked(rt: HostRuntime) -> Result<(), Fail> {
    for (own, peers, wanted, far) in ASKED {
        let (linked, reaches) = reaches_of(rt.alloc(), peers)?;
        let (asked, left) = asks(named(own)?, &linked, &reaches, rt.alloc())?;
        assert!(rt; asked.len() == wanted.len());
        for ((_, set), numbers) in asked.iter().zip(wanted) {
            assert!(rt; *set == set_of(numbers), "{own} {numbers:?}");
        }
        assert!(rt; !left.lacks(&set_of(far)), "{own} {far:?}");
        assert!(rt; !left.has(named(own)?));
    }
    Ok(())
}

/// What the peer 1 had one calm ago, what the site 0 has, what it asks for, and what is overdue.
const LATE: [(&[u64], &[u64], &[u8], &[u8]); 6] = [
    (&[5, 5, 5], &[5, 5, 5], &[], &[]),
    (&[6, 6, 6], &[5, 5, 5], &[], &[2]),
    (&[6, 6, 6], &[5, 5, 5], &[2], &[]),
    (&[0, 0, 4, 2, 9], &[9, 9, 4, 1, 8], &[3], &[4]),
    (&[0, 0, 4, 2, 9], &[9, 9, 3, 1, 8], &[], &[2, 3, 4]),
    (&[], &[1, 1, 1], &[], &[]),
];

#[test]
fn what_did_not_come_in_time_is_overdue(rt: HostRuntime) -> Result<(), Fail> {
    for (earlier, vector, asked, late) in LATE {
        let vectors = (vector_of(earlier), vector_of(vector));
        let found = overdue(named(0)?, named(1)?, &vectors.0, &vectors.1, &set_of(asked));
        assert!(rt; found == set_of(late), "{earlier:?} {vector:?}");
    }
    Ok(())
}
