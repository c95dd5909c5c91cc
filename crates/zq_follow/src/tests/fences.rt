//! Who used a site's number, and who was heard as a site begins.

use super::{set_of, vector_of};
use crate::{SiteSet, began_with_fewer, has_heard_all, has_heard_one, is_used_by_others};
use zq_dots::SiteNo;

/// What a site 1 has, how many of its operations a peer knows, and whether another run made some.
const FENCES: [(&[u64], u64, bool); 7] = [
    (&[], 0, false),
    (&[], 1, true),
    (&[9, 4], 4, false),
    (&[9, 4], 5, true),
    (&[9, 4], 3, false),
    (&[0, zq_dots::LAST_COUNTER], zq_dots::LAST_COUNTER, false),
    (&[9], 1, true),
];

#[test]
fn a_site_is_fenced_by_who_knows_more(rt: HostRuntime) {
    let Some(own) = SiteNo::new(1) else {
        return;
    };
    for (counters, known, is_used) in FENCES {
        let vector = vector_of(counters);
        assert!(rt;
            is_used_by_others(own, known, &vector) == is_used,
            "{counters:?} {known}"
        );
    }
}

/// What is known of site 1, with how many operations a run of it began, and whether others were made
/// by another run.
const BEGUN: [(&[u64], u64, bool); 5] = [
    (&[], 0, false),
    (&[5, 1], 0, true),
    (&[5, 1], 1, false),
    (&[5, 1], 2, false),
    (&[5], 0, false),
];

#[test]
fn a_run_that_began_with_fewer_is_another_one(rt: HostRuntime) {
    let Some(site) = SiteNo::new(1) else {
        return;
    };
    for (counters, begun, is_other) in BEGUN {
        let vector = vector_of(counters);
        assert!(rt;
            began_with_fewer(site, begun, &vector) == is_other,
            "{counters:?} {begun}"
        );
    }
}

/// Peers, who was heard of each of two heaps, whether all of these peers were heard of both, and
/// whether any one was.
const HEARD: [(&[u8], [&[u8]; 2], bool, bool); 6] = [
    (&[], [&[], &[]], true, false),
    (&[0], [&[0], &[]], false, false),
    (&[0], [&[0, 2], &[0]], true, true),
    (&[0, 1], [&[0, 1], &[0]], false, true),
    (&[0, 1], [&[0, 1, 5], &[1, 0]], true, true),
    (&[2], [&[5], &[63]], false, false),
];

#[test]
fn peers_are_heard_of_each_heap(rt: HostRuntime) {
    for (peers, [first, second], all, one) in HEARD {
        let heard: [SiteSet; 2] = [set_of(first), set_of(second)];
        assert!(rt;
            has_heard_all(&set_of(peers), heard.as_slice()) == all,
            "{peers:?}"
        );
        assert!(rt; has_heard_one(heard.as_slice()) == one, "{peers:?}");
    }
}
