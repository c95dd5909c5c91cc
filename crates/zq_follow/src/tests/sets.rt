//! Sets of sites.

use super::set_of;
use crate::SiteSet;
use zq_dots::SiteNo;

/// Sets by their sites and their bits.
const ROWS: [(&[u8], u64); 6] = [
    (&[], 0),
    (&[0], 1),
    (&[1, 3], 0b1010),
    (&[63], 0x8000_0000_0000_0000),
    (&[0, 8, 63], 0x8000_0000_0000_0101),
    (&[4, 5, 6, 7, 32], 0x1_0000_00f0),
];

#[test]
fn bits_name_their_sites(rt: HostRuntime) {
    for (numbers, bits) in ROWS {
        let set = set_of(numbers);
        assert!(rt; set.bits() == bits, "{numbers:?}");
        assert!(rt; SiteSet::from_bits(bits) == set, "{numbers:?}");
        assert!(rt; SiteSet::from_array(*set.as_array()) == set, "{numbers:?}");
        assert!(rt; set.is_empty() == numbers.is_empty(), "{numbers:?}");
    }
    assert!(rt; SiteSet::from_bits(u64::MAX).bits() == u64::MAX);
}

/// Two sets, both together, and whether the first lacks something of the second.
const PAIRS: [(u64, u64, u64, bool); 6] = [
    (0, 0, 0, false),
    (0, 1, 1, true),
    (1, 0, 1, false),
    (0b110, 0b011, 0b111, true),
    (0b111, 0b101, 0b111, false),
    (1 << 62, 1 << 63, 0b11 << 62, true),
];

#[test]
fn sets_are_joined_and_compared(rt: HostRuntime) {
    for (one, other, both, lacks) in PAIRS {
        let sets = (SiteSet::from_bits(one), SiteSet::from_bits(other));
        assert!(rt; sets.0.union(&sets.1).bits() == both, "{one} {other}");
        assert!(rt; sets.0.lacks(&sets.1) == lacks, "{one} {other}");
    }
}

#[test]
fn a_site_comes_and_goes(rt: HostRuntime) {
    let set = set_of(&[2, 9]);
    if let Some(site) = SiteNo::new(5) {
        let more = set.with(site);
        assert!(rt; more.has(site) && more.bits() == 0x224);
        assert!(rt; more.without(site) == set && !set.has(site));
    }
    assert!(rt; set.bits() == 0x204);
}
