//! A call of each reader and writer.

use std::test::Fail;
use zq_dots::{Rule, Score, SiteNo, Vector};
use zq_fields::{
    HeapNo, PartFault, read_dense, read_heap, read_rule, read_score, read_site, read_sparse,
    read_text, rule_byte, sparse_len, write_score, write_sparse, write_text,
};

// 3 of site 0 and all of site 63.
const ENTRIES: &[u8] =
    b"\x02\x00\x00\x00\x00\x00\x00\x00\x00\x03\x3f\x00\x00\xff\xff\xff\xff\xff\xff";

fn site(number: u8) -> Result<SiteNo, &'static str> {
    SiteNo::new(number).ok_or("a site")
}

#[test]
#[tactic(auto, unfolding(zq_model::specs::Sets::LAST))]
fn vectors_are_written_and_read(rt: HostRuntime) -> Result<(), Fail> {
    let mut vector = Vector::new();
    vector.set(site(0)?, 3);
    vector.set(site(63)?, 281_474_976_710_655);
    let mut out = Vec::new(rt.alloc());
    write_sparse(&mut out, &vector)?;
    assert_eq!(rt; out.as_slice(), ENTRIES);
    assert_eq!(rt; sparse_len(&vector), 19);
    let mut rest = ENTRIES;
    assert_eq!(rt; read_sparse(19, None, &mut rest), Ok(vector));
    assert!(rt; rest.is_empty());
    let mut rest = ENTRIES;
    assert_eq!(rt;
        read_sparse(19, Some(site(63)?), &mut rest),
        Err(PartFault::Field(11))
    );
    Ok(())
}

#[test]
fn a_counter_for_each_of_eight_sites_is_read(rt: HostRuntime) -> Result<(), Fail> {
    let mut bytes = [0; 65];
    bytes[63] = 2;
    let mut rest = &bytes[..];
    let vector = read_dense(65, None, &mut rest)?;
    assert_eq!(rt; (vector.get(site(7)?), vector.get(site(8)?)), (2, 0));
    assert_eq!(rt; rest.len(), 1);
    Ok(())
}

#[test]
#[tactic(auto, unfolding(zq_model::specs::Sets::SITES))]
fn heaps_scores_and_texts_are_read(rt: HostRuntime) -> Result<(), Fail> {
    let mut out = Vec::new(rt.alloc());
    write_score(&mut out, Score::new(-2).ok_or("a score")?)?;
    write_text(&mut out, b"qa")?;
    let expected = b"\xff\xff\xff\xff\xff\xff\xff\xfe\x00\x00\x00\x02qa";
    assert_eq!(rt; out.as_slice(), expected.as_slice());
    let mut rest = expected.as_slice();
    assert_eq!(rt; read_score(&mut rest)?.value(), -2);
    assert_eq!(rt; read_text(&mut rest)?, b"qa".as_slice());
    let mut rest = b"\x04\x03\x3f".as_slice();
    assert_eq!(rt; read_heap(3, &mut rest)?, HeapNo { heap: 3, heaps: 4 });
    assert_eq!(rt; read_site(3, &mut rest, 0, 64)?.value(), 63);
    Ok(())
}

#[test]
fn rules_are_read_by_their_bytes(rt: HostRuntime) -> Result<(), Fail> {
    let mut rest = b"\x01\x02".as_slice();
    let rule = read_rule(2, &mut rest)?;
    assert_eq!(rt; (rule, rule_byte(rule)), (Rule::Low, 1));
    assert_eq!(rt; read_rule(2, &mut rest), Err(PartFault::Field(1)));
    Ok(())
}
