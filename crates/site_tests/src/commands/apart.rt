//! What two sites do apart, and what both have once they have met, by either rule. The rows are
//! those of the tables of docs/REPLICATION.md. Expected bytes were worked out from the definitions.

use super::{Sites, ask};
use std::alloc::Global;
use std::process::Abort;
use std::test::Fail;
use zq_dots::Rule;

/// What both sites share before, if anything; what the first and what the second one is asked
/// apart; what both are asked once they have met, and what they answer by the greatest and by the
/// least.
#[derive(Clone, Copy)]
struct Row(
    &'static str,
    &'static str,
    &'static str,
    &'static str,
    &'static str,
    &'static str,
);

// What both share before.
const X_0: &str = "ZADD q 0 x";

const X_1: &str = "ZADD q 1 x";

const X_3: &str = "ZADD q 3 x";

const X_7: &str = "ZADD q 7 x";

const X_10: &str = "ZADD q 10 x";

const X_1_Y_2: &str = "ZADD q 1 x 2 y";

// What both are asked: the score of x, or the whole key.
const X: &str = "ZSCORE q x";

const ALL: &str = "ZRANGE q 0 -1 WITHSCORES";

// What they answer: that x is not there, or has this score.
const NONE: &str = "$-1\r\n";

const IS_1: &str = "$1\r\n1\r\n";

const IS_2: &str = "$1\r\n2\r\n";

const IS_3: &str = "$1\r\n3\r\n";

const IS_4: &str = "$1\r\n4\r\n";

const IS_5: &str = "$1\r\n5\r\n";

const IS_6: &str = "$1\r\n6\r\n";

const IS_7: &str = "$1\r\n7\r\n";

const IS_8: &str = "$1\r\n8\r\n";

const IS_9: &str = "$1\r\n9\r\n";

const IS_10: &str = "$2\r\n10\r\n";

const IS_12: &str = "$2\r\n12\r\n";

const IS_17: &str = "$2\r\n17\r\n";

const IS_20: &str = "$2\r\n20\r\n";

const IS_22: &str = "$2\r\n22\r\n";

const IS_WIDE: &str = "$17\r\n18014398509481984\r\n";

// The members that are there, with their scores.
const EMPTY: &str = "*0\r\n";

const ONLY_X_5: &str = "*2\r\n$1\r\nx\r\n$1\r\n5\r\n";

const ONLY_Y_0: &str = "*2\r\n$1\r\ny\r\n$1\r\n0\r\n";

const ONLY_Y_2: &str = "*2\r\n$1\r\ny\r\n$1\r\n2\r\n";

const ONLY_Z_5: &str = "*2\r\n$1\r\nz\r\n$1\r\n5\r\n";

const BOTH: &str = "*4\r\n$1\r\nx\r\n$1\r\n1\r\n$1\r\ny\r\n$1\r\n2\r\n";

const ROWS: [Row; 52] = [
    // Two additions.
    Row("", "ZADD q 5 x", "ZADD q 9 x", X, IS_9, IS_5),
    Row(X_7, "ZADD q 5 x", "ZADD q 2 x", X, IS_5, IS_2),
    Row("", "ZADD q 1 x", "ZADD q 2 y", ALL, BOTH, BOTH),
    Row("", "ZADD q NX 5 x", "ZADD q NX 9 x", X, IS_9, IS_5),
    Row("", "ZADD q XX 4 x", "ZADD q 9 x", X, IS_9, IS_9),
    Row(X_3, "ZADD q XX 4 x", "ZADD q XX 6 x", X, IS_6, IS_4),
    Row(X_3, "ZADD q GT 5 x", "ZADD q GT 4 x", X, IS_5, IS_4),
    Row(X_3, "ZADD q LT 1 x", "ZADD q LT 2 x", X, IS_2, IS_1),
    Row(X_3, "ZADD q GT 5 x", "ZADD q LT 1 x", X, IS_5, IS_1),
    Row(X_3, "ZADD q GT 5 x", "ZADD q 2 x", X, IS_5, IS_2),
    Row(X_3, "ZADD q GT 2 x", "ZADD q 1 x", X, IS_1, IS_1),
    Row(X_3, "ZADD q CH 3 x", "ZADD q CH 8 x", X, IS_8, IS_3),
    // An addition and an increment.
    Row(X_10, "ZADD q 20 x", "ZINCRBY q 7 x", X, IS_20, IS_20),
    Row(X_10, "ZADD q 10 x", "ZINCRBY q 7 x", X, IS_10, IS_10),
    Row(X_10, "ZADD q GT 12 x", "ZINCRBY q 7 x", X, IS_12, IS_12),
    Row(X_10, "ZADD q NX 99 x", "ZINCRBY q 7 x", X, IS_17, IS_17),
    Row(X_10, "ZADD q 20 x", "ZADD q INCR 7 x", X, IS_20, IS_20),
    Row("", "ZADD q 5 x", "ZINCRBY q 7 x", X, IS_7, IS_5),
    // Two increments.
    Row(X_10, "ZINCRBY q 5 x", "ZINCRBY q 7 x", X, IS_22, IS_22),
    Row(X_10, "ZADD q INCR 5 x", "ZINCRBY q 7 x", X, IS_22, IS_22),
    Row(
        X_10,
        "ZADD q GT INCR 5 x",
        "ZADD q LT INCR -7 x",
        X,
        IS_8,
        IS_8,
    ),
    Row(X_10, "ZADD q NX INCR 5 x", "ZINCRBY q 7 x", X, IS_17, IS_17),
    Row("", "ZINCRBY q 5 x", "ZINCRBY q 7 x", X, IS_7, IS_5),
    Row(
        X_0,
        "ZINCRBY q 9007199254740992 x",
        "ZINCRBY q 9007199254740992 x",
        X,
        IS_WIDE,
        IS_WIDE,
    ),
    // An addition and a removal.
    Row(X_3, "ZADD q 4 x", "ZREM q x", X, IS_4, IS_4),
    Row(X_3, "ZADD q 3 x", "ZREM q x", X, IS_3, IS_3),
    Row(X_3, "ZADD q XX 4 x", "ZREM q x", X, IS_4, IS_4),
    Row(X_3, "ZADD q NX 4 x", "ZREM q x", X, NONE, NONE),
    Row(X_3, "ZADD q GT 2 x", "ZREM q x", X, NONE, NONE),
    Row("", "ZADD q 4 x", "ZREM q x", X, IS_4, IS_4),
    Row(X_1, "ZADD q 5 x", "ZPOPMIN q", X, IS_5, IS_5),
    Row(X_1, "ZADD q 0 y", "ZPOPMIN q", ALL, ONLY_Y_0, ONLY_Y_0),
    Row(X_1, "ZADD q 5 x", "ZPOPNEAR q", X, IS_5, IS_5),
    Row(X_1_Y_2, "ZADD q 5 x", "DEL q", ALL, ONLY_X_5, ONLY_X_5),
    Row(X_1_Y_2, "ZADD q 5 z", "DEL q", ALL, ONLY_Z_5, ONLY_Z_5),
    // An increment and a removal.
    Row(X_3, "ZINCRBY q 7 x", "ZREM q x", X, NONE, NONE),
    Row(X_3, "ZADD q INCR 7 x", "ZREM q x", X, NONE, NONE),
    Row("", "ZINCRBY q 7 x", "ZREM q x", X, IS_7, IS_7),
    Row(
        X_1_Y_2,
        "ZINCRBY q 5 x",
        "ZPOPMIN q",
        ALL,
        ONLY_Y_2,
        ONLY_Y_2,
    ),
    Row(X_1, "ZINCRBY q 5 x", "ZPOPNEAR q", X, NONE, NONE),
    Row(X_1_Y_2, "ZINCRBY q 5 x", "DEL q", ALL, EMPTY, EMPTY),
    // Two removals.
    Row(X_3, "ZREM q x", "ZREM q x", X, NONE, NONE),
    Row(X_1_Y_2, "ZREM q x", "ZPOPMIN q", ALL, ONLY_Y_2, ONLY_Y_2),
    Row(X_1, "ZREM q x", "ZPOPNEAR q", X, NONE, NONE),
    Row(X_1_Y_2, "ZREM q x", "DEL q", ALL, EMPTY, EMPTY),
    Row(X_1_Y_2, "ZPOPMIN q", "ZPOPMIN q", ALL, ONLY_Y_2, ONLY_Y_2),
    Row(X_1_Y_2, "ZPOPMIN q", "ZPOPMIN q 2", ALL, EMPTY, EMPTY),
    Row(X_1, "ZPOPMIN q", "ZPOPNEAR q", X, NONE, NONE),
    Row(X_1_Y_2, "ZPOPMIN q", "DEL q", ALL, EMPTY, EMPTY),
    Row(X_1, "ZPOPNEAR q", "ZPOPNEAR q", X, NONE, NONE),
    Row(X_1, "ZPOPNEAR q", "DEL q", X, NONE, NONE),
    Row(X_1_Y_2, "DEL q", "DEL q", ALL, EMPTY, EMPTY),
];

/// Asks both sites, which have these numbers, a row's question once they have met.
fn meet(
    rt: &impl Abort,
    alloc: Global,
    rule: Rule,
    numbers: (u8, u8),
    row: Row,
) -> Result<(), Fail> {
    let Row(before, at_a, at_b, question, high, low) = row;
    let (a, b) = numbers;
    let mut sites = Sites::new(alloc, 2, rule)?;
    if !before.is_empty() {
        ask(alloc, &mut sites.a, a, before)?;
        sites.meet(alloc)?;
    }
    ask(alloc, &mut sites.a, a, at_a)?;
    ask(alloc, &mut sites.b, b, at_b)?;
    sites.meet(alloc)?;
    let says = match rule {
        Rule::High => high,
        Rule::Low => low,
    };
    let from_a = ask(alloc, &mut sites.a, a, question)?;
    let from_b = ask(alloc, &mut sites.b, b, question)?;
    assert!(rt;
        from_a.as_slice() == says.as_bytes(),
        "{at_a} and {at_b} at the first site"
    );
    assert!(rt;
        from_b.as_slice() == says.as_bytes(),
        "{at_a} and {at_b} at the second site"
    );
    Ok(())
}

/// Does each row at sites of these numbers.
fn meet_each(rt: &impl Abort, alloc: Global, rule: Rule, numbers: (u8, u8)) -> Result<(), Fail> {
    for row in ROWS.iter() {
        meet(rt, alloc, rule, numbers, *row)?;
    }
    Ok(())
}

#[test]
fn what_is_done_apart_comes_to_what_the_tables_say(rt: HostRuntime) -> Result<(), Fail> {
    meet_each(&rt, rt.alloc(), Rule::High, (0, 1))?;
    meet_each(&rt, rt.alloc(), Rule::High, (63, 7))?;
    meet_each(&rt, rt.alloc(), Rule::Low, (0, 1))?;
    meet_each(&rt, rt.alloc(), Rule::Low, (63, 7))
}
