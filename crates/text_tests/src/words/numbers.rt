//! The texts of scores, whole numbers and bounds, by a command that has one.

use super::request_of;
use std::alloc::Global;
use std::process::Abort;
use std::test::Fail;
use zq_words::{Command, Kind, Limit, Range, Refused};

const SCORES: [(&str, Option<i64>); 22] = [
    ("5", Some(5)),
    ("+5", Some(5)),
    ("-5", Some(-5)),
    ("-0", Some(0)),
    ("007", Some(7)),
    ("5.00", Some(5)),
    ("-03.0", Some(-3)),
    ("9007199254740992", Some(9_007_199_254_740_992)),
    ("-9007199254740992.0", Some(-9_007_199_254_740_992)),
    ("9007199254740993", None),
    ("-9007199254740993", None),
    ("-9223372036854775808", None),
    ("99999999999999999999999", None),
    ("5.", None),
    (".0", None),
    ("5.01", None),
    ("5.0.0", None),
    ("+-5", None),
    ("1e3", None),
    (" 5", None),
    ("-", None),
    ("", None),
];

/// The score that a text is.
fn score_of(alloc: Global, text: &str) -> Result<Option<i64>, Fail> {
    let request = request_of(alloc, &["ZINCRBY", "q", text, "a"])?;
    match Command::read(alloc, &request) {
        Ok(command) => match command.kind() {
            Kind::Zincrby { pair, .. } => Ok(Some(pair.score)),
            _ => Err(Fail::from("another command")),
        },
        Err(Refused::Score) => Ok(None),
        Err(_) => Err(Fail::from("another refusal")),
    }
}

fn each_is_a_score(
    rt: &impl Abort,
    alloc: Global,
    rows: &[(&str, Option<i64>)],
) -> Result<(), Fail> {
    for (text, expected) in rows {
        assert_eq!(rt; score_of(alloc, text)?, *expected, "at {text:?}");
    }
    Ok(())
}

#[test]
fn scores_are_whole_numbers_in_range(rt: HostRuntime) -> Result<(), Fail> {
    each_is_a_score(&rt, rt.alloc(), &SCORES)
}

const WHOLE: [(&str, Option<i64>); 14] = [
    ("5", Some(5)),
    ("+5", Some(5)),
    ("-0", Some(0)),
    ("007", Some(7)),
    ("9223372036854775807", Some(9_223_372_036_854_775_807)),
    ("9223372036854775808", None),
    ("-9223372036854775808", Some(-9_223_372_036_854_775_808)),
    ("-9223372036854775809", None),
    ("18446744073709551617", None),
    ("5.0", None),
    ("5x", None),
    (" 5", None),
    ("+", None),
    ("", None),
];

/// The whole number that a text is.
fn whole_of(alloc: Global, text: &str) -> Result<Option<i64>, Fail> {
    let request = request_of(alloc, &["ZRANGE", "q", text, "0"])?;
    match Command::read(alloc, &request) {
        Ok(command) => match command.kind() {
            Kind::Zrange {
                range: Range::ByPlace { start, .. },
                ..
            } => Ok(Some(*start)),
            _ => Err(Fail::from("another command")),
        },
        Err(Refused::Whole) => Ok(None),
        Err(_) => Err(Fail::from("another refusal")),
    }
}

fn each_is_whole(rt: &impl Abort, alloc: Global, rows: &[(&str, Option<i64>)]) -> Result<(), Fail> {
    for (text, expected) in rows {
        assert_eq!(rt; whole_of(alloc, text)?, *expected, "at {text:?}");
    }
    Ok(())
}

#[test]
fn whole_numbers_are_those_of_an_i64(rt: HostRuntime) -> Result<(), Fail> {
    each_is_whole(&rt, rt.alloc(), &WHOLE)
}

/// Whether the limit itself is left out, and the limit.
const BOUNDS: [(&str, Option<(bool, Limit)>); 14] = [
    ("5", Some((false, Limit::At(5)))),
    ("(5", Some((true, Limit::At(5)))),
    ("(-5.0", Some((true, Limit::At(-5)))),
    ("-inf", Some((false, Limit::Lowest))),
    ("(-INF", Some((true, Limit::Lowest))),
    ("+inf", Some((false, Limit::Highest))),
    ("inf", Some((false, Limit::Highest))),
    ("(Inf", Some((true, Limit::Highest))),
    ("9007199254740993", None),
    ("((5", None),
    ("(", None),
    ("[5", None),
    ("infinity", None),
    ("", None),
];

/// Whether the limit of the bound that a text is is left out, and the limit.
fn bound_of(alloc: Global, text: &str) -> Result<Option<(bool, Limit)>, Fail> {
    let request = request_of(alloc, &["ZCOUNT", "q", text, "+inf"])?;
    match Command::read(alloc, &request) {
        Ok(command) => match command.kind() {
            Kind::Zcount { min, .. } => Ok(Some((min.is_out, min.limit))),
            _ => Err(Fail::from("another command")),
        },
        Err(Refused::Bound) => Ok(None),
        Err(_) => Err(Fail::from("another refusal")),
    }
}

fn each_is_a_bound(
    rt: &impl Abort,
    alloc: Global,
    rows: &[(&str, Option<(bool, Limit)>)],
) -> Result<(), Fail> {
    for (text, expected) in rows {
        assert_eq!(rt; bound_of(alloc, text)?, *expected, "at {text:?}");
    }
    Ok(())
}

#[test]
fn bounds_may_be_left_out(rt: HostRuntime) -> Result<(), Fail> {
    each_is_a_bound(&rt, rt.alloc(), &BOUNDS)
}
