//! Scores and members in turn.

ghost use Rattle.std.specs.Prelude.{◌%◌, ◌≡◌, ◌≤◌, None, Some, length, map, IfOk, IsTrue};
ghost use Rattle.std.specs.Option.{is_some, option_map};
ghost use Rattle.std.specs.Result.{OnErr};
ghost use Rattle.zq_words.specs.Command.{pairs_of};
ghost use Rattle.zq_words.specs.Shown.{are_several, pair_shown, pairs_in, pairs_shown};
ghost use Rattle.zq_words.specs.Words.{views};

use crate::number::parse_score;
use crate::pair::Pair;
use std::alloc::{AllocError, Global};
use std::slice::from_ref;

/// The pairs of ZADD. One pair takes no memory.
#[derive(Debug, Drop)]
pub enum Pairs<'a> {
    One(Pair<'a>),
    Many(Vec<Pair<'a>>),
}

impl<'a> Pairs<'a> {
    /// The pairs in their order.
    pub fn as_slice(&self) -> &[Pair<'a>]
        ensures { result.now ≡ pairs_in self.now }
    {
        match self {
            Pairs::One(pair) => from_ref(pair),
            Pairs::Many(pairs) => pairs,
        }
    }
}

/// The pairs that these words write, a score before each member, and `None` where one is no score.
/// Memory is asked for only where there are several pairs, and each has a score.
#[tactic(auto, using(crate::proofs::PairLists::one_pair))]
pub fn read_pairs<'a>(alloc: Global, words: &'a [Vec<u8>]) -> Result<Option<Pairs<'a>>, AllocError>
    requires two { 2 ≤ length words.now }
    requires even { length words.now % 2 ≡ 0 }
    ensures pairs { IfOk result (λ pairs. option_map pairs_shown pairs
        ≡ pairs_of (views words.now)) }
    ensures refused { OnErr result (IsTrue (are_several (pairs_of (views words.now)))) }
{
    if words.len() > 2 {
        return read_several(alloc, words);
    }
    match parse_score(&words[0]) {
        Some(score) => Ok(Some(Pairs::One(Pair {
            score,
            member: &words[1],
        }))),
        None => Ok(None),
    }
}

#[tactic(auto, using(crate::proofs::PairLists::several_pairs))]
fn read_several<'a>(alloc: Global, words: &'a [Vec<u8>]) -> Result<Option<Pairs<'a>>, AllocError>
    requires several { 3 ≤ length words.now }
    requires even { length words.now % 2 ≡ 0 }
    ensures pairs { IfOk result (λ pairs. option_map pairs_shown pairs
        ≡ pairs_of (views words.now)) }
    ensures refused { OnErr result (IsTrue (are_several (pairs_of (views words.now)))) }
{
    if !has_scores(words) {
        return Ok(None);
    }
    Ok(Some(Pairs::Many(read_scored(alloc, words)?)))
}

/// Whether each first word of two is a score.
fn has_scores(words: &[Vec<u8>]) -> bool
    ensures { result ≡ is_some (pairs_of (views words.now)) }
{
    let mut rest = words;
    while let [score, _, others @ ..] = rest {
        if parse_score(score).is_none() {
            return false;
        }
        rest = others;
    }
    true
}

/// The pairs that these words write. It takes memory for them at once.
fn read_scored<'a>(alloc: Global, words: &'a [Vec<u8>]) -> Result<Vec<Pair<'a>>, AllocError>
    requires { IsTrue (is_some (pairs_of (views words.now))) }
    ensures { IfOk result (λ pairs. pairs_of (views words.now)
        ≡ Some (map pair_shown pairs.items)) }
{
    let mut pairs = Vec::with_capacity(alloc, words.len() / 2)?;
    let mut rest = words;
    while let [score, member, others @ ..] = rest {
        pairs.push(Pair::read(score, member).unwrap())?;
        rest = others;
    }
    Ok(pairs)
}
