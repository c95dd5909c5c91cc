//! Further requests on keys, read from the words of a request.

ghost use Rattle.std.specs.Option.{IfSome, option_map};
ghost use Rattle.std.specs.Prelude.{Err, IfOk, MatchResult, Ok, ◌≡◌};
ghost use Rattle.zq_dialect.specs.Asked.{Asks, Finds};
ghost use Rattle.zq_dialect.specs.Further.{asked_by, call_of, places_removed, scores_removed};
ghost use Rattle.zq_dialect.specs.declared.further.Further.TheVariants as further;
ghost use Rattle.zq_words.specs.Calls.{IsCallWithinLimits, call_shown};
ghost use Rattle.zq_words.specs.Words.{views};

use crate::further::{Further, find_further};
use zq_resp::Request;
use zq_words::{Range, Refused, SiteCall, parse_bound, parse_whole};

/// What a further request asks, and `None` for a request of another name: ZMSCORE, EXISTS, TYPE,
/// ZPOPMAX, ZREMRANGEBYSCORE and ZREMRANGEBYRANK. It takes no memory, and copies nothing.
///
/// [`Refused::Words`] where it does not take this number of words, [`Refused::Whole`] where a count
/// or a place is no whole number, [`Refused::Negative`] where a count is below 0, and
/// [`Refused::Bound`] where a bound of scores is none.
pub fn read_call(request: &Request) -> Result<Option<SiteCall<'_>>, Refused>
    ensures call { MatchResult result
        (λ found. call_of request.now ≡ Ok (option_map call_shown found))
        (λ refused. call_of request.now ≡ Err refused) }
    ensures limits { IfOk result
        (λ found. IfSome found (λ call. IsCallWithinLimits (call_shown call))) }
{
    find_call(request.words())
}

fn find_call(words: &[Vec<u8>]) -> Result<Option<SiteCall<'_>>, Refused>
    ensures { Finds result (call_of (views words.now)) }
{
    match words {
        [] => Ok(None),
        [word, others @ ..] => match find_further(word) {
            None => Ok(None),
            Some(known) => Ok(Some(read_further(known, others)?)),
        },
    }
}

fn read_further(known: Further, words: &[Vec<u8>]) -> Result<SiteCall<'_>, Refused>
    ensures { Asks result (asked_by known (views words.now)) }
{
    match known {
        Further::Zmscore => read_scores(words),
        Further::Exists => read_keys(words),
        Further::TypeOf => read_type(words),
        Further::Zpopmax => read_pop(words),
        Further::Zremrangebyscore => read_scores_removed(words),
        Further::Zremrangebyrank => read_places_removed(words),
    }
}

fn read_scores(words: &[Vec<u8>]) -> Result<SiteCall<'_>, Refused>
    ensures { Asks result (asked_by further.Zmscore (views words.now)) }
{
    match words {
        [key, members @ ..] if !members.is_empty() => Ok(SiteCall::Scores { key, members }),
        _ => Err(Refused::Words),
    }
}

fn read_keys(keys: &[Vec<u8>]) -> Result<SiteCall<'_>, Refused>
    ensures { Asks result (asked_by further.Exists (views keys.now)) }
{
    if keys.is_empty() {
        return Err(Refused::Words);
    }
    Ok(SiteCall::Exist { keys })
}

fn read_type(words: &[Vec<u8>]) -> Result<SiteCall<'_>, Refused>
    ensures { Asks result (asked_by further.TypeOf (views words.now)) }
{
    match words {
        [key] => Ok(SiteCall::TypeOf { key }),
        _ => Err(Refused::Words),
    }
}

fn read_pop(words: &[Vec<u8>]) -> Result<SiteCall<'_>, Refused>
    ensures { Asks result (asked_by further.Zpopmax (views words.now)) }
{
    match words {
        [key] => Ok(SiteCall::PopLast { key, count: 1 }),
        [key, count] => {
            let count = parse_whole(count).ok_or(Refused::Whole)?;
            if count < 0 {
                return Err(Refused::Negative);
            }
            Ok(SiteCall::PopLast { key, count })
        }
        _ => Err(Refused::Words),
    }
}

fn read_scores_removed(words: &[Vec<u8>]) -> Result<SiteCall<'_>, Refused>
    ensures { Asks result (asked_by further.Zremrangebyscore (views words.now)) }
{
    match words {
        [key, min, max] => {
            let min = parse_bound(min).ok_or(Refused::Bound)?;
            let max = parse_bound(max).ok_or(Refused::Bound)?;
            let window = None;
            Ok(SiteCall::RemoveRange {
                key,
                range: Range::ByScore { min, max, window },
            })
        }
        _ => Err(Refused::Words),
    }
}

fn read_places_removed(words: &[Vec<u8>]) -> Result<SiteCall<'_>, Refused>
    ensures { Asks result (asked_by further.Zremrangebyrank (views words.now)) }
{
    match words {
        [key, start, stop] => {
            let start = parse_whole(start).ok_or(Refused::Whole)?;
            let stop = parse_whole(stop).ok_or(Refused::Whole)?;
            Ok(SiteCall::RemoveRange {
                key,
                range: Range::ByPlace { start, stop },
            })
        }
        _ => Err(Refused::Words),
    }
}
