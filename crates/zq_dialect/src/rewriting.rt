//! Requests that are rewritten.

ghost use Rattle.std.specs.Prelude.{◌≡◌, ◌∷◌, Ok, Some};
ghost use Rattle.zq_dialect.specs.Names.{name_of};
ghost use Rattle.zq_dialect.specs.Rewrites.{Gives, Rewrites};
ghost use Rattle.zq_dialect.specs.Said.{plain, said, said_of};
ghost use Rattle.zq_words.specs.Words.{views};

use crate::building::Words;
use crate::name::{Name, find_name};
use crate::older::{rename, rewrite_older};
use crate::plain::{counted_ends, ranged_ends, rewrite_ends, rewrite_zadd, rewrite_zincrby};
use std::alloc::Global;
use zq_resp::Request;
use zq_words::Refused;

/// The request that is read in place of this one, and `None` where that is this one itself.
///
/// - ZREVRANGE, ZRANGEBYSCORE and ZREVRANGEBYSCORE become ZRANGE with REV, BYSCORE or both, and
///   UNLINK becomes DEL.
/// - Scores of ZADD, increments of ZINCRBY and bounds of scores that are whole numbers in another
///   spelling become digits: `1.7e+12`, `.5e1`. A bound that is no whole number becomes the next
///   whole one inside the range. Any other text stays, and is refused when the request is read.
///
/// [`Refused::Syntax`] where the client says BYSCORE or REV behind an older name,
/// [`Refused::Words`] where more than 65,530 options stand there, and [`Refused::NoMemory`] where
/// there was no memory for the words. A request that stays takes no memory, and nothing is copied.
pub fn rewritten(alloc: Global, request: &Request) -> Result<Option<Request>, Refused>
    ensures { Rewrites result request.now (said_of request.now) }
{
    match rewrite(alloc, request.words())? {
        Some(words) => Ok(Some(made(request, words))),
        None => Ok(None),
    }
}

/// The request of the words that were made of this one.
fn made(request: &Request, words: Words) -> Request
    requires { said_of request.now ≡ Ok (views words.items) }
    ensures { result ≡ views words.items }
{
    let _words = request.words();
    Request::new(words)
}

fn rewrite(alloc: Global, words: &[Vec<u8>]) -> Result<Option<Words>, Refused>
    ensures { Gives result (views words.now) (said_of (views words.now)) }
{
    match words {
        [] => Ok(None),
        [word, others @ ..] => match find_name(word) {
            None => Ok(None),
            Some(name) => rewrite_named(alloc, name, word, others),
        },
    }
}

/// The words behind a name that is known.
#[tactic(auto, using(crate::proofs::Refusing::older_refused, crate::proofs::Refusing::unlinked_other))]
fn rewrite_named(
    alloc: Global,
    name: Name,
    word: &[u8],
    words: &[Vec<u8>],
) -> Result<Option<Words>, Refused>
    requires { name_of word.now ≡ Some name }
    ensures { Gives result (word.now ∷ views words.now)
        (said name word.now (plain name (views words.now))) }
{
    match name {
        Name::Zadd => rewrite_zadd(alloc, word, words),
        Name::Zincrby => rewrite_zincrby(alloc, word, words),
        Name::Zcount | Name::Zremrangebyscore => {
            rewrite_ends(alloc, word, words, counted_ends())
        }
        Name::Zrange => rewrite_ends(alloc, word, words, ranged_ends(words)),
        Name::Older(ends) => Ok(Some(rewrite_older(alloc, words, ends)?)),
        Name::Unlink => Ok(Some(rename(alloc, b"DEL", words)?)),
    }
}
