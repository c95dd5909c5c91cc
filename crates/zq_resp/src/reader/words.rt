//! The words of a request that is not whole yet.

ghost use Rattle.std.specs.Prelude.{◌≡◌, ◌<◌, ◌≤◌, ◌+◌, length, All, IfOk, IfErr};
ghost use Rattle.zq_resp.specs.Request.{IsWord};
ghost use Rattle.zq_resp.specs.Suspended.{IsStep, views};
ghost use Rattle.zq_resp.specs.Words.{AddsWord, AreSome, BeginsWords, WordsStep};

use crate::fault::FeedFault;
use crate::reader::progress::Progress;
use crate::reader::word::Word;
use std::alloc::Global;

/// The words of a request whose count is known, as far as they have been read: one at least is not
/// whole.
#[derive(Drop)]
pub struct Words {
    /// The words that are whole.
    pub found: Vec<Vec<u8>>,
    /// The word after those.
    pub next: Word,
    /// How many words are to come after that one.
    pub after: usize,
}

impl Words {
    /// So many words of which nothing has been read: `Whole` where there are none.
    pub fn new(alloc: Global, count: usize) -> Progress<Words, Vec<Vec<u8>>>
        requires { count ≤ 65536 }
        ensures { BeginsWords count result }
    {
        let found = Vec::new(alloc);
        if count == 0 {
            return Progress::Whole(found);
        }
        Progress::More(Words {
            found,
            next: Word::Start,
            after: count - 1,
        })
    }

    /// Reads on, and answers how many bytes that took: one at least.
    pub fn step(
        self,
        alloc: Global,
        bytes: &[u8],
    ) -> Result<(Progress<Words, Vec<Vec<u8>>>, usize), FeedFault>
        requires some { 0 < length bytes.now }
        requires are { AreSome self }
        ensures taken { IfOk result (IsStep bytes.now) }
        ensures step { WordsStep self bytes.now result }
    {
        let Words { found, next, after } = self;
        let (progress, taken) = next.step(alloc, bytes)?;
        match progress {
            Progress::More(next) => Ok((Progress::More(Words { found, next, after }), taken)),
            Progress::Whole(word) => Ok((added(found, word, after)?, taken)),
        }
    }
}

fn added(
    found: Vec<Vec<u8>>,
    word: Vec<u8>,
    after: usize,
) -> Result<Progress<Words, Vec<Vec<u8>>>, FeedFault>
    requires count { length found.items + 1 + after ≤ 65536 }
    requires each { All IsWord (views found) }
    requires is { IsWord word.items }
    ensures ok { IfOk result (AddsWord (views found) word.items after) }
    ensures err { IfErr result (λ e. e ≡ FeedFault.NoMemory) }
{
    let mut found = found;
    found.push(word)?;
    if after == 0 {
        return Ok(Progress::Whole(found));
    }
    Ok(Progress::More(Words {
        found,
        next: Word::Start,
        after: after - 1,
    }))
}
