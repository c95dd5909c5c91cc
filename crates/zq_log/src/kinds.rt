//! Kinds of messages, each with its limit.

ghost use Rattle.std.specs.Prelude.{All, HoldsAt, IfSome, IsNone, length, take, ◌<◌, ◌≡◌, ◌≢◌, ◌≤◌};
ghost use Rattle.zq_log.specs.Kinds.{kind};
ghost use Rattle.zq_log.specs.Kinds as wanted;

use crate::limiter::Limiter;
use std::alloc::{AllocError, Global};

/// The words of a message that make its kind, and the most bytes of them.
const WORDS: u8 = 3;

const MOST_BYTES: usize = 32;

/// The most kinds that are told apart.
const MOST_KINDS: usize = 512;

/// A kind of messages, and the limit of its lines.
#[derive(Drop)]
pub struct Kind {
    /// What its messages begin with.
    pub words: Vec<u8>,
    /// How many of its lines there may be.
    pub limiter: Limiter,
}

/// The kinds of messages that came so far, each with its limit.
#[derive(Drop)]
pub struct Kinds {
    pub known: Vec<Kind>,
}

/// The kind of a message: its first three words, and of those at most 32 bytes. So the number of
/// the site and the verb tell messages apart, and the address of a stranger does not.
pub fn kind_of(message: &[u8]) -> &[u8]
    ensures { result.now ≡ kind message.now }
{
    &message[..words_len(message, WORDS, MOST_BYTES)]
}

/// How many bytes so many words have at the front of a text, and how many of them at most.
fn words_len(text: &[u8], words: u8, most: usize) -> usize
    requires { 1 ≤ words }
    ensures bound { result ≤ length text.now }
    ensures value { take result text.now ≡ take most (wanted.words words text.now) }
{
    if most == 0 {
        return 0;
    }
    match text {
        [] => 0,
        [b' ', ..] if words == 1 => 0,
        [b' ', rest @ ..] => 1 + words_len(rest, words - 1, most - 1),
        [_, rest @ ..] => 1 + words_len(rest, words, most - 1),
    }
}

impl Kinds {
    ghost use Rattle.std.specs.Prelude.{All, ◌≡◌, ◌≢◌, []};
    ghost use Rattle.zq_log.specs.Kinds.{IsAdmitted, IsLearnt};

    /// No kinds.
    pub fn new(alloc: Global) -> Kinds
        ensures { result.known.items ≡ [] }
    {
        Kinds {
            known: Vec::new(alloc),
        }
    }

    /// A line of this kind comes at this time, in milliseconds from any start. Where it passes the
    /// answer says how many of its kind were held back before it; where it is held back there is
    /// none. A kind past the 512th, or one that there is no memory for, has no limit.
    pub fn admit(&mut self, alloc: Global, kind: &[u8], now: u64) -> Option<u64>
        ensures { IsAdmitted kind.now now self.old.known.items result self.new.known.items }
    {
        match place_of(self.known.as_slice(), kind) {
            Some(place) => {
                let known = &mut self.known[place];
                known.limiter.admit(now)
            }
            None => {
                let _ = self.learn(alloc, kind, now);
                Some(0)
            }
        }
    }

    /// A kind that is not known yet, of which a line passes now.
    fn learn(&mut self, alloc: Global, kind: &[u8], now: u64) -> Result<(), AllocError>
        ensures { IsLearnt kind.now now self.old.known.items self.new.known.items }
    {
        if self.known.len() >= MOST_KINDS {
            return Ok(());
        }
        let mut limiter = Limiter::new();
        let _ = limiter.admit(now);
        let words = Vec::from_slice(alloc, kind)?;
        self.known.push(Kind { words, limiter })?;
        Ok(())
    }
}

/// The place of a kind.
fn place_of(known: &[Kind], kind: &[u8]) -> Option<usize>
    ensures found { IfSome result (λ place. (place < length known.now)
        × HoldsAt (λ k. k.words.items ≡ kind.now) known.now place) }
    ensures none { IsNone result → All (λ k. k.words.items ≢ kind.now) known.now }
{
    for place in 0..known.len() {
        if known[place].words.as_slice() == kind {
            return Some(place);
        }
    }
    None
}
