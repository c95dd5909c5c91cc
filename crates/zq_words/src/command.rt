//! Commands, read from the words of a request.

ghost use Rattle.std.specs.Prelude.{◌≡◌, ◌≤◌, MatchResult, Ok};
ghost use Rattle.zq_words.specs.Command.{command_of};
ghost use Rattle.zq_words.specs.Heaps.{heaps_of as heaps_named};
ghost use Rattle.zq_words.specs.Limits.{IsWithinLimits};
ghost use Rattle.zq_words.specs.Shown.{IsRefusal, shown};

use crate::heaps::{Heaps, heaps_of};
use crate::kind::Kind;
use crate::named::read_words;
use crate::refused::Refused;
use std::alloc::Global;
use std::marker::Model;
use zq_resp::Request;

/// A command over the words of the request that it was read from. Its keys and members have at most
/// 1,048,576 bytes, its scores an amount of at most 9,007,199,254,740,992.
#[derive(Debug, Drop)]
pub struct Command<'a> {
    kind: Kind<'a>,
}

impl<'a> Model for Command<'a> {
    ghost use Rattle.zq_words.specs.Command.{Command};
    ghost use Rattle.zq_words.specs.Limits.{IsWithinLimits};
    ghost use Rattle.zq_words.specs.Shown.{shown};

    ghost Value = { Command };

    ghost view = { λ c. shown c.kind };

    ghost invariant = { λ c. IsWithinLimits (shown c.kind) };
}

impl<'a> Command<'a> {
    /// The command that the request's words are, or the first reason for which they are none. Only
    /// ZADD of several pairs takes memory.
    pub fn read(alloc: Global, request: &'a Request) -> Result<Self, Refused>
        ensures { MatchResult result (λ c. command_of request.now ≡ Ok c)
            (λ refused. IsRefusal refused (command_of request.now)) }
    {
        let kind = read_words(alloc, request.words())?;
        Ok(Command { kind })
    }

    /// What it asks for.
    pub fn kind(&self) -> &Kind<'a>
        ensures kind { shown result.now ≡ self.now }
        ensures limits { IsWithinLimits self.now }
    {
        &self.kind
    }

    /// The heaps that it works in, of 1 to 16 heaps: one for ZADD and ZREM of one member, ZADD with
    /// INCR, ZINCRBY and ZSCORE, two that are drawn for ZPOPNEAR, none for PING, and all for the
    /// others.
    pub fn heaps(&self, heaps: u8) -> Heaps
        requires { (1 ≤ heaps) × (heaps ≤ 16) }
        ensures { result ≡ heaps_named self.now heaps }
    {
        heaps_of(&self.kind, heaps)
    }
}
