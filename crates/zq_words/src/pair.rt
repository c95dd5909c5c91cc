//! A score and a member.

ghost use Rattle.std.specs.Prelude.{◌≡◌};
ghost use Rattle.std.specs.Option.{is_some, option_map};
ghost use Rattle.zq_words.specs.Words.{written_score};
ghost use Rattle.zq_words.specs.Shown.{pair_shown};

use crate::number::parse_score;

/// A member, and its score or what is added to it. The score's amount is at most 9007199254740992
/// in what [`crate::Command::read`] gives.
#[derive(Clone, Copy, Debug, PartialEq, Eq)]
pub struct Pair<'a> {
    pub score: i64,
    pub member: &'a [u8],
}

impl<'a> Pair<'a> {
    /// The pair of a score's text and a member, and `None` where the text is no score.
    pub(crate) fn read(score: &[u8], member: &'a [u8]) -> Option<Self>
        ensures shown { option_map pair_shown result
            ≡ option_map (λ score. (score, member.now)) (written_score score.now) }
        ensures is_read { is_some result ≡ is_some (written_score score.now) }
    {
        let score = parse_score(score)?;
        Some(Pair { score, member })
    }
}
