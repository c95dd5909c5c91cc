//! The answers that sites with a secret owe to one another.

ghost use Rattle.std.specs.Prelude.{◌++◌, ◌≡◌, length};
ghost use Rattle.zq_wire.specs.Hmac.{hmac};
ghost use Rattle.zq_wire.specs.Reading.{answer_at};
ghost use Rattle.zq_wire.specs.Said as said;
ghost use Rattle.zq_wire.specs.Steps.{Gives};

use crate::form::Form;
use crate::refusal::Refusal;
use crate::side::NONCE;
use crate::stop::Stop;
use crate::{is_same_tag, mac};
use zq_dots::SiteNo;

/// One of the two sites of a link, as an answer names it.
#[derive(Clone, Copy, Debug)]
pub(crate) struct Party<'a> {
    /// Its number.
    pub(crate) site: SiteNo,
    /// Its nonce.
    pub(crate) nonce: [u8; NONCE],
    /// What the answer covers of its greeting.
    pub(crate) greeting: &'a [u8],
}

/// The answer that one site owes to the other.
pub(crate) fn answer(key: &[u8], version: u8, own: &Party<'_>, other: &Party<'_>) -> [u8; 32]
    ensures { result ≡ said.answer key.now version (said.claimant_of own.now)
        (said.claimant_of other.now) }
{
    let head = [version, own.site.value(), other.site.value()];
    tag_of(
        key,
        &head,
        &own.nonce,
        &other.nonce,
        own.greeting,
        other.greeting,
    )
}

/// The tag of these, one after the other.
fn tag_of(
    key: &[u8],
    head: &[u8; 3],
    own_nonce: &[u8; NONCE],
    other_nonce: &[u8; NONCE],
    own_greeting: &[u8],
    other_greeting: &[u8],
) -> [u8; 32]
    ensures { result ≡ hmac key.now (head.now ++ (own_nonce.now ++ (other_nonce.now
        ++ (own_greeting.now ++ other_greeting.now)))) }
{
    mac(
        key,
        &[head, own_nonce, other_nonce, own_greeting, other_greeting],
    )
}

/// What an answer covers of a greeting: all of it in the new form, and nothing in the old one.
pub(crate) fn covered(form: Form, greeting: &[u8]) -> &[u8]
    ensures { result.now ≡ said.covered form greeting.now }
{
    match form {
        Form::Old => &[],
        Form::New => greeting,
    }
}

/// Takes this answer, which is compared in a time that says nothing of where it differs.
#[tactic(auto, unfolding(crate::specs::Reading::answer_at))]
pub(crate) fn read_answer<'a>(owed: &[u8; 32], bytes: &'a [u8]) -> Result<&'a [u8], Stop>
    ensures { Gives (λ rest. rest.now) result (answer_at owed.now bytes.now) }
{
    let Some((said, rest)) = bytes.split_first_chunk::<32>() else {
        return Err(Stop::Short);
    };
    if is_same_tag(said, owed) {
        Ok(rest)
    } else {
        Err(Stop::Refused(Refusal::Answer))
    }
}
