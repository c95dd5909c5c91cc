//! What a peer says before the secret.

ghost use Rattle.std.specs.List.{find};
ghost use Rattle.std.specs.Prelude.{◌==◌, ◌≡◌};
ghost use Rattle.zq_wire.specs.Reading.{heaps_at, magic_at, peer_at, rule_at, site_at};
ghost use Rattle.zq_wire.specs.Steps.{Gives, byte_at};

use crate::met::Met;
use crate::range::read_version;
use crate::refusal::Refusal;
use crate::run_told::read_run;
use crate::side::{MAGIC, Side};
use crate::stop::Stop;
use zq_dots::{Rule, SiteNo};
use zq_fields::{read_byte, read_bytes, rule_byte};

/// Takes the greeting of a peer that agrees, up to the secret. After a stop the bytes that are left
/// are of no use.
#[tactic(auto, unfolding(crate::specs::Reading::peer_at))]
pub(crate) fn read_peer(side: &Side<'_>, bytes: &mut &[u8]) -> Result<Met, Stop>
    ensures { Gives (λ met. (met, bytes.new.now)) result (peer_at side.now bytes.old.now) }
{
    let rest = read_magic(bytes)?;
    let (version, rest) = read_version(side.versions, side.form, rest)?;
    *bytes = rest;
    let peer = read_site(side.site, side.peers, bytes)?;
    let rest = read_heaps(side.heaps, bytes)?;
    let rest = read_rule(side.rule, rest)?;
    let (run, rest) = read_run(side.form, side.heaps, rest)?;
    *bytes = rest;
    Ok(Met { peer, version, run })
}

/// Takes a byte.
pub(crate) fn read_next(bytes: &[u8]) -> Result<(u8, &[u8]), Stop>
    ensures { Gives (λ x. (x.0, x.1.now)) result (byte_at bytes.now) }
{
    match read_byte(bytes) {
        Some((byte, rest)) => Ok((byte, rest)),
        None => Err(Stop::Short),
    }
}

/// Takes the magic word.
#[tactic(auto, unfolding(crate::specs::Reading::magic_at))]
fn read_magic(bytes: &[u8]) -> Result<&[u8], Stop>
    ensures { Gives (λ rest. rest.now) result (magic_at bytes.now) }
{
    let Some((word, rest)) = read_bytes(bytes, 8) else {
        return Err(Stop::Short);
    };
    if word == MAGIC.as_slice() {
        Ok(rest)
    } else {
        Err(Stop::Refused(Refusal::Magic))
    }
}

/// Takes the number of a site that is not this one and is expected.
#[tactic(auto, unfolding(crate::specs::Reading::site_at))]
fn read_site(own: SiteNo, peers: &[SiteNo], bytes: &mut &[u8]) -> Result<SiteNo, Stop>
    ensures { Gives (λ peer. (peer, bytes.new.now)) result (site_at own peers.now bytes.old.now) }
{
    let (number, rest) = read_next(bytes)?;
    if number == own.value() {
        return Err(Stop::Refused(Refusal::SameSite));
    }
    let Some(peer) = find_peer(peers, number) else {
        return Err(Stop::Refused(Refusal::Unexpected(number)));
    };
    *bytes = rest;
    Ok(peer)
}

/// The site of this number among those that are expected.
fn find_peer(peers: &[SiteNo], number: u8) -> Option<SiteNo>
    ensures { result ≡ find (λ peer. peer == number) peers.now }
{
    peers.iter().copied().find(|peer| peer.value() == number)
}

/// Takes the number of heaps.
#[tactic(auto, unfolding(crate::specs::Reading::heaps_at))]
fn read_heaps(heaps: u8, bytes: &[u8]) -> Result<&[u8], Stop>
    ensures { Gives (λ rest. rest.now) result (heaps_at heaps bytes.now) }
{
    let (number, rest) = read_next(bytes)?;
    if number == heaps {
        Ok(rest)
    } else {
        Err(Stop::Refused(Refusal::Heaps(number)))
    }
}

/// Takes the rule.
#[tactic(auto, unfolding(crate::specs::Reading::rule_at))]
fn read_rule(rule: Rule, bytes: &[u8]) -> Result<&[u8], Stop>
    ensures { Gives (λ rest. rest.now) result (rule_at rule bytes.now) }
{
    let (byte, rest) = read_next(bytes)?;
    if byte == rule_byte(rule) {
        Ok(rest)
    } else {
        Err(Stop::Refused(Refusal::Rule))
    }
}
