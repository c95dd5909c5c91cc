//! The versions of a greeting, and its form.

ghost use Rattle.std.specs.Prelude.{◌≡◌};
ghost use Rattle.zq_wire.specs.Ranges.{agreed_at, new_at, old_at, same_form, version_at};
ghost use Rattle.zq_wire.specs.Ranges as ranges;
ghost use Rattle.zq_wire.specs.Steps.{Gives};

use crate::form::Form;
use crate::mark::{ONE, RANGE};
use crate::peer::read_next;
use crate::refusal::Refusal;
use crate::stop::Stop;
use crate::versions::Versions;

/// Takes the versions of a peer that greets in this form: the greatest that both speak.
#[tactic(auto, unfolding(crate::specs::Ranges::version_at))]
pub(crate) fn read_version(own: Versions, form: Form, bytes: &[u8]) -> Result<(u8, &[u8]), Stop>
    ensures { Gives (λ x. (x.0, x.1.now)) result (version_at own form bytes.now) }
{
    let (mark, rest) = read_next(bytes)?;
    if mark == RANGE {
        return read_new(own, form, rest);
    }
    if mark == ONE {
        let version = read_old(own, form)?;
        return Ok((version, rest));
    }
    let heard = only(mark);
    Err(Stop::Refused(Refusal::Version { heard, own }))
}

/// Takes the lowest and the highest version of a greeting in the new form.
#[tactic(auto, unfolding(crate::specs::Ranges::new_at))]
fn read_new(own: Versions, form: Form, bytes: &[u8]) -> Result<(u8, &[u8]), Stop>
    ensures { Gives (λ x. (x.0, x.1.now)) result (new_at own form bytes.now) }
{
    let (lowest, rest) = read_next(bytes)?;
    let (highest, rest) = read_next(rest)?;
    let version = agree(own, Versions { lowest, highest })?;
    expect(form, Form::New)?;
    Ok((version, rest))
}

/// The version of a greeting in the old form.
fn read_old(own: Versions, form: Form) -> Result<u8, Stop>
    ensures { result ≡ old_at own form }
{
    let version = agree(own, only(ONE))?;
    expect(form, Form::Old)?;
    Ok(version)
}

/// A range of one version.
fn only(version: u8) -> Versions
    ensures { result ≡ ranges.only version }
{
    Versions {
        lowest: version,
        highest: version,
    }
}

/// The greatest version that both ranges have.
fn agree(own: Versions, heard: Versions) -> Result<u8, Stop>
    ensures { result ≡ agreed_at own heard }
{
    match own.agree(heard) {
        Some(version) => Ok(version),
        None => Err(Stop::Refused(Refusal::Version { heard, own })),
    }
}

/// That a greeting is in the form that is expected.
fn expect(form: Form, heard: Form) -> Result<(), Stop>
    ensures { result ≡ same_form form heard }
{
    if form == heard {
        Ok(())
    } else {
        Err(Stop::Refused(Refusal::Form(heard)))
    }
}
