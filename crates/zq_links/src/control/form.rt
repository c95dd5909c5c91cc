//! The form of a Fetch, and what a stage stands at.

ghost use Rattle.std.specs.Prelude.{IfOk, IfSome, OnOk, ◌++◌, ◌≡◌};
ghost use Rattle.zq_fields.specs.Reading.{Gives};
ghost use Rattle.zq_links.specs.Control.{IsResume};
ghost use Rattle.zq_links.specs.ControlParts as read;
ghost use Rattle.zq_links.specs.ControlSpelling as spell;
ghost use Rattle.zq_model.specs.Sets.{IsCounters};

use crate::control::Resume;
use crate::step::{read_step, write_step};
use std::alloc::AllocError;
use zq_fields::{PartFault, read_byte_in, read_sparse, write_byte, write_sparse};

/// Takes what a stage stands at.
#[tactic(auto, unfolding(crate::specs::ControlParts::resume_at, crate::specs::ControlSpelling::resume_bytes))]
fn read_resume(whole: usize, bytes: &mut &[u8]) -> Result<Resume, PartFault>
    ensures exact { Gives (λ x. (x, bytes.new.now)) result (read.resume_at whole bytes.old.now) }
    ensures found { IfOk result (λ x. bytes.old.now ≡ spell.resume_bytes x ++ bytes.new.now) }
    ensures counters { IfOk result (λ x. IsCounters x.vector) }
{
    let (life, number, next) = read_step(bytes)?;
    let vector = read_sparse(whole, None, bytes)?;
    Ok(Resume {
        life,
        number,
        next,
        vector,
    })
}

/// Appends what a stage stands at.
#[tactic(auto, unfolding(crate::specs::ControlSpelling::resume_bytes))]
fn write_resume(out: &mut Vec<u8>, resume: &Resume) -> Result<(), AllocError>
    requires { IsCounters resume.now.vector }
    ensures written { OnOk result
        (out.new.items ≡ out.old.items ++ spell.resume_bytes resume.now) }
    ensures sound { OnOk result (IsResume resume.now) }
{
    write_step(out, resume.life, resume.number, &resume.next)?;
    write_sparse(out, &resume.vector)
}

/// Takes the form, and what a stage stands at where there is one: 0 is none, and 1 is one.
#[tactic(auto, unfolding(crate::specs::ControlParts::form_at))]
pub(crate) fn read_form(whole: usize, bytes: &mut &[u8]) -> Result<Option<Resume>, PartFault>
    ensures exact { Gives (λ x. (x, bytes.new.now)) result (read.form_at whole bytes.old.now) }
    ensures found { IfOk result (λ x. bytes.old.now ≡ spell.form_bytes x ++ bytes.new.now) }
    ensures counters { IfOk result (λ x. IfSome x (λ r. IsCounters r.vector)) }
{
    let form = read_byte_in(whole, bytes, 0, 2)?;
    if form == 1 {
        let resume = read_resume(whole, bytes)?;
        Ok(Some(resume))
    } else {
        Ok(None)
    }
}

/// Appends the form, and what a stage stands at where there is one.
pub(crate) fn write_form(out: &mut Vec<u8>, resume: &Option<Resume>) -> Result<(), AllocError>
    requires { IfSome resume.now (λ r. IsCounters r.vector) }
    ensures written { OnOk result (out.new.items ≡ out.old.items ++ spell.form_bytes resume.now) }
    ensures sound { OnOk result (IfSome resume.now IsResume) }
{
    match resume {
        None => write_byte(out, 0),
        Some(resume) => {
            write_byte(out, 1)?;
            write_resume(out, resume)
        }
    }
}
