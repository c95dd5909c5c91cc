//! What a log says of a start of its site.

ghost use Rattle.std.specs.Prelude.{IfErr, IfOk, OnErr, OnOk, Err, Ok, length, ◌++◌, ◌<◌, ◌^◌, ◌∷◌, ◌≡◌, ◌≤◌};
ghost use Rattle.zq_entries.specs.Answer.{Gives};
ghost use Rattle.zq_entries.specs.Entry as model;
ghost use Rattle.zq_entries.specs.Parts.{folder_at, identity_at};
ghost use Rattle.zq_entries.specs.Reading.{behind_format, start_at};
ghost use Rattle.zq_entries.specs.Spelling.{FORMAT as format_byte, start_bytes};
ghost use Rattle.zq_fields.specs.Reading as part;
ghost use Rattle.zq_model.specs.Sets.{IsHeaps};

use crate::fault::EntryFault;
use std::alloc::AllocError;
use zq_dots::{Rule, SITES, SiteNo};
use zq_fields::{
    PartFault, read_byte_in, read_number_in, read_rule, read_site, rule_byte, write_bytes,
    write_u64,
};

/// The number of bytes that name a folder.
pub const FOLDER: usize = 16;

/// The format that is written, and read.
const FORMAT: u8 = 1;

/// The number of sites.
const PAST: u8 = SITES as u8;

/// The most heaps of a site.
const MOST_HEAPS: u8 = 16;

/// Whose log it is, and how often its site was started: the first entry of a log, and one at each
/// start.
#[derive(Clone, Copy, Debug, PartialEq, Eq)]
pub struct Start {
    /// The site.
    pub site: SiteNo,
    /// Its number of heaps, 1 to 16.
    pub heaps: u8,
    /// The rule of its scores.
    pub rule: Rule,
    /// What names the folder of the log.
    pub folder: [u8; FOLDER],
    /// The number of this start, from 1.
    pub number: u64,
}

/// Takes what follows the kind.
pub(crate) fn read_start(whole: usize, bytes: &mut &[u8]) -> Result<Start, EntryFault>
    ensures exact { Gives (λ s. (model.start_of s, bytes.new.now)) result
        (start_at whole bytes.old.now) }
    ensures found { IfOk result
        (λ s. bytes.old.now ≡ start_bytes (model.start_of s) ++ bytes.new.now) }
    ensures heaps { IfOk result (λ s. IsHeaps s.heaps) }
    ensures some { IfOk result (λ s. 1 ≤ s.number) }
{
    read_format(bytes)?;
    let start = read_identity(whole, bytes)?;
    Ok(start)
}

/// Takes the format.
fn read_format(bytes: &mut &[u8]) -> Result<(), EntryFault>
    ensures exact { Gives (λ _. bytes.new.now) result (behind_format bytes.old.now) }
    ensures found { OnOk result (bytes.old.now ≡ format_byte ∷ bytes.new.now) }
{
    match bytes.split_first() {
        None => Err(EntryFault::Short),
        Some((format, rest)) => {
            if *format == FORMAT {
                *bytes = rest;
                Ok(())
            } else {
                Err(EntryFault::Format)
            }
        }
    }
}

/// Takes what follows the format.
#[tactic(auto, unfolding(crate::specs::Parts::identity_at, crate::specs::Spelling::start_bytes, zq_model::specs::Sets::SITES))]
fn read_identity(whole: usize, bytes: &mut &[u8]) -> Result<Start, PartFault>
    ensures exact { part.Gives (λ s. (model.start_of s, bytes.new.now)) result
        (identity_at whole bytes.old.now) }
    ensures found { IfOk result
        (λ s. format_byte ∷ bytes.old.now ≡ start_bytes (model.start_of s) ++ bytes.new.now) }
    ensures heaps { IfOk result (λ s. IsHeaps s.heaps) }
    ensures some { IfOk result (λ s. 1 ≤ s.number) }
{
    let site = read_site(whole, bytes, 0, PAST)?;
    let heaps = read_byte_in(whole, bytes, 1, MOST_HEAPS + 1)?;
    let rule = read_rule(whole, bytes)?;
    let folder = read_folder(bytes)?;
    let number = read_number_in(whole, bytes, 1, u64::MAX)?;
    Ok(Start {
        site,
        heaps,
        rule,
        folder,
        number,
    })
}

/// Takes the bytes that name a folder.
fn read_folder(bytes: &mut &[u8]) -> Result<[u8; FOLDER], PartFault>
    ensures exact { part.Gives (λ x. (x, bytes.new.now)) result (folder_at bytes.old.now) }
    ensures found { IfOk result (λ x. bytes.old.now ≡ x ++ bytes.new.now) }
{
    match bytes.split_first_chunk::<FOLDER>() {
        Some((folder, rest)) => {
            *bytes = rest;
            Ok(*folder)
        }
        None => Err(PartFault::Short),
    }
}

/// Appends what follows the kind.
#[tactic(auto, unfolding(crate::specs::Spelling::start_bytes))]
pub(crate) fn write_start(out: &mut Vec<u8>, start: &Start) -> Result<(), AllocError>
    requires heaps { IsHeaps start.now.heaps }
    requires some { 1 ≤ start.now.number }
    ensures written { OnOk result
        (out.new.items ≡ out.old.items ++ start_bytes (model.start_of start.now)) }
    ensures sound { OnOk result (model.IsStart (model.start_of start.now)) }
{
    let site = start.site.value();
    write_bytes(out, &[FORMAT, site, start.heaps, rule_byte(start.rule)])?;
    write_bytes(out, &start.folder)?;
    write_u64(out, start.number)
}
