//! What a log holds, in lines.

ghost use Rattle.std.specs.Prelude.{IfOk, OnOk, length, ◌++◌, ◌≡◌};
ghost use Rattle.zq_inspect.specs.Report as lines;
ghost use Rattle.zq_model.specs.Rows.{rows_of};

use crate::inspection::Inspection;
use crate::keys::count_keys;
use crate::lines::{add_hex_all, add_number, add_number_line, add_word_line};
use crate::state::State;
use crate::words::fault_words;
use std::alloc::{AllocError, Global};
use zq_dots::{Rule, SiteNo};
use zq_entries::Start;
use zq_keeper::Reader;
use zq_stage::Stage;

/// What names a state.
fn state_word(state: State) -> &'static [u8]
    ensures { result.now ≡ lines.state_word state }
{
    match state {
        State::Whole => b"whole",
        State::Torn => b"torn",
        State::Empty => b"empty",
        State::Damaged => b"damaged",
        State::Refused(_) => b"refused",
    }
}

/// What names a rule, as the settings do.
fn rule_word(rule: Rule) -> &'static [u8]
    ensures { result.now ≡ lines.rule_word rule }
{
    match rule {
        Rule::High => b"HIGH",
        Rule::Low => b"LOW",
    }
}

/// Appends the lines of a log's state: where it is not whole, at which byte and why.
fn add_state(text: &mut Vec<u8>, log: &Inspection) -> Result<(), AllocError>
    ensures { OnOk result (text.new.items ≡ text.old.items ++ lines.state_lines log.now) }
{
    add_word_line(text, b"state", state_word(log.state))?;
    if let Some(words) = fault_words(log.state) {
        add_number_line(text, b"at", log.place)?;
        add_word_line(text, b"why", words.as_bytes())?;
    }
    Ok(())
}

/// Appends the lines of how long a log is.
fn add_sizes(text: &mut Vec<u8>, log: &Inspection) -> Result<(), AllocError>
    ensures { OnOk result (text.new.items ≡ text.old.items ++ lines.size_lines log.now) }
{
    add_number_line(text, b"records", log.records)?;
    add_number_line(text, b"bytes", log.bytes)?;
    add_number_line(text, b"torn", log.torn)?;
    add_number_line(text, b"ahead", log.ahead)
}

/// Appends the lines of whose log it is, and which start was the last.
fn add_start(text: &mut Vec<u8>, start: &Start) -> Result<(), AllocError>
    ensures { OnOk result (text.new.items ≡ text.old.items ++ lines.start_lines start.now) }
{
    add_number_line(text, b"site", start.site.value() as u64)?;
    add_number_line(text, b"heaps", start.heaps as u64)?;
    add_word_line(text, b"rule", rule_word(start.rule))?;
    text.extend_from_slice(b"run ")?;
    add_hex_all(text, &start.folder)?;
    text.push(b'\n')?;
    add_number_line(text, b"start", start.number)
}

/// How many keys a heap has, and how many members.
fn counted(alloc: Global, stage: &Stage) -> Result<(u64, u64), AllocError>
    ensures keys { IfOk result (λ n. n.0 ≡ lines.key_count stage.now) }
    ensures members { IfOk result (λ n. n.1 ≡ length (rows_of stage.now.held.image)) }
{
    let rows = stage.held().rows(alloc)?;
    Ok((count_keys(&rows) as u64, rows.len() as u64))
}

/// Appends a heap's line: how many keys and members it has, and the counter of the site's last
/// operation in it.
fn add_heap(
    alloc: Global,
    text: &mut Vec<u8>,
    stage: &Stage,
    site: SiteNo,
) -> Result<(), AllocError>
    ensures { OnOk result
        (text.new.items ≡ text.old.items ++ lines.heap_line site stage.now) }
{
    let (keys, members) = counted(alloc, stage)?;
    text.extend_from_slice(b"heap ")?;
    add_number(text, stage.held().heap() as u64)?;
    text.extend_from_slice(b" keys ")?;
    add_number(text, keys)?;
    text.extend_from_slice(b" members ")?;
    add_number(text, members)?;
    text.extend_from_slice(b" own ")?;
    add_number(text, stage.vector().get(site))?;
    text.extend_from_slice(end_of(stage))
}

/// How a heap's line ends.
fn end_of(stage: &Stage) -> &'static [u8]
    ensures { result.now ≡ lines.end_of stage.now }
{
    if stage.is_whole() {
        b"\n"
    } else {
        b" pieces missing\n"
    }
}

/// Appends the lines of a site's heaps.
fn add_heaps(
    alloc: Global,
    text: &mut Vec<u8>,
    stages: &[Stage],
    site: SiteNo,
) -> Result<(), AllocError>
    ensures { OnOk result
        (text.new.items ≡ text.old.items ++ lines.heap_lines site stages.now) }
{
    for stage in stages {
        add_heap(alloc, text, stage, site)?;
    }
    Ok(())
}

/// Appends the lines of a site as its log says, once this has a start of it.
fn add_site(alloc: Global, text: &mut Vec<u8>, reader: &Reader) -> Result<(), AllocError>
    ensures { OnOk result (text.new.items ≡ text.old.items ++ lines.site_lines reader.now) }
{
    let recovery = &reader.recovery;
    let Some(start) = &recovery.start else {
        return Ok(());
    };
    add_start(text, start)?;
    add_heaps(alloc, text, &recovery.stages, recovery.identity.site)
}

/// What a log holds, in lines: its state, its length, and whose it is with each of its heaps.
pub fn report(alloc: Global, log: &Inspection) -> Result<Vec<u8>, AllocError>
    ensures { IfOk result (λ text. text.items ≡ lines.report_lines log.now) }
{
    let mut text = Vec::new(alloc);
    add_state(&mut text, log)?;
    add_sizes(&mut text, log)?;
    if let Some(reader) = &log.reader {
        add_site(alloc, &mut text, reader)?;
    }
    Ok(text)
}
