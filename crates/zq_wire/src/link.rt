//! Opening a link over what is read of a peer and what is written to it.

ghost use Rattle.std.specs.Io.KnownBytes.{Appends, Consumes};
ghost use Rattle.std.specs.Prelude.{IfOk, List, OnOk, drop, vec_len, ℕ, ◌++◌, ◌<◌, ◌≡◌};
ghost use Rattle.zq_wire.specs.Links.{Accepts, Greets, Hears, Opens, Pays, answer_in};
ghost use Rattle.zq_wire.specs.Links as links;

use crate::form::Form;
use crate::greeting::write_greeting;
use crate::mark::{ONE, RANGE};
use crate::opening::{Opening, hear_opening};
use crate::refusal::Refusal;
use crate::run::Run;
use crate::side::{MAGIC, Side};
use crate::versions::Versions;
use std::alloc::{AllocError, Global};
use std::io;
use std::io::{Read, Write};
use zq_dots::SiteNo;

/// Why a link was not opened.
#[derive(Clone, Copy, Debug, PartialEq, Eq)]
pub enum Unopened {
    /// The peer is not welcome.
    Refused(Refusal),
    /// The peer greets in the old form, and was greeted in the new one, which it refuses: it has to
    /// be greeted in the old form when it is dialled next.
    Old,
    /// A read or a write failed, what is read ended or came in too many pieces, or there was no
    /// memory.
    Lost,
}

impl From<AllocError> for Unopened {
    ghost use Rattle.std.specs.Prelude.{◌≡◌};
    ghost use Rattle.zq_wire.specs.declared.link.Unopened.TheVariants.{Lost};

    ghost from_gives = { λ _ why. why ≡ Lost };

    fn from(_error: AllocError) -> Unopened {
        Unopened::Lost
    }
}

impl From<io::Error> for Unopened {
    ghost use Rattle.std.specs.Prelude.{◌≡◌};
    ghost use Rattle.zq_wire.specs.declared.link.Unopened.TheVariants.{Lost};

    ghost from_gives = { λ _ why. why ≡ Lost };

    fn from(_error: io::Error) -> Unopened {
        Unopened::Lost
    }
}

/// A link that was opened.
#[derive(Debug, Drop)]
pub struct Opened {
    /// The peer.
    pub peer: SiteNo,
    /// The version that is spoken: the greatest that both sites speak.
    pub version: u8,
    /// What the peer said of its run, where it greeted in the new form.
    pub run: Option<Run>,
    /// The bytes of frames that came with the last bytes of the opening.
    pub first: Vec<u8>,
}

/// How many bytes an opening is read by at once.
const SOME: usize = 64;

/// How many bytes are heard before it is known in which form a peer greets.
const MARKED: usize = 9;

/// How often it is looked at what was heard, at most: each read between two looks brings a byte,
/// and a greeting and an answer have 215 at most.
const MOST_LOOKS: usize = 216;

/// Opens a link that this site dialled: writes the greeting of this site, in its form, and hears
/// the peer until it is welcome. The answer that the peer is owed is written once, as soon as it is
/// due.
///
/// # Errors
///
/// `Refused` as [`hear_opening`] says of all that was read, `Old` where that is a greeting in the
/// old form and this site greeted in the new one, and `Lost`.
pub fn dial_over<R: Read, W: Write>(
    alloc: Global,
    side: &Side<'_>,
    reader: &mut R,
    writer: &mut W,
) -> Result<Opened, Unopened>
    ensures { Opens side.now (R.remaining reader.old) (R.remaining reader.new)
        (W.contents writer.old) (W.contents writer.new) result }
{
    greet(alloc, side, Vec::new(alloc), reader, writer)
}

/// Opens a link that this site accepted: hears in which form the peer greets, and goes on in that
/// form as a site that dialled does. The old form is answered in the new one where this site does
/// not speak version 1; the peer is then refused.
///
/// # Errors
///
/// `Refused` as [`hear_opening`] says of all that was read, and `Lost`.
pub fn accept_over<R: Read, W: Write>(
    alloc: Global,
    side: &Side<'_>,
    reader: &mut R,
    writer: &mut W,
) -> Result<Opened, Unopened>
    ensures { Accepts side.now (R.remaining reader.old) (R.remaining reader.new)
        (W.contents writer.old) (W.contents writer.new) result }
{
    let mut heard = Vec::new(alloc);
    while heard.len() < MARKED {
        read_some(reader, &mut heard)?;
    }
    let answering = Side {
        form: form_heard(side.versions, &heard),
        ..*side
    };
    greet(alloc, &answering, heard, reader, writer)
}

/// The form in which a site of these versions answers a greeting that begins so.
fn form_heard(versions: Versions, heard: &[u8]) -> Form
    ensures { result ≡ links.form_heard versions heard.now }
{
    let mark = heard.get(MAGIC.len()).copied().unwrap_or(RANGE);
    if mark == ONE && versions.lowest <= ONE {
        Form::Old
    } else {
        Form::New
    }
}

/// Writes the greeting of this site, and hears the peer, of whom these bytes were heard, until it
/// is welcome.
fn greet<R: Read, W: Write>(
    alloc: Global,
    side: &Side<'_>,
    heard: Vec<u8>,
    reader: &mut R,
    writer: &mut W,
) -> Result<Opened, Unopened>
    ensures { Greets side.now heard.items (R.remaining reader.old) (R.remaining reader.new)
        (W.contents writer.old) (W.contents writer.new) result }
{
    let mut said = Vec::new(alloc);
    write_greeting(&mut said, side)?;
    writer.write_all(&said)?;
    hear_peer(alloc, side, &said, heard, reader, writer)
}

/// Hears the peer, of whom these bytes were heard, until it is welcome, and writes the answer that
/// it is owed.
fn hear_peer<R: Read, W: Write>(
    alloc: Global,
    side: &Side<'_>,
    said: &[u8],
    heard: Vec<u8>,
    reader: &mut R,
    writer: &mut W,
) -> Result<Opened, Unopened>
    ensures { Hears side.now said.now heard.items (R.remaining reader.old) (R.remaining reader.new)
        (W.contents writer.old) (W.contents writer.new) result }
{
    let mut heard = heard;
    let mut owed = true;
    for _ in 0..MOST_LOOKS {
        let opening = match hear_opening(side, said, &heard) {
            Ok(opening) => opening,
            Err(refusal) => return Err(reason_of(refusal)),
        };
        owed = write_owed(writer, owed, answer_of(&opening))?;
        if let Opening::Welcome {
            peer,
            version,
            run,
            used,
            ..
        } = opening
        {
            let first = frames_after(alloc, &heard, used)?;
            return Ok(Opened {
                peer,
                version,
                run,
                first,
            });
        }
        read_some(reader, &mut heard)?;
    }
    Err(Unopened::Lost)
}

/// Why a link is not opened to a peer that is refused.
fn reason_of(refusal: Refusal) -> Unopened
    ensures { result ≡ links.reason_of refusal }
{
    match refusal {
        Refusal::Form(Form::Old) => Unopened::Old,
        other => Unopened::Refused(other),
    }
}

/// Appends what comes next, at least a byte.
fn read_some<R: Read>(reader: &mut R, heard: &mut Vec<u8>) -> Result<(), Unopened>
    ensures read { OnOk result ((piece : List ℕ)
        × Consumes (R.remaining reader.old) (R.remaining reader.new) piece
        × (heard.new.items ≡ heard.old.items ++ piece)) }
    ensures some { OnOk result (vec_len heard.old < vec_len heard.new) }
    ensures lost { (why : Unopened) → result ≡ Err why → why ≡ Unopened.Lost }
{
    let mut piece = [0u8; SOME];
    let count = reader.read(&mut piece)?;
    if count == 0 {
        return Err(Unopened::Lost);
    }
    heard.extend_from_slice(&piece[..count])?;
    Ok(())
}

/// What this site owes to the peer, as far as the opening has come.
fn answer_of(opening: &Opening) -> Option<[u8; 32]>
    ensures { result ≡ answer_in opening.now }
{
    match opening {
        Opening::Waits => None,
        Opening::Answers { answer } => Some(*answer),
        Opening::Welcome { answer, .. } => *answer,
    }
}

/// Writes the answer where it is still owed, and says whether it is owed any longer.
fn write_owed<W: Write>(
    writer: &mut W,
    owed: bool,
    answer: Option<[u8; 32]>,
) -> Result<bool, Unopened>
    ensures paid { IfOk result
        (λ owes. Pays owed owes (W.contents writer.old) (W.contents writer.new) answer) }
    ensures lost { (why : Unopened) → result ≡ Err why → why ≡ Unopened.Lost }
{
    match answer {
        Some(answer) if owed => {
            writer.write_all(&answer)?;
            Ok(false)
        }
        _ => Ok(owed),
    }
}

/// The bytes of frames that came behind an opening of so many bytes.
fn frames_after(alloc: Global, heard: &[u8], used: usize) -> Result<Vec<u8>, Unopened>
    ensures first { IfOk result (λ first. first.items ≡ drop used heard.now) }
    ensures lost { (why : Unopened) → result ≡ Err why → why ≡ Unopened.Lost }
{
    let first = Vec::from_slice(alloc, heard.get(used..).unwrap_or(&[]))?;
    Ok(first)
}
