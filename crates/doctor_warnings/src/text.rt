//! How notes are written.
ghost use Rattle.std.specs.Prelude.{◌≡◌, IfOk};
ghost use Rattle.text_tallies.specs.Tallies.{AreTallies};
ghost use Rattle.doctor_warnings.specs.Texts.{limit_words, line_words, notes_text, IsText};

use crate::limit::Limit;
use crate::listing::ListedLine;
use crate::network::Notes;
use crate::note_text::{append_counted, append_listed, append_notes_limits};
use crate::warning_text::append_warnings;
use net_types::NoMemory;
use report_text::{append, append_number};
use std::alloc::Global;
use text_tallies::{Tallies, Tally};

/// The notes: the warnings, a line each; the limits, all where there is a warning or `all` is asked
/// for and else how many lines no packet depends on, and the lines that are passed
/// over, by their words with how many there are; these lines one by one; and how many warnings there are.
pub fn notes_bytes(alloc: Global, all: bool, notes: &Notes) -> Result<Vec<u8>, NoMemory>
    ensures { IfOk result (λ text. IsText all notes.now text.items) }
{
    let limits = limit_tallies(alloc, notes.limits.as_slice())?;
    let lines = line_tallies(alloc, notes.lines.as_slice())?;
    text_of(alloc, all, notes, &limits, &lines)
}

/// The limits by their words.
fn limit_tallies(alloc: Global, limits: &[Limit]) -> Result<Vec<Tally>, NoMemory>
    ensures { IfOk result (λ rows. AreTallies (limit_words limits.now) rows.items) }
{
    let mut tallies = Tallies::new(alloc);
    for limit in limits {
        tallies.add(alloc, limit.words.as_bytes())?;
    }
    tallies.into_rows(alloc)
}

/// The lines that are passed over by their first words.
fn line_tallies(alloc: Global, lines: &[ListedLine]) -> Result<Vec<Tally>, NoMemory>
    ensures { IfOk result (λ rows. AreTallies (line_words lines.now) rows.items) }
{
    let mut tallies = Tallies::new(alloc);
    for line in lines {
        tallies.add(alloc, line.words.as_bytes())?;
    }
    tallies.into_rows(alloc)
}

fn text_of(
    alloc: Global,
    all: bool,
    notes: &Notes,
    limits: &[Tally],
    lines: &[Tally],
) -> Result<Vec<u8>, NoMemory>
    ensures { IfOk result (λ text. text.items ≡ notes_text all notes.now limits.now lines.now) }
{
    let mut out = Vec::new(alloc);
    let warnings = notes.warnings.as_slice();
    append_warnings(&mut out, warnings)?;
    append_notes_limits(&mut out, all, notes, limits)?;
    append_counted(&mut out, notes.lines.as_slice(), lines)?;
    append_listed(&mut out, notes.lines.as_slice())?;
    append(&mut out, b"warnings ")?;
    append_number(&mut out, warnings.len() as u64)?;
    append(&mut out, b"\n")?;
    Ok(out)
}
