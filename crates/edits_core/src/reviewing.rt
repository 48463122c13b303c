//! An edit that is made in a review, or why it is refused.

ghost use Rattle.std.specs.Prelude.{◌≡◌, IfErr, IfOk, Ok, OnOk, decimal};
ghost use Rattle.incr_review.specs.Edited.{edited};
ghost use Rattle.incr_review.specs.Reviews.{HasRows};
ghost use Rattle.edit_lines.specs.Refusals.{kind_text};
ghost use Rattle.job_core.specs.Causes.{WasRead};
ghost use Rattle.edits_core.specs.Edits.{edit_at, sequence_text, word_of};
ghost use Rattle.edits_core.specs.Job.{Refuses};

use edit_lines::{EditLine, kind_name};
use incr_review::{Edit, EditFail, EditKind, Review};
use job_core::Stop;
use net_types::{NoMemory, Text};
use report_text::decimal_bytes;
use std::alloc::Global;

/// Makes an edit, and answers how many rows the report has after it. `path` is that of the edits.
pub(crate) fn make(
    alloc: Global,
    path: &str,
    review: &mut Review,
    line: &EditLine,
) -> Result<u64, Stop>
    ensures made { OnOk result (edited line.now.edit review.old.edited ≡ Ok review.new.edited) }
    ensures rows { IfOk result (HasRows review.new) }
    ensures baseline { review.new.baseline ≡ review.old.baseline }
    ensures ttl { review.new.ttl ≡ review.old.ttl }
    ensures refused { IfErr result (Refuses path.now (edit_at review.old.edited line.now)) }
    ensures read { IfErr result WasRead }
{
    match review.edit(alloc, &line.edit) {
        Ok(_) => Ok(review.affected(alloc)?),
        Err(EditFail::NoMemory) => Err(Stop::NoMemory),
        Err(EditFail::Refused { kind }) => Err(refused(alloc, path, line, kind)?),
    }
}

// The refusal of an edit at its line.
fn refused(alloc: Global, path: &str, line: &EditLine, kind: EditKind) -> Result<Stop, NoMemory>
    ensures { IfOk result (λ s. s ≡ Stop.Refused path.now line.now.line (kind_text kind) (word_of kind line.now.edit)) }
{
    let word = word_of(alloc, kind, &line.edit)?;
    Stop::refused(alloc, path, u64::from(line.line), kind_name(kind), word)
}

// The word that is printed of a refused edit.
fn word_of(alloc: Global, kind: EditKind, edit: &Edit) -> Result<Text, NoMemory>
    ensures { IfOk result (λ word. word ≡ word_of kind edit.now) }
{
    match kind {
        EditKind::SequenceTaken => sequence_text(alloc, edit),
        EditKind::NoSuchEntry => sequence_text(alloc, edit),
        _ => Ok(Text::new(Vec::new(alloc))),
    }
}

// The sequence of an entry that is added or dropped.
fn sequence_text(alloc: Global, edit: &Edit) -> Result<Text, NoMemory>
    ensures { IfOk result (λ word. word ≡ sequence_text edit.now) }
{
    match edit {
        Edit::AddEntry { entry, .. } => number_text(alloc, entry.sequence),
        Edit::DropEntry { sequence, .. } => number_text(alloc, *sequence),
        _ => Ok(Text::new(Vec::new(alloc))),
    }
}

fn number_text(alloc: Global, number: u32) -> Result<Text, NoMemory>
    ensures { IfOk result (λ text. text ≡ decimal number) }
{
    Ok(Text::new(decimal_bytes(alloc, u64::from(number))?))
}
