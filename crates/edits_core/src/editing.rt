//! The edits of a file, made one after the other, and what is written of them.

ghost use Rattle.std.specs.Prelude.{◌≡◌, ◌<◌, ◌^◌, [], IfErr, IfOk, length};
ghost use Rattle.std.specs.List.{list_any};
ghost use Rattle.job_core.specs.Causes.{WasRead};
ghost use Rattle.edits_core.specs.Edits.{IsReported, Makes, first_ttl, has_rows, network_after};
ghost use Rattle.edits_core.specs.Job.{IsEdited, Refuses, old_world};

use crate::reviewing::make;
use crate::text::append_count;
use edit_lines::EditLine;
use incr_review::Review;
use job_core::{Report, Stop};
use net_load::Numbered;
use net_types::{List, Names, NoMemory, Section};
use report_text::{append, report_bytes};
use std::alloc::Global;

// The TTL with which packets enter.
const FIRST_TTL: u8 = 255;

/// The review of these edits of the old network. `path` is that of the edits.
pub(crate) fn edited(
    alloc: Global,
    path: &str,
    numbered: &Numbered,
    lines: &[EditLine],
) -> Result<Report, Stop>
    requires { length numbered.now.links.ingress < 2 ^ 32 }
    ensures job { IsEdited path.now numbered.now lines.now result }
    ensures read { IfErr result WasRead }
{
    let mut review = Review::open(alloc, &numbered.old, &numbered.links, FIRST_TTL)?;
    match make_all(alloc, path, &mut review, lines) {
        Ok(text) => Ok(report_of(alloc, &numbered.names, &mut review, text)?),
        Err(stop) => Err(stop),
    }
}

// Makes the edits one after the other, and writes how many rows the report has after each. The first that is refused stops it.
fn make_all(
    alloc: Global,
    path: &str,
    review: &mut Review,
    lines: &[EditLine],
) -> Result<List<u8>, Stop>
    requires { review.old.ttl ≡ first_ttl }
    ensures made { IfOk result (Makes review.old.baseline review.old.edited lines.now review.new.edited []) }
    ensures baseline { review.new.baseline ≡ review.old.baseline }
    ensures ttl { review.new.ttl ≡ review.old.ttl }
    ensures refused { IfErr result (Refuses path.now (network_after review.old.edited lines.now)) }
    ensures read { IfErr result WasRead }
{
    let mut text = Vec::new(alloc);
    for line in lines {
        let count = match make(alloc, path, review, line) {
            Ok(count) => count,
            Err(stop) => return Err(stop),
        };
        append_count(&mut text, line.line, count)?;
    }
    Ok(List::new(text))
}

// The report on the network after the edits, behind the text of these; and whether it has a row.
fn report_of(
    alloc: Global,
    names: &Names,
    review: &mut Review,
    text: List<u8>,
) -> Result<Report, NoMemory>
    requires { review.old.ttl ≡ first_ttl }
    ensures { IfOk result (IsReported names.now review.old.baseline review.old.edited text) }
{
    let sections = review.sections(alloc)?;
    let mut text = text.into_vec();
    append(&mut text, &report_bytes(alloc, names, &sections)?)?;
    Ok(Report {
        text,
        affected: any_rows(&sections),
    })
}

fn any_rows(sections: &[Section]) -> bool
    ensures { result ≡ list_any has_rows sections.now }
{
    sections.iter().any(|section| has_rows(section))
}

fn has_rows(section: &Section) -> bool
    ensures { result ≡ has_rows section.now }
{
    section.rows.as_slice().len() > 0
}
