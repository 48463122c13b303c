//! The line at which a text stops being a report.
ghost use Rattle.std.specs.Prelude.{◌≤◌, IfOk, length};
ghost use Rattle.view_core.specs.Names.{text_lines};

use crate::names::names_of;
use json_text::append_texts;
use net_types::NoMemory;
use report_text::{ReportFail, read_report};
use std::alloc::Global;

// What a line may be, by what stands before it.
#[derive(Clone, Copy)]
enum Next {
    // An ingress, or the last line.
    Ingress,
    Cube,
    Old,
    New,
    // Nothing: the last line was there.
    End,
}

/// The first line, from 1, that is none of a report's in its place; the line behind the last one where all are.
///
/// Each line is tried in a short report that has it, over the names of that report alone. A wrong count shows at the first line
/// that it makes wrong. No clause says which line it is.
pub(crate) fn fault_line(alloc: Global, bytes: &[u8]) -> Result<u64, NoMemory>
    ensures low { IfOk result (λ line. 1 ≤ line) }
    ensures high { IfOk result (λ line. line ≤ length (text_lines bytes.now)) }
{
    let mut place = Place {
        next: Next::Ingress,
        left: 0,
        rows: 0,
    };
    let mut number: u64 = 0;
    for line in bytes.split(|b| *b == b'\n') {
        number = number.saturating_add(1);
        if !step(alloc, line, &mut place)? {
            return Ok(number);
        }
    }
    Ok(number)
}

// Where a line stands: what may come, how many rows of the section are left, and how many rows came.
#[derive(Clone, Copy)]
struct Place {
    next: Next,
    left: u64,
    rows: u64,
}

// Goes over a line, and answers whether it may stand there.
fn step(alloc: Global, line: &[u8], place: &mut Place) -> Result<bool, NoMemory> {
    match place.next {
        Next::End => Ok(false),
        Next::Cube => {
            place.next = Next::Old;
            is_row(alloc, line, b"old drop", b"new drop")
        }
        Next::Old => {
            place.next = Next::New;
            is_row(alloc, OPEN, line, b"new drop")
        }
        Next::New => {
            place.left = place.left.saturating_sub(1);
            place.rows = place.rows.saturating_add(1);
            place.next = if place.left == 0 {
                Next::Ingress
            } else {
                Next::Cube
            };
            is_row(alloc, OPEN, b"old drop", line)
        }
        Next::Ingress => step_out(alloc, line, place),
    }
}

const OPEN: &[u8] = b"dst * src * proto * dport * sport * flags *";

// An ingress, or the last line.
fn step_out(alloc: Global, line: &[u8], place: &mut Place) -> Result<bool, NoMemory> {
    if let Some(count) = count_behind(line, b"affected ") {
        place.next = Next::End;
        return Ok(count == place.rows);
    }
    let Some((front, word)) = last_word(line) else {
        return Ok(false);
    };
    let Some(count) = count_of(word) else {
        return Ok(false);
    };
    place.left = count;
    if count > 0 {
        place.next = Next::Cube;
    }
    is_ingress(alloc, front)
}

// The number behind these words, where the line has nothing else.
fn count_behind(line: &[u8], words: &[u8]) -> Option<u64> {
    if line.starts_with(words) && line.len() > words.len() {
        count_of(&line[words.len()..])
    } else {
        None
    }
}

// The last word of a line, and what stands before it with the blank.
fn last_word(line: &[u8]) -> Option<(&[u8], &[u8])> {
    let mut at = None;
    let mut i: usize = 0;
    for b in line {
        i = i.saturating_add(1);
        if *b == b' ' {
            at = Some(i);
        }
    }
    let at = at?;
    if at > line.len() {
        return None;
    }
    Some(line.split_at(at))
}

// A number as it is written: digits without a zero in front.
fn count_of(word: &[u8]) -> Option<u64> {
    if word.is_empty() || word.len() > 18 || (word.len() > 1 && word[0] == b'0') {
        return None;
    }
    let mut count: u64 = 0;
    for b in word {
        if !(*b >= b'0' && *b <= b'9') {
            return None;
        }
        count = count
            .saturating_mul(10)
            .saturating_add(u64::from(*b - b'0'));
    }
    Some(count)
}

// Whether these words and `0` are the line of an ingress.
fn is_ingress(alloc: Global, front: &[u8]) -> Result<bool, NoMemory> {
    let mut text = Vec::new(alloc);
    append_texts(&mut text, &[front, b"0\naffected 0\n"])?;
    is_report(alloc, &text)
}

// Whether the three lines are a row.
fn is_row<'l>(
    alloc: Global,
    cube: &'l [u8],
    old: &'l [u8],
    new: &'l [u8],
) -> Result<bool, NoMemory> {
    let mut text = Vec::new(alloc);
    // Any place serves.
    let front = b"ingress a b rows 1\n";
    append_texts(
        &mut text,
        &[front, cube, b"\n", old, b"\n", new, b"\naffected 1\n"],
    )?;
    is_report(alloc, &text)
}

fn is_report(alloc: Global, text: &[u8]) -> Result<bool, NoMemory> {
    let names = names_of(alloc, text)?;
    match read_report(alloc, &names, text) {
        Ok(_) => Ok(true),
        Err(ReportFail::NotReport) => Ok(false),
        Err(ReportFail::NoMemory) => Err(NoMemory),
    }
}
