//! Files of answers.
ghost use Rattle.std.specs.Prelude.{◌≡◌, ◌+◌, [], codes, length, map, min, IfOk, IfErr, IfSome, Some};
ghost use Rattle.std.specs.List.{AllByRecursion};
ghost use Rattle.job_core.specs.Causes.{HasCause, WasRead};
ghost use Rattle.view_core.specs.Names.{text_lines};
ghost use Rattle.answer_view.specs.AnswerText.{HasPacket};
ghost use Rattle.answer_view.specs.Said.{said_in};
ghost use Rattle.answer_view.specs.Views.{SaysAnswers, GivesAnswers, IsFault, IsCounted};

use crate::said::answers_in;
use job_core::Stop;
use net_io::Files;
use net_types::{Answer, NoMemory, Text};
use result_text::answers_bytes;
use std::alloc::Global;
use view_core::{first_difference, lines_of, read_report_file};

/// The answers to so many questions that a file has; or why it has none.
pub(crate) fn read_answers<F: Files>(
    alloc: Global,
    files: &mut F,
    path: &str,
    count: usize,
) -> Result<Vec<Answer>, Stop>
    ensures answers { IfSome (F.told files.old) (λ t. GivesAnswers (λ answers. answers.items) t path.now count result) }
    ensures cause { HasCause (F.faults files.old) (F.faults files.new) result }
    ensures same { F.told files.new ≡ F.told files.old }
{
    match read_report_file(alloc, files, path) {
        Ok(bytes) => answers_of(alloc, path, &bytes, count),
        Err(stop) => Err(stop),
    }
}

// The answers that the bytes are.
fn answers_of(alloc: Global, path: &str, bytes: &[u8], count: usize) -> Result<Vec<Answer>, Stop>
    ensures says { SaysAnswers (λ answers. answers.items) path.now count bytes.now result }
    ensures read { IfErr result WasRead }
{
    let lines = lines_of(alloc, bytes)?;
    let answers = answers_in(alloc, &lines)?;
    match fault_line(alloc, bytes, &lines, &answers)? {
        Some(line) => Err(refused(alloc, path, line, "NotAnswers")?),
        None => counted(alloc, path, answers, count),
    }
}

// The first line that is written otherwise, from 1.
fn fault_line(
    alloc: Global,
    bytes: &[u8],
    lines: &[&[u8]],
    answers: &[Answer],
) -> Result<Option<u64>, NoMemory>
    requires lines { map (λ line. line.now) lines.now ≡ text_lines bytes.now }
    ensures { IfOk result (IsFault answers.now bytes.now) }
{
    let printed = answers_bytes(alloc, answers)?;
    if printed.as_slice() == bytes {
        return Ok(None);
    }
    let others = lines_of(alloc, &printed)?;
    Ok(Some(first_difference(lines, &others)))
}

// The answers, where there are so many.
fn counted(
    alloc: Global,
    path: &str,
    answers: Vec<Answer>,
    count: usize,
) -> Result<Vec<Answer>, Stop>
    ensures counted { IsCounted (λ answers. answers.items) path.now count answers.items result }
    ensures read { IfErr result WasRead }
{
    if answers.len() == count {
        return Ok(answers);
    }
    let line = answers.len().min(count) as u64 + 1;
    Err(refused(alloc, path, line, "OtherCount")?)
}

fn refused(alloc: Global, path: &str, line: u64, kind: &str) -> Result<Stop, NoMemory>
    ensures { IfOk result (λ s. s ≡ Stop.Refused path.now line kind.now []) }
{
    let none = Text::new(Vec::new(alloc));
    Stop::refused(alloc, path, line, kind, none)
}
