//! The view of answers as one call.
ghost use Rattle.std.specs.Prelude.{◌≡◌, ◌≢◌, ◌≤◌, true, false, IfSome, IfOk, IfErr, Some, None, map, length, string_bytes, option_map};
ghost use Rattle.net_io.specs.Limits.{file_limit};
ghost use Rattle.job_core.specs.Causes.{HasCause, WasRead};
ghost use Rattle.job_core.specs.Endings.{Ends};
ghost use Rattle.view_words.specs.Usage.{usage_text};
ghost use Rattle.answer_view.specs.Asked.{asked_in};
ghost use Rattle.answer_view.specs.Answered.{answered_from};
ghost use Rattle.answer_view.specs.Views.{IsView, Views, ShowsSince, ShowsFor, Shows, Does, IsAccepted};
ghost use Rattle.answer_view.specs.Words.{is_asked};

use crate::answered::{Answered, given_before, none_before, with_answers};
use crate::asked::{Asked, asked_in};
use crate::json::json_bytes;
use crate::reading::read_answers;
use crate::text::view_bytes;
use crate::words::{before_of, format_of, is_asked, paths_of};
use job_core::{Report, Stop, finish, read_bytes, refuse};
use net_io::{Files, Sink};
use net_types::{Answer, NoMemory};
use std::alloc::Global;
use view_core::Format;
use view_words::USAGE;

/// Shows answers to questions, as the words ask, and answers the status: 0 where they were written, and else as every program of the
/// house.
pub fn answers_run<F: Files, O: Sink, E: Sink>(
    alloc: Global,
    words: &[String],
    files: &mut F,
    out: &mut O,
    err: &mut E,
) -> u8
    // The words alone decide whether they are within the usage.
    ensures usage { result ≡ 2 → is_asked (map string_bytes words.now) ≡ false }
    ensures refused { is_asked (map string_bytes words.now) ≡ false → result ≡ 2 }

    // The run ends as one of the view that the words ask for, and a view has nothing that status 1 tells.
    ensures ends { Ends (Does (map string_bytes words.now)) (IsAccepted (map string_bytes words.now)) usage_text result
        (record { told = F.told files.old; faults_before = F.faults files.old; faults_now = F.faults files.new })
        (record { before = O.taken out.old; now = O.taken out.new; faults_before = O.faults out.old; faults_now = O.faults out.new })
        (record { before = E.taken err.old; now = E.taken err.new; faults_before = E.faults err.old; faults_now = E.faults err.new }) }
    ensures plain { result ≢ 1 }
{
    if !is_asked(words) {
        return refuse(USAGE, err);
    }
    let done = perform(alloc, files, words);
    finish(alloc, done, out, err)
}

// What the words ask.
fn perform<F: Files>(alloc: Global, files: &mut F, words: &[String]) -> Result<Report, Stop>
    requires { is_asked (map string_bytes words.now) ≡ true }
    ensures does { IfSome (F.told files.old) (λ t. Does (map string_bytes words.now) t result) }
    ensures plain { IfOk result (λ r. r.affected ≡ false) }
    ensures cause { HasCause (F.faults files.old) (F.faults files.new) result }
{
    let Some((questions, after)) = paths_of(words) else {
        unreachable!("the words are within the usage");
    };
    show(
        alloc,
        files,
        questions,
        before_of(words),
        after,
        format_of(words),
    )
}

// The questions of the file at a path are read first.
fn show<F: Files>(
    alloc: Global,
    files: &mut F,
    questions: &str,
    before: Option<&str>,
    after: &str,
    format: Format,
) -> Result<Report, Stop>
    ensures shows { IfSome (F.told files.old) (λ t. Shows t format questions.now (option_map (λ path. path.now) before.entry) after.now result) }
    ensures plain { IfOk result (λ r. r.affected ≡ false) }
    ensures cause { HasCause (F.faults files.old) (F.faults files.new) result }
{
    match read_bytes(alloc, files, questions) {
        Ok(bytes) => show_of(alloc, files, &bytes, before, after, format),
        Err(stop) => Err(stop),
    }
}

// The same of these bytes.
fn show_of<F: Files>(
    alloc: Global,
    files: &mut F,
    bytes: &[u8],
    before: Option<&str>,
    after: &str,
    format: Format,
) -> Result<Report, Stop>
    requires { length bytes.now ≤ file_limit }
    ensures shows { IfSome (F.told files.old) (λ t. ShowsFor t format (option_map (λ path. path.now) before.entry) after.now (asked_in bytes.now) result) }
    ensures plain { IfOk result (λ r. r.affected ≡ false) }
    ensures cause { HasCause (F.faults files.old) (F.faults files.new) result }
{
    let asked = asked_in(alloc, bytes)?;
    match before {
        None => show_alone(alloc, files, asked, after, format),
        Some(before) => show_both(alloc, files, asked, before, after, format),
    }
}

// The questions with the answers of one file.
fn show_alone<F: Files>(
    alloc: Global,
    files: &mut F,
    asked: Vec<Asked>,
    after: &str,
    format: Format,
) -> Result<Report, Stop>
    ensures shows { IfSome (F.told files.old) (λ t. ShowsFor t format None after.now asked.items result) }
    ensures plain { IfOk result (λ r. r.affected ≡ false) }
    ensures cause { HasCause (F.faults files.old) (F.faults files.new) result }
{
    match read_answers(alloc, files, after, asked.len()) {
        Ok(answers) => view_alone(alloc, asked, answers, format),
        Err(stop) => Err(stop),
    }
}

// The questions with the answers of two files, of which the one before is read first.
fn show_both<F: Files>(
    alloc: Global,
    files: &mut F,
    asked: Vec<Asked>,
    before: &str,
    after: &str,
    format: Format,
) -> Result<Report, Stop>
    ensures shows { IfSome (F.told files.old) (λ t. ShowsFor t format (Some before.now) after.now asked.items result) }
    ensures plain { IfOk result (λ r. r.affected ≡ false) }
    ensures cause { HasCause (F.faults files.old) (F.faults files.new) result }
{
    match read_answers(alloc, files, before, asked.len()) {
        Ok(answers) => show_since(alloc, files, asked, answers, after, format),
        Err(stop) => Err(stop),
    }
}

fn show_since<F: Files>(
    alloc: Global,
    files: &mut F,
    asked: Vec<Asked>,
    before: Vec<Answer>,
    after: &str,
    format: Format,
) -> Result<Report, Stop>
    ensures shows { IfSome (F.told files.old) (λ t. ShowsSince t format after.now asked.items before.items result) }
    ensures plain { IfOk result (λ r. r.affected ≡ false) }
    ensures cause { HasCause (F.faults files.old) (F.faults files.new) result }
{
    match read_answers(alloc, files, after, asked.len()) {
        Ok(answers) => view_since(alloc, asked, before, answers, format),
        Err(stop) => Err(stop),
    }
}

fn view_alone(
    alloc: Global,
    asked: Vec<Asked>,
    after: Vec<Answer>,
    format: Format,
) -> Result<Report, Stop>
    ensures views { Views format false (answered_from 1 asked.items (map (λ a. None) after.items) after.items) result }
    ensures plain { IfOk result (λ r. r.affected ≡ false) }
    ensures read { IfErr result WasRead }
{
    let before = none_before(alloc, &after)?;
    let answered = with_answers(alloc, asked, before, after)?;
    let report = shown(alloc, format, false, &answered)?;
    Ok(report)
}

fn view_since(
    alloc: Global,
    asked: Vec<Asked>,
    before: Vec<Answer>,
    after: Vec<Answer>,
    format: Format,
) -> Result<Report, Stop>
    ensures views { Views format true (answered_from 1 asked.items (map Some before.items) after.items) result }
    ensures plain { IfOk result (λ r. r.affected ≡ false) }
    ensures read { IfErr result WasRead }
{
    let given = given_before(alloc, &before)?;
    let answered = with_answers(alloc, asked, given, after)?;
    let report = shown(alloc, format, true, &answered)?;
    Ok(report)
}

// Nothing is affected where nothing is compared anew.
fn shown(
    alloc: Global,
    format: Format,
    compared: bool,
    answered: &[Answered],
) -> Result<Report, NoMemory>
    ensures view { IfOk result (λ r. IsView format compared answered.now r.text.items) }
    ensures plain { IfOk result (λ r. r.affected ≡ false) }
{
    let text = text_of(alloc, format, compared, answered)?;
    Ok(Report {
        text,
        affected: false,
    })
}

fn text_of(
    alloc: Global,
    format: Format,
    compared: bool,
    answered: &[Answered],
) -> Result<Vec<u8>, NoMemory>
    ensures { IfOk result (λ text. IsView format compared answered.now text.items) }
{
    match format {
        Format::Text => view_bytes(alloc, compared, answered),
        Format::Json => json_bytes(alloc, compared, answered),
    }
}
