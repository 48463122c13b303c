//! The view as one call.

ghost use Rattle.std.specs.Prelude.{◌≡◌, ◌≢◌, true, false, IfSome, IfOk, IfErr, map, string_bytes};
ghost use Rattle.job_core.specs.Causes.{HasCause, WasRead};
ghost use Rattle.job_core.specs.Endings.{Ends};
ghost use Rattle.view_words.specs.Usage.{usage_text};
ghost use Rattle.view_core.specs.Views.{IsView, Views, Shows, Says, Does, IsAccepted, shown_as};
ghost use Rattle.view_core.specs.Words.{is_asked};

use crate::ingresses::{Ingress, ingresses_of};
use crate::reading::{Reported, read_report_file, report_in};
use crate::report_json::json_bytes;
use crate::text::view_bytes;
use crate::words::{Format, Manner, is_asked, manner_of, path_of, said};
use job_core::{Report, Stop, finish, refuse};
use net_io::{Files, Sink};
use net_types::{Names, NoMemory};
use std::alloc::Global;
use view_words::USAGE;

/// Does what the words ask, and answers the status: 0 where it was written, and else as every program of the house.
pub fn view_run<F: Files, O: Sink, E: Sink>(
    alloc: Global,
    words: &[String],
    files: &mut F,
    out: &mut O,
    err: &mut E,
) -> u8
    // The words alone decide whether they are within the usage.
    ensures usage { result ≡ 2 → is_asked (map string_bytes words.now) ≡ false }
    ensures refused { is_asked (map string_bytes words.now) ≡ false → result ≡ 2 }

    // The run ends as one of the view that the words ask for, and a view has nothing that status 1 tells.
    ensures ends { Ends (Does (map string_bytes words.now)) (IsAccepted (map string_bytes words.now)) usage_text result
        (record { told = F.told files.old; faults_before = F.faults files.old; faults_now = F.faults files.new })
        (record { before = O.taken out.old; now = O.taken out.new; faults_before = O.faults out.old; faults_now = O.faults out.new })
        (record { before = E.taken err.old; now = E.taken err.new; faults_before = E.faults err.old; faults_now = E.faults err.new }) }
    ensures plain { result ≢ 1 }
{
    if !is_asked(words) {
        return refuse(USAGE, err);
    }
    let done = perform(alloc, files, words);
    finish(alloc, done, out, err)
}

// What the words ask.
fn perform<F: Files>(alloc: Global, files: &mut F, words: &[String]) -> Result<Report, Stop>
    requires { is_asked (map string_bytes words.now) ≡ true }
    ensures does { IfSome (F.told files.old) (λ t. Does (map string_bytes words.now) t result) }
    ensures plain { IfOk result (λ r. r.affected ≡ false) }
    ensures cause { HasCause (F.faults files.old) (F.faults files.new) result }
{
    if let Some(text) = said(words) {
        return says(alloc, text);
    }
    let Some(path) = path_of(words) else {
        unreachable!("the words are within the usage");
    };
    let manner = match manner_of(alloc, words) {
        Ok(manner) => manner,
        Err(_) => return Err(Stop::NoMemory),
    };
    show(alloc, files, path, &manner)
}

fn says(alloc: Global, text: &[u8]) -> Result<Report, Stop>
    ensures says { Says text.now result }
    ensures plain { IfOk result (λ r. r.affected ≡ false) }
    ensures read { IfErr result WasRead }
{
    match text.to_vec(alloc) {
        Ok(text) => Ok(Report {
            text,
            affected: false,
        }),
        Err(_) => Err(Stop::NoMemory),
    }
}

// The view of the report at a path.
fn show<F: Files>(alloc: Global, files: &mut F, path: &str, manner: &Manner) -> Result<Report, Stop>
    ensures shows { IfSome (F.told files.old) (λ t. Shows t manner.now path.now result) }
    ensures plain { IfOk result (λ r. r.affected ≡ false) }
    ensures cause { HasCause (F.faults files.old) (F.faults files.new) result }
{
    match read_report_file(alloc, files, path) {
        Ok(bytes) => view_of(alloc, path, &bytes, manner),
        Err(stop) => Err(stop),
    }
}

// The view of a report's bytes.
fn view_of(alloc: Global, path: &str, bytes: &[u8], manner: &Manner) -> Result<Report, Stop>
    ensures views { Views manner.now path.now bytes.now result }
    ensures plain { IfOk result (λ r. r.affected ≡ false) }
    ensures read { IfErr result WasRead }
{
    match report_in(alloc, path, bytes) {
        Ok(read) => {
            let report = shown(alloc, read, manner)?;
            Ok(report)
        }
        Err(stop) => Err(stop),
    }
}

// Nothing is affected where nothing is compared.
fn shown(alloc: Global, read: Reported, manner: &Manner) -> Result<Report, NoMemory>
    ensures view { IfOk result (λ r. IsView manner.now read.names read.sections.items r.text.items) }
    ensures plain { IfOk result (λ r. r.affected ≡ false) }
{
    let Reported { names, sections } = read;
    let ingresses = ingresses_of(alloc, sections)?;
    let text = text_of(alloc, &names, &ingresses, manner)?;
    Ok(Report {
        text,
        affected: false,
    })
}

fn text_of(
    alloc: Global,
    names: &Names,
    ingresses: &[Ingress],
    manner: &Manner,
) -> Result<Vec<u8>, NoMemory>
    ensures { IfOk result (λ text. text.items ≡ shown_as manner.now.format manner.now.title names.now ingresses.now) }
{
    match manner.format {
        Format::Text => view_bytes(alloc, manner.title.as_bytes(), names, ingresses),
        Format::Json => json_bytes(alloc, names, ingresses),
    }
}
