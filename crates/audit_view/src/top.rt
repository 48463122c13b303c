//! The view of an audit as one call.
ghost use Rattle.std.specs.Prelude.{◌≡◌, ◌≢◌, true, false, IfSome, IfOk, IfErr, map, string_bytes};
ghost use Rattle.job_core.specs.Causes.{HasCause, WasRead};
ghost use Rattle.job_core.specs.Endings.{Ends};
ghost use Rattle.view_words.specs.Usage.{usage_text};
ghost use Rattle.view_core.specs.Names.{text_lines};
ghost use Rattle.audit_view.specs.Views.{IsFault, IsView, Views, ViewsWith, Shows, Does, IsAccepted};
ghost use Rattle.audit_view.specs.Words.{is_asked};

use crate::audited::{AuditedList, with_findings};
use crate::findings::findings_in;
use crate::folder::read_net;
use crate::json::json_bytes;
use crate::lists::FolderList;
use crate::printed::audit_bytes;
use crate::text::view_bytes;
use crate::unknown::first_unknown;
use crate::words::{Manner, is_asked, manner_of, paths_of};
use job_core::{Report, Stop, finish, refuse};
use net_io::{Files, Sink};
use net_types::{NoMemory, Text};
use std::alloc::Global;
use view_core::{Format, first_difference, lines_of, read_report_file};
use view_words::USAGE;

/// Shows what an audit wrote, as the words ask, and answers the status: 0 where it was written, and else as every program of the
/// house.
pub fn audit_run<F: Files, O: Sink, E: Sink>(
    alloc: Global,
    words: &[String],
    files: &mut F,
    out: &mut O,
    err: &mut E,
) -> u8
    // The words alone decide whether they are within the usage.
    ensures usage { result ≡ 2 → is_asked (map string_bytes words.now) ≡ false }
    ensures refused { is_asked (map string_bytes words.now) ≡ false → result ≡ 2 }

    // The run ends as one of the view that the words ask for, and a view has nothing that status 1 tells.
    ensures ends { Ends (Does (map string_bytes words.now)) (IsAccepted (map string_bytes words.now)) usage_text result
        (record { told = F.told files.old; faults_before = F.faults files.old; faults_now = F.faults files.new })
        (record { before = O.taken out.old; now = O.taken out.new; faults_before = O.faults out.old; faults_now = O.faults out.new })
        (record { before = E.taken err.old; now = E.taken err.new; faults_before = E.faults err.old; faults_now = E.faults err.new }) }
    ensures plain { result ≢ 1 }
{
    if !is_asked(words) {
        return refuse(USAGE, err);
    }
    let done = perform(alloc, files, words);
    finish(alloc, done, out, err)
}

// What the words ask.
fn perform<F: Files>(alloc: Global, files: &mut F, words: &[String]) -> Result<Report, Stop>
    requires { is_asked (map string_bytes words.now) ≡ true }
    ensures does { IfSome (F.told files.old) (λ t. Does (map string_bytes words.now) t result) }
    ensures plain { IfOk result (λ r. r.affected ≡ false) }
    ensures cause { HasCause (F.faults files.old) (F.faults files.new) result }
{
    let Some((findings, net)) = paths_of(words) else {
        unreachable!("the words are within the usage");
    };
    show(alloc, files, findings, net, manner_of(words))
}

// The view of what the audit wrote at a path, with the network's folder.
fn show<F: Files>(
    alloc: Global,
    files: &mut F,
    path: &str,
    net: &str,
    manner: Manner,
) -> Result<Report, Stop>
    ensures shows { IfSome (F.told files.old) (λ t. Shows t manner path.now net.now result) }
    ensures plain { IfOk result (λ r. r.affected ≡ false) }
    ensures cause { HasCause (F.faults files.old) (F.faults files.new) result }
{
    match read_report_file(alloc, files, path) {
        Ok(bytes) => show_with(alloc, files, path, &bytes, net, manner),
        Err(stop) => Err(stop),
    }
}

// The same of these bytes.
fn show_with<F: Files>(
    alloc: Global,
    files: &mut F,
    path: &str,
    bytes: &[u8],
    net: &str,
    manner: Manner,
) -> Result<Report, Stop>
    ensures shows { IfSome (F.told files.old) (λ t. ViewsWith t manner path.now net.now bytes.now result) }
    ensures plain { IfOk result (λ r. r.affected ≡ false) }
    ensures cause { HasCause (F.faults files.old) (F.faults files.new) result }
{
    match read_net(alloc, files, net) {
        Ok(lists) => view_of(alloc, path, bytes, lists, manner),
        Err(stop) => Err(stop),
    }
}

// The view of what the audit wrote of these lists.
fn view_of(
    alloc: Global,
    path: &str,
    bytes: &[u8],
    lists: Vec<FolderList>,
    manner: Manner,
) -> Result<Report, Stop>
    ensures views { Views manner path.now bytes.now lists.items result }
    ensures plain { IfOk result (λ r. r.affected ≡ false) }
    ensures read { IfErr result WasRead }
{
    let lines = lines_of(alloc, bytes)?;
    let findings = findings_in(alloc, &lines)?;
    let audited = with_findings(alloc, lists, findings)?;
    match fault_line(alloc, &audited, bytes, &lines)? {
        Some(line) => {
            let none = Text::new(Vec::new(alloc));
            Err(Stop::refused(alloc, path, line, "", none)?)
        }
        None => {
            let report = shown(alloc, &audited, manner)?;
            Ok(report)
        }
    }
}

// The first line that isn't one of the audit with these findings, from 1.
fn fault_line(
    alloc: Global,
    audited: &[AuditedList],
    bytes: &[u8],
    lines: &[&[u8]],
) -> Result<Option<u64>, NoMemory>
    requires { map (λ line. line.now) lines.now ≡ text_lines bytes.now }
    ensures { IfOk result (IsFault audited.now bytes.now) }
{
    let printed = audit_bytes(alloc, audited)?;
    if printed.as_slice() != bytes {
        let others = lines_of(alloc, &printed)?;
        return Ok(Some(first_difference(lines, &others)));
    }
    match first_unknown(alloc, audited)? {
        Some(before) => Ok(Some(before as u64 + 1)),
        None => Ok(None),
    }
}

// Nothing is affected where nothing is compared.
fn shown(alloc: Global, audited: &[AuditedList], manner: Manner) -> Result<Report, NoMemory>
    ensures view { IfOk result (λ r. IsView manner audited.now r.text.items) }
    ensures plain { IfOk result (λ r. r.affected ≡ false) }
{
    let text = text_of(alloc, audited, manner)?;
    Ok(Report {
        text,
        affected: false,
    })
}

fn text_of(alloc: Global, audited: &[AuditedList], manner: Manner) -> Result<Vec<u8>, NoMemory>
    ensures { IfOk result (λ text. IsView manner audited.now text.items) }
{
    match manner.format {
        Format::Text => view_bytes(alloc, audited, manner.rows),
        Format::Json => json_bytes(alloc, audited, manner.rows),
    }
}
