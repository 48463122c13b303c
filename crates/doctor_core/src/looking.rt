//! The files that the words name, read in their order, and what is told of them.

ghost use Rattle.std.specs.Prelude.{◌≡◌, IfErr, IfOk, IfSome, length, nat_lt, option_map};
ghost use Rattle.job_core.specs.Causes.{HasCause, NamesLast, WasRead};
ghost use Rattle.job_core.specs.Steps.{OrNoMemory};
ghost use Rattle.doctor_core.specs.Job.{AreWritten, IsLook, IsTold, IsWritten, Looks, LooksBehind, LooksOver, LooksWith, with_links};
ghost use Rattle.doctor_core.specs.Words.{paths};

use crate::reading::{read_text, read_texts};
use crate::words::Asked;
use doctor_warnings::{
    Notes, Subject, Tables, TextAt, Texts, notes_bytes, notes_document, notes_on,
};
use job_core::{Report, Stop};
use net_io::Files;
use net_types::NoMemory;
use std::alloc::Global;

/// What is told of the networks that the words name.
pub(crate) fn look<F: Files>(alloc: Global, files: &mut F, asked: &Asked) -> Result<Report, Stop>
    ensures job { IfSome (F.told files.old) (λ t. Looks t (paths asked.now) result) }
    ensures cause { HasCause (F.faults files.old) (F.faults files.new) result }
    ensures last { IfErr result (NamesLast (F.last files.new)) }
{
    match read_texts(alloc, files, asked.old) {
        Ok(old) => look_over(alloc, files, asked, old),
        Err(stop) => Err(stop),
    }
}

// The same, where the old network is read.
fn look_over<F: Files>(
    alloc: Global,
    files: &mut F,
    asked: &Asked,
    old: Texts,
) -> Result<Report, Stop>
    ensures job { IfSome (F.told files.old) (λ t. LooksOver (paths asked.now).new t (paths asked.now) old result) }
    ensures cause { HasCause (F.faults files.old) (F.faults files.new) result }
    ensures last { IfErr result (NamesLast (F.last files.new)) }
{
    match asked.new {
        None => look_with(alloc, files, asked, old, None),
        Some(path) => look_between(alloc, files, asked, old, path),
    }
}

// The same of two networks.
fn look_between<F: Files>(
    alloc: Global,
    files: &mut F,
    asked: &Asked,
    old: Texts,
    path: &str,
) -> Result<Report, Stop>
    ensures job { IfSome (F.told files.old) (λ t. LooksOver (Some path.now) t (paths asked.now) old result) }
    ensures cause { HasCause (F.faults files.old) (F.faults files.new) result }
    ensures last { IfErr result (NamesLast (F.last files.new)) }
{
    match read_texts(alloc, files, path) {
        Ok(new) => look_with(alloc, files, asked, old, Some(new)),
        Err(stop) => Err(stop),
    }
}

// The same, where the networks are read.
fn look_with<F: Files>(
    alloc: Global,
    files: &mut F,
    asked: &Asked,
    old: Texts,
    new: Option<Texts>,
) -> Result<Report, Stop>
    ensures job { IfSome (F.told files.old) (λ t. LooksWith t (paths asked.now) old new result) }
    ensures cause { HasCause (F.faults files.old) (F.faults files.new) result }
    ensures last { IfErr result (NamesLast (F.last files.new)) }
{
    match read_text(alloc, files, asked.links) {
        Ok(links) => {
            let subject = Subject {
                all: asked.all,
                old,
                new,
                tables: Tables {
                    links,
                    new_links: None,
                },
            };
            look_by(alloc, files, asked.json, asked.new_links, subject)
        }
        Err(stop) => Err(stop),
    }
}

// The same, where the first link table is read, too.
fn look_by<F: Files>(
    alloc: Global,
    files: &mut F,
    json: bool,
    new_links: Option<&str>,
    subject: Subject,
) -> Result<Report, Stop>
    ensures job { IfSome (F.told files.old) (λ t. LooksBehind json (option_map (λ p. p.now) new_links.entry) t subject result) }
    ensures cause { HasCause (F.faults files.old) (F.faults files.new) result }
    ensures last { IfErr result (NamesLast (F.last files.new)) }
{
    match new_links {
        None => report_of(alloc, json, subject),
        Some(path) => look_behind(alloc, files, json, path, subject),
    }
}

// The same, where the new network has its own link table.
fn look_behind<F: Files>(
    alloc: Global,
    files: &mut F,
    json: bool,
    path: &str,
    subject: Subject,
) -> Result<Report, Stop>
    ensures job { IfSome (F.told files.old) (λ t. LooksBehind json (Some path.now) t subject result) }
    ensures cause { HasCause (F.faults files.old) (F.faults files.new) result }
    ensures last { IfErr result (NamesLast (F.last files.new)) }
{
    match read_text(alloc, files, path) {
        Ok(new_links) => report_of(alloc, json, with_links(subject, new_links)),
        Err(stop) => Err(stop),
    }
}

// The same with the link table of the new network.
fn with_links(subject: Subject, new_links: TextAt) -> Subject
    ensures { result ≡ with_links subject new_links }
{
    let Subject {
        all,
        old,
        new,
        tables: Tables {
            links,
            new_links: _,
        },
    } = subject;
    Subject {
        all,
        old,
        new,
        tables: Tables {
            links,
            new_links: Some(new_links),
        },
    }
}

// The notes as they are written.
fn report_of(alloc: Global, json: bool, subject: Subject) -> Result<Report, Stop>
    ensures job { IsLook json subject result }
    ensures read { IfErr result WasRead }
{
    Ok(written(alloc, json, subject)?)
}

fn written(alloc: Global, json: bool, subject: Subject) -> Result<Report, NoMemory>
    ensures { IfOk result (IsWritten json subject) }
{
    let all = subject.all;
    let notes = notes_on(alloc, subject)?;
    report_with(alloc, json, all, &notes)
}

fn report_with(alloc: Global, json: bool, all: bool, notes: &Notes) -> Result<Report, NoMemory>
    ensures text { IfOk result (λ r. AreWritten json all notes.now r.text.items) }
    ensures affected { IfOk result (λ r. r.affected ≡ nat_lt 0 (length notes.now.warnings)) }
{
    Ok(Report {
        text: bytes_of(alloc, json, all, notes)?,
        affected: notes.warnings.as_slice().len() > 0,
    })
}

fn bytes_of(alloc: Global, json: bool, all: bool, notes: &Notes) -> Result<Vec<u8>, NoMemory>
    ensures { IfOk result (λ text. AreWritten json all notes.now text.items) }
{
    if json {
        notes_document(alloc, notes)
    } else {
        notes_bytes(alloc, all, notes)
    }
}

/// A text that is asked for by itself.
pub(crate) fn told(alloc: Global, text: &[u8]) -> Result<Report, Stop>
    ensures told { OrNoMemory (IsTold text.now) result }
    ensures read { IfErr result WasRead }
{
    Ok(told_report(alloc, text)?)
}

fn told_report(alloc: Global, text: &[u8]) -> Result<Report, NoMemory>
    ensures { IfOk result (IsTold text.now) }
{
    Ok(Report {
        text: text.to_vec(alloc)?,
        affected: false,
    })
}
