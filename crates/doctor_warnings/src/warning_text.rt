//! How warnings are written.
//!
//! Each function adds a text at the end. Where memory runs out, a part of it may stand there.
ghost use Rattle.std.specs.Prelude.{◌≡◌, ◌++◌, OnOk};
ghost use Rattle.std.specs.List.{flat_map};
ghost use Rattle.doctor_warnings.specs.Texts.{look_text, reason_text, refused_text, says_text, warned_line, warned_path, warning_line, warning_text};

use crate::heads::{append_behind, append_head, append_word};
use crate::warning::{Reason, Warning};
use finding_texts::{append_config, append_finding, append_shown, append_stray, line_of};
use look_alikes::LookAlike;
use net_types::{NoMemory, Text};
use report_text::append;

/// The warnings, a line each.
pub(crate) fn append_warnings(out: &mut Vec<u8>, warnings: &[Warning]) -> Result<(), NoMemory>
    ensures { OnOk result (out.new.items ≡ out.old.items ++ flat_map warning_line warnings.now) }
{
    for warning in warnings {
        append_warning(out, warning)?;
        append(out, b"\n")?;
    }
    Ok(())
}

fn append_warning(out: &mut Vec<u8>, warning: &Warning) -> Result<(), NoMemory>
    ensures { OnOk result (out.new.items ≡ out.old.items ++ warning_text warning.now) }
{
    append_head(out, path_of(warning), line_in(warning))?;
    append_says(out, warning)
}

/// The file that a warning is about.
pub(crate) fn path_of(warning: &Warning) -> &Text
    ensures { result.now ≡ warned_path warning.now }
{
    match warning {
        Warning::NoConfigs { folder } => folder,
        Warning::Unread { path } => path,
        Warning::OneFolder { path } => path,
        Warning::HostTaken { path, first: _ } => path,
        Warning::Refused {
            path,
            line: _,
            kind: _,
            word: _,
            text: _,
        } => path,
        Warning::Passed {
            path,
            line: _,
            reason: _,
            text: _,
        } => path,
        Warning::Config { path, finding: _ } => path,
        Warning::Place {
            path,
            two: _,
            finding: _,
        } => path,
        Warning::Stray {
            path,
            two: _,
            next: _,
        } => path,
    }
}

/// The line of it, from 1; 0 where the whole file is meant.
pub(crate) fn line_in(warning: &Warning) -> u64
    ensures { result ≡ warned_line warning.now }
{
    match warning {
        Warning::Refused {
            path: _,
            line,
            kind: _,
            word: _,
            text: _,
        } => u64::from(*line),
        Warning::Passed {
            path: _,
            line,
            reason: _,
            text: _,
        } => *line,
        Warning::Place {
            path: _,
            two: _,
            finding,
        } => u64::from(line_of(finding)),
        Warning::Stray {
            path: _,
            two: _,
            next,
        } => u64::from(next.line),
        _ => 0,
    }
}

/// What a warning says.
pub(crate) fn append_says(out: &mut Vec<u8>, warning: &Warning) -> Result<(), NoMemory>
    ensures { OnOk result (out.new.items ≡ out.old.items ++ says_text warning.now) }
{
    match warning {
        Warning::NoConfigs { folder: _ } => append(out, b"no file whose name ends in .cfg"),
        Warning::Unread { path: _ } => append(out, b"not read, since its name doesn't end in .cfg"),
        Warning::OneFolder { path: _ } => append(out, b"the other folder has no file of this name"),
        Warning::HostTaken { path: _, first } => {
            append(out, b"refused hostname taken by ")?;
            append_shown(out, first.as_bytes())
        }
        Warning::Refused {
            path: _,
            line: _,
            kind,
            word,
            text,
        } => append_refused(out, kind, word, text),
        Warning::Passed {
            path: _,
            line: _,
            reason,
            text,
        } => {
            append_reason(out, *reason)?;
            append_behind(out, text)
        }
        Warning::Config { path: _, finding } => append_config(out, finding),
        Warning::Place {
            path: _,
            two,
            finding,
        } => append_finding(out, *two, finding),
        Warning::Stray { path: _, two, next } => append_stray(out, *two, next),
    }
}

/// A refusal: its kind, its word and its line.
fn append_refused(out: &mut Vec<u8>, kind: &Text, word: &Text, text: &Text) -> Result<(), NoMemory>
    ensures { OnOk result (out.new.items ≡ out.old.items ++ refused_text kind.now word.now text.now) }
{
    append(out, b"refused ")?;
    append(out, kind.as_bytes())?;
    append_word(out, word)?;
    append_behind(out, text)
}

fn append_reason(out: &mut Vec<u8>, reason: Reason) -> Result<(), NoMemory>
    ensures { OnOk result (out.new.items ≡ out.old.items ++ reason_text reason) }
{
    match reason {
        Reason::Looks { look } => {
            append(out, b"passed over, ")?;
            append_look(out, look)
        }
        Reason::OnlyHere => append(out, b"passed over, only in this folder"),
        Reason::Idle => append(out, b"passed over, and no packet depends on it"),
    }
}

fn append_look(out: &mut Vec<u8>, look: LookAlike) -> Result<(), NoMemory>
    ensures { OnOk result (out.new.items ≡ out.old.items ++ look_text look) }
{
    match look {
        LookAlike::Pager => append(out, b"has a pager's mark"),
        LookAlike::Prompt => append(out, b"has a prompt"),
        LookAlike::Like { command } => {
            append(out, b"looks like ")?;
            append(out, command.text().as_bytes())
        }
    }
}
