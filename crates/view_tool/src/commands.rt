//! The commands of the program, by their names.

ghost use Rattle.std.specs.Prelude.{◌≡◌, ◌≢◌, ◌⊎◌, false, map, string_bytes};
ghost use Rattle.job_core.specs.Endings.{Ends};
ghost use Rattle.view_words.specs.Usage.{usage_text};
ghost use Rattle.view_tool.specs.Commands.{Does, IsAccepted, command_of, is_named, is_within};

use answer_view::answers_run;
use audit_view::audit_run;
use net_io::{Files, Sink};
use std::alloc::Global;
use view_core::view_run;
use why_core::{traces_run, why_run};

/// A command of the program.
#[derive(Clone, Copy, Debug, PartialEq, Eq)]
pub enum Command {
    /// A report is shown.
    Report,
    /// The findings of an audit are shown.
    Audit,
    /// The answers to questions are shown.
    Answers,
    /// A packet is followed in two networks.
    Traces,
    /// The groups of a report are explained.
    Why,
}

/// Hands the words to the command that the first of them names, and answers its status. Words that name none are those of a report
/// that is shown.
pub fn tool<F: Files, O: Sink, E: Sink>(
    alloc: Global,
    words: &[String],
    files: &mut F,
    out: &mut O,
    err: &mut E,
) -> u8
    // The words alone decide whether they are within the usage, but for want of memory to read them.
    ensures usage { result ≡ 2 → is_within (map string_bytes words.now) ≡ false }
    ensures refused { is_within (map string_bytes words.now) ≡ false → (result ≡ 2) ⊎ (result ≡ 7) }

    // The run ends as one of the command that the words name, and none has anything which status 1 tells.
    ensures ends { Ends (Does (map string_bytes words.now)) (IsAccepted (map string_bytes words.now)) usage_text result
        (record { told = F.told files.old; faults_before = F.faults files.old; faults_now = F.faults files.new })
        (record { before = O.taken out.old; now = O.taken out.new; faults_before = O.faults out.old; faults_now = O.faults out.new })
        (record { before = E.taken err.old; now = E.taken err.new; faults_before = E.faults err.old; faults_now = E.faults err.new }) }
    ensures plain { result ≢ 1 }
{
    match command_of(words) {
        Command::Why => why_run(alloc, words, files, out, err),
        Command::Traces => traces_run(alloc, words, files, out, err),
        Command::Audit => audit_run(alloc, words, files, out, err),
        Command::Answers => answers_run(alloc, words, files, out, err),
        // It refuses words that name no command.
        Command::Report => view_run(alloc, words, files, out, err),
    }
}

// The command that the first word names; a report's where it names none.
fn command_of(words: &[String]) -> Command
    ensures { result ≡ command_of (map string_bytes words.now) }
{
    if is_named(words, b"--why") || is_named(words, b"--why-all") {
        return Command::Why;
    }
    if is_named(words, b"--traces") {
        return Command::Traces;
    }
    if is_named(words, b"--audit") {
        return Command::Audit;
    }
    if is_named(words, b"--answers") {
        return Command::Answers;
    }
    Command::Report
}

// Whether the first word is this one.
fn is_named(words: &[String], name: &[u8]) -> bool
    ensures { result ≡ is_named name.now (map string_bytes words.now) }
{
    match words.first() {
        Some(word) => word.as_bytes() == name,
        None => false,
    }
}
