//! The commands of the program, by their names.

ghost use Rattle.std.specs.Prelude.{◌≡◌, false, IfSome, map, string_bytes};
ghost use Rattle.job_core.specs.Endings.{Ends, Said};
ghost use Rattle.job_core.specs.Stops.{cannot_read_line};
ghost use Rattle.rollout_words.specs.Usage.{usage_text};
ghost use Rattle.rollout_core.specs.Commands.{Does, IsAccepted, command_of, is_within};
ghost use Rattle.rollout_core.specs.Names.{is_named};

use audit_core::audit_run;
use edits_core::edits_run;
use net_io::{Files, Sink};
use std::alloc::Global;
use std::sync::Wait;
use std::thread::Threads;
use steal_pool::Gate;
use variants_core::variants_run;
use window_core::rollout_run;

/// A command of the program.
#[derive(Clone, Copy, Debug, PartialEq, Eq)]
pub enum Command {
    Audit,
    Edits,
    Rollout,
    Variants,
}

/// Hands the words to the command that the first of them names, and answers its status; 2 where it names none, or there is no word.
pub fn tool<F: Files, O: Sink, E: Sink, G: Gate + Sync, R: Threads + Wait + Sync>(
    rt: &R,
    alloc: Global,
    words: &[String],
    files: &mut F,
    out: &mut O,
    err: &mut E,
    gate: &G,
) -> u8
    // The words alone decide whether they are within the usage.
    ensures usage { result ≡ 2 → is_within (map string_bytes words.now) ≡ false }
    ensures refused { is_within (map string_bytes words.now) ≡ false → result ≡ 2 }

    // The path in `cannot read PATH` is that of the call on the files that failed last, where that is told.
    ensures cannot_read { result ≡ 4 → IfSome (F.last files.new) (λ path. Said (cannot_read_line path)
        (record { before = E.taken err.old; now = E.taken err.new; faults_before = E.faults err.old; faults_now = E.faults err.new })) }

    // The run ends as one of the command that the words name.
    ensures ends { Ends (Does (map string_bytes words.now)) (IsAccepted (map string_bytes words.now)) usage_text result
        (record { told = F.told files.old; faults_before = F.faults files.old; faults_now = F.faults files.new })
        (record { before = O.taken out.old; now = O.taken out.new; faults_before = O.faults out.old; faults_now = O.faults out.new })
        (record { before = E.taken err.old; now = E.taken err.new; faults_before = E.faults err.old; faults_now = E.faults err.new }) }
{
    match command_of(words) {
        Command::Audit => audit_run(alloc, words, files, out, err),
        Command::Edits => edits_run(alloc, words, files, out, err),
        Command::Variants => variants_run(rt, alloc, words, files, out, err, gate),
        // It refuses words that name no command.
        Command::Rollout => rollout_run(rt, alloc, words, files, out, err, gate),
    }
}

// The command that the first word names; the last one where it names none.
fn command_of(words: &[String]) -> Command
    ensures { result ≡ command_of (map string_bytes words.now) }
{
    if is_named(words, b"audit") {
        return Command::Audit;
    }
    if is_named(words, b"edits") {
        return Command::Edits;
    }
    if is_named(words, b"variants") {
        return Command::Variants;
    }
    Command::Rollout
}

// Whether the first word is this one.
fn is_named(words: &[String], name: &[u8]) -> bool
    ensures { result ≡ is_named name.now (map string_bytes words.now) }
{
    match words.first() {
        Some(word) => word.as_bytes() == name,
        None => false,
    }
}
