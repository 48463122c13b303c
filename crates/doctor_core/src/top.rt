//! The doctor as one call.

ghost use Rattle.std.specs.Prelude.{◌≡◌, false, IfSome, map, string_bytes};
ghost use Rattle.job_core.specs.Endings.{Ends, Said};
ghost use Rattle.job_core.specs.Stops.{cannot_read_line};
ghost use Rattle.doctor_core.specs.Accepted.{IsAccepted};
ghost use Rattle.doctor_core.specs.Job.{Does};
ghost use Rattle.doctor_core.specs.Usage.{usage_text};
ghost use Rattle.doctor_core.specs.Words.{is_within};

use crate::looking::{look, told};
use crate::usage::USAGE;
use crate::words::{asked_in, text_of};
use job_core::{finish, refuse};
use net_io::{Files, Sink};
use std::alloc::Global;

/// Says what has to be looked at before a comparison of the networks is believed that the words name, and answers the status: 1
/// where there is a warning, else 0; and else as every program of the house. What is refused of a file or a table is a warning.
/// The words may ask for a text on the program in place of it.
pub fn doctor_run<F: Files, O: Sink, E: Sink>(
    alloc: Global,
    words: &[String],
    files: &mut F,
    out: &mut O,
    err: &mut E,
) -> u8
    // The words alone decide whether they are within the usage.
    ensures usage { result ≡ 2 → is_within (map string_bytes words.now) ≡ false }
    ensures refused { is_within (map string_bytes words.now) ≡ false → result ≡ 2 }

    // The path in `cannot read PATH` is that of the call on the files that failed last, where that is told.
    ensures cannot_read { result ≡ 4 → IfSome (F.last files.new) (λ path. Said (cannot_read_line path)
        (record { before = E.taken err.old; now = E.taken err.new; faults_before = E.faults err.old; faults_now = E.faults err.new })) }

    // The run ends as one of the look that the words ask for.
    ensures ends { Ends (Does (map string_bytes words.now)) (IsAccepted (map string_bytes words.now)) usage_text result
        (record { told = F.told files.old; faults_before = F.faults files.old; faults_now = F.faults files.new })
        (record { before = O.taken out.old; now = O.taken out.new; faults_before = O.faults out.old; faults_now = O.faults out.new })
        (record { before = E.taken err.old; now = E.taken err.new; faults_before = E.faults err.old; faults_now = E.faults err.new }) }
{
    if let Some(text) = text_of(words) {
        let done = told(alloc, text);
        return finish(alloc, done, out, err);
    }
    let Some(asked) = asked_in(words) else {
        return refuse(USAGE, err);
    };
    let done = look(alloc, files, &asked);
    finish(alloc, done, out, err)
}
