//! How a run ends: with its report written, or with a line that says why there is none.

ghost use Rattle.std.specs.Prelude.{◌≡◌};
ghost use Rattle.job_core.specs.Lines.{no_memory_text};
ghost use Rattle.job_core.specs.Endings.{Finishes, Said, Tells, WritesReport};

use crate::report::Report;
use crate::stop::{NO_MEMORY, Stop};
use net_io::{Sink, write_all};
use std::alloc::Global;

// What is written where the output took no more.
const CANNOT_WRITE: &[u8] = b"cannot write\n";

/// Ends a run: writes the report of the job, or says why there is none, and answers the status. It is 1 where the report has
/// something to look at, else 0; 6 where the output took no more; and at a stop that of its cause, or 7.
pub fn finish<O: Sink, E: Sink>(
    alloc: Global,
    done: Result<Report, Stop>,
    out: &mut O,
    err: &mut E,
) -> u8
    ensures { Finishes done result
        (record { before = O.taken out.old; now = O.taken out.new; faults_before = O.faults out.old; faults_now = O.faults out.new })
        (record { before = E.taken err.old; now = E.taken err.new; faults_before = E.faults err.old; faults_now = E.faults err.new }) }
{
    match done {
        Ok(report) => write_report(&report, out, err),
        Err(stop) => tell(alloc, &stop, err),
    }
}

/// The words are outside the usage: says so, and answers the status.
pub fn refuse<E: Sink>(usage: &[u8], err: &mut E) -> u8
    ensures status { result ≡ 2 }
    ensures line { Said usage.now (record { before = E.taken err.old; now = E.taken err.new; faults_before = E.faults err.old; faults_now = E.faults err.new }) }
{
    say(err, usage);
    2
}

/// Says that there was no memory, and answers the status: also for a caller that has none for the words.
pub fn no_memory<E: Sink>(err: &mut E) -> u8
    ensures status { result ≡ 7 }
    ensures line { Said no_memory_text (record { before = E.taken err.old; now = E.taken err.new; faults_before = E.faults err.old; faults_now = E.faults err.new }) }
{
    say(err, NO_MEMORY);
    7
}

// Writes the report.
fn write_report<O: Sink, E: Sink>(report: &Report, out: &mut O, err: &mut E) -> u8
    ensures { WritesReport report.now result
        (record { before = O.taken out.old; now = O.taken out.new; faults_before = O.faults out.old; faults_now = O.faults out.new })
        (record { before = E.taken err.old; now = E.taken err.new; faults_before = E.faults err.old; faults_now = E.faults err.new }) }
{
    match write_all(out, &report.text) {
        Ok(()) => u8::from(report.affected),
        Err(_) => {
            say(err, CANNOT_WRITE);
            6
        }
    }
}

// Says why there is no report.
fn tell<E: Sink>(alloc: Global, stop: &Stop, err: &mut E) -> u8
    ensures { Tells stop.now result (record { before = E.taken err.old; now = E.taken err.new; faults_before = E.faults err.old; faults_now = E.faults err.new }) }
{
    let Ok(line) = stop.line(alloc) else {
        return no_memory(err);
    };
    say(err, &line);
    stop.status()
}

// A line on the error output. Where that fails, the status tells the cause alone.
fn say<E: Sink>(err: &mut E, line: &[u8])
    ensures { Said line.now (record { before = E.taken err.old; now = E.taken err.new; faults_before = E.faults err.old; faults_now = E.faults err.new }) }
{
    let _ = write_all(err, line);
}
