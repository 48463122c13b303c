//! The comparison with variants as one call.

ghost use Rattle.std.specs.Prelude.{◌≡◌, None, IfSome, map, string_bytes};
ghost use Rattle.job_core.specs.Endings.{Ends, Said};
ghost use Rattle.job_core.specs.Stops.{cannot_read_line};
ghost use Rattle.rollout_words.specs.Usage.{usage_text};
ghost use Rattle.variants_core.specs.Accepted.{IsAccepted};
ghost use Rattle.variants_core.specs.Job.{Does};
ghost use Rattle.variants_core.specs.Words.{paths_of};

use crate::inputs::vary;
use crate::words::asked_in;
use job_core::{finish, refuse};
use net_io::{Files, Sink};
use rollout_words::USAGE;
use std::alloc::Global;
use std::sync::Wait;
use std::thread::Threads;
use steal_pool::{Gate, Workers};

// How many workers compare.
const WORKERS: u32 = 4;

/// Compares the network that the words name with each variant of it, and answers the status: 1 where one has a row, else 0; and else
/// as every program of the house. Four workers compare, each of which passes the gate before it works on a region; for every
/// interleaving the bytes are the same.
pub fn variants_run<F: Files, O: Sink, E: Sink, G: Gate + Sync, R: Threads + Wait + Sync>(
    rt: &R,
    alloc: Global,
    words: &[String],
    files: &mut F,
    out: &mut O,
    err: &mut E,
    gate: &G,
) -> u8
    // The words alone decide whether they are within the usage.
    ensures usage { result ≡ 2 → paths_of (map string_bytes words.now) ≡ None }
    ensures refused { paths_of (map string_bytes words.now) ≡ None → result ≡ 2 }

    // The path in `cannot read PATH` is that of the call on the files that failed last, where that is told.
    ensures cannot_read { result ≡ 4 → IfSome (F.last files.new) (λ path. Said (cannot_read_line path)
        (record { before = E.taken err.old; now = E.taken err.new; faults_before = E.faults err.old; faults_now = E.faults err.new })) }

    // The run ends as one of the variants that the words ask for.
    ensures ends { Ends (Does (map string_bytes words.now)) (IsAccepted (map string_bytes words.now)) usage_text result
        (record { told = F.told files.old; faults_before = F.faults files.old; faults_now = F.faults files.new })
        (record { before = O.taken out.old; now = O.taken out.new; faults_before = O.faults out.old; faults_now = O.faults out.new })
        (record { before = E.taken err.old; now = E.taken err.new; faults_before = E.faults err.old; faults_now = E.faults err.new }) }
{
    let Some(asked) = asked_in(words) else {
        return refuse(USAGE, err);
    };
    let by = Workers {
        rt,
        gate,
        count: WORKERS,
    };
    let done = vary(&by, alloc, files, &asked);
    finish(alloc, done, out, err)
}
