//! The program as one call.

ghost use Rattle.std.specs.Prelude.{◌≡◌, ◌⊎◌, None, Some, IfErr, IfSome, map, string_bytes};
ghost use Rattle.job_core.specs.Causes.{HasCause, NamesLast};
ghost use Rattle.job_core.specs.Endings.{Ends, Said};
ghost use Rattle.job_core.specs.Stops.{cannot_read_line};
ghost use Rattle.review_args.specs.Requests.{IsJob, request_of};
ghost use Rattle.review_core.specs.Lines.{usage_text};
ghost use Rattle.review_core.specs.Accepted.{IsAccepted};
ghost use Rattle.review_core.specs.Job.{Does, Performs};

use crate::asking::ask_in_folder;
use crate::comparison::compare_folders;
use crate::generated::compare_generated;
use crate::reading::read_network;
use crate::tracing::trace_in_folder;
use job_core::{Report, Stop, finish, no_memory, refuse};
use net_io::{Files, Sink};
use review_args::{Job, WordsFail, read_words};
use std::alloc::Global;
use std::sync::Wait;
use std::thread::Threads;
use steal_pool::{Gate, Workers};

// What is written where the words are outside the usage.
const USAGE: &[u8] = b"usage:
  compare OLD NEW LINKS [NEWLINKS] [--workers N] [--ttl T]
  ask NET LINKS QUESTIONS [--workers N] [--ttl T]
  trace NET LINKS DEVICE INTERFACE HEADER [--ttl T]
  read NET
  gen NUMBER SIZE [--workers N]
";

/// Does what the words of the command line ask, and answers the status. Networks are compared, and questions answered, by as many
/// workers as the words say, each of which passes the gate before it works on a region; for every number of them and every
/// interleaving the bytes are the same.
pub fn run<F: Files, O: Sink, E: Sink, G: Gate + Sync, R: Threads + Wait + Sync>(
    rt: &R,
    alloc: Global,
    words: &[String],
    files: &mut F,
    out: &mut O,
    err: &mut E,
    gate: &G,
) -> u8
    // The words alone decide whether they are within the usage, but for want of memory to read them.
    ensures usage { result ≡ 2 → request_of (map string_bytes words.now) ≡ None }
    ensures refused { request_of (map string_bytes words.now) ≡ None → (result ≡ 2) ⊎ (result ≡ 7) }

    // The path in `cannot read PATH` is that of the call on the files that failed last, where that is told.
    ensures cannot_read { result ≡ 4 → IfSome (F.last files.new) (λ path. Said (cannot_read_line path)
        (record { before = E.taken err.old; now = E.taken err.new; faults_before = E.faults err.old; faults_now = E.faults err.new })) }

    // The run ends as one of the job that the words ask for.
    ensures ends { Ends (Does (map string_bytes words.now)) (IsAccepted (map string_bytes words.now)) usage_text result
        (record { told = F.told files.old; faults_before = F.faults files.old; faults_now = F.faults files.new })
        (record { before = O.taken out.old; now = O.taken out.new; faults_before = O.faults out.old; faults_now = O.faults out.new })
        (record { before = E.taken err.old; now = E.taken err.new; faults_before = E.faults err.old; faults_now = E.faults err.new }) }
{
    let request = match read_words(alloc, words) {
        Ok(request) => request,
        Err(WordsFail::Refused) => return refuse(USAGE, err),
        Err(WordsFail::NoMemory) => return no_memory(err),
    };
    let by = Workers {
        rt,
        gate,
        count: request.workers,
    };
    let done = perform(&by, alloc, &request.job, files);
    finish(alloc, done, out, err)
}

// Does the job.
fn perform<F: Files, R: Threads + Wait + Sync, G: Gate + Sync>(
    by: &Workers<R, G>,
    alloc: Global,
    job: &Job,
    files: &mut F,
) -> Result<Report, Stop>
    requires { IsJob job.now }
    ensures job { IfSome (F.told files.old) (λ t. Performs (Some job.now) t result) }
    ensures cause { HasCause (F.faults files.old) (F.faults files.new) result }
    ensures last { IfErr result (NamesLast (F.last files.new)) }
{
    match job {
        Job::Compare(asked) => compare_folders(by, alloc, files, asked),
        Job::Ask(asked) => ask_in_folder(by, alloc, files, asked),
        Job::Trace(asked) => trace_in_folder(alloc, files, asked),
        Job::Read { net } => read_network(alloc, files, net.as_str()),
        Job::Gen { number, size } => compare_generated(by, alloc, *number, *size),
    }
}
