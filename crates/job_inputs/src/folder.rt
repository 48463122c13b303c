//! A folder, loaded, or what stops a job where it isn't.

ghost use Rattle.std.specs.Prelude.{◌≡◌, ◌⊎◌, ◌≤◌, IfErr, IfOk, IfSome, length};
ghost use Rattle.net_load.specs.Limits.{folder_limit};
ghost use Rattle.net_load.specs.Numbering.{folder_names};
ghost use Rattle.job_core.specs.Causes.{HasCause, NamesLast};
ghost use Rattle.ios_lines.specs.Kinds.{kind_text};
ghost use Rattle.job_inputs.specs.Folders.{GivesFolder, FolderStops};

use ios_lines::Refusal;
use job_core::Stop;
use net_io::Files;
use net_load::{LoadFail, load_folder, load_folder_by_workers};
use net_types::{Loaded, NoMemory, Text};
use std::alloc::Global;
use std::thread::Threads;

/// The devices of a folder, in the order of their files; or why there are none: the first cause, by the folder, its listing, and
/// then file by file.
pub fn read_folder<F: Files>(
    alloc: Global,
    files: &mut F,
    folder: &str,
) -> Result<Vec<Loaded>, Stop>
    ensures devices { IfSome (F.told files.old) (λ t. GivesFolder (λ devices. devices.items) t folder.now result) }
    ensures names { IfOk result (λ devices. length (folder_names devices.items) ≤ folder_limit) }
    ensures cause { HasCause (F.faults files.old) (F.faults files.new) result }
    ensures last { IfErr result (NamesLast (F.last files.new)) }
    ensures same { F.told files.new ≡ F.told files.old }
{
    match load_folder(alloc, files, folder) {
        Ok(devices) => Ok(devices),
        Err(fail) => Err(stop_of(alloc, fail)),
    }
}

/// The same, where so many workers read the files' texts beside one another.
pub fn read_folder_by_workers<F: Files, R: Threads + Sync>(
    rt: &R,
    workers: usize,
    alloc: Global,
    files: &mut F,
    folder: &str,
) -> Result<Vec<Loaded>, Stop>
    ensures devices { IfSome (F.told files.old) (λ t. GivesFolder (λ devices. devices.items) t folder.now result) }
    ensures names { IfOk result (λ devices. length (folder_names devices.items) ≤ folder_limit) }
    ensures cause { HasCause (F.faults files.old) (F.faults files.new) result }
    ensures last { IfErr result (NamesLast (F.last files.new)) }
    ensures same { F.told files.new ≡ F.told files.old }
{
    match load_folder_by_workers(rt, workers, alloc, files, folder) {
        Ok(devices) => Ok(devices),
        Err(fail) => Err(stop_of(alloc, fail)),
    }
}

fn stop_of(alloc: Global, fail: LoadFail) -> Stop
    ensures { FolderStops fail result }
{
    match fail {
        LoadFail::Fault { path } => Stop::CannotRead { path },
        LoadFail::Absent { path } => Stop::NotFound { path },
        LoadFail::TooLong { path } => Stop::TooLong { path },
        LoadFail::TooManyFiles { path } => Stop::TooManyFiles { path },
        LoadFail::FolderTooLong { path } => Stop::TooLong { path },
        LoadFail::Refused { path, refusal } => refused(alloc, path, refusal),
        LoadFail::HostnameTaken { first, second } => Stop::HostnameTaken { first, second },
        LoadFail::NoMemory => Stop::NoMemory,
    }
}

pub(crate) fn refused(alloc: Global, path: Text, refusal: Refusal) -> Stop
    ensures { (result ≡ Stop.Refused path refusal.line (kind_text refusal.kind) refusal.word) ⊎ (result ≡ Stop.NoMemory) }
{
    match Text::copy_of(alloc, refusal.kind.name().as_bytes()) {
        Ok(kind) => Stop::Refused {
            path,
            line: u64::from(refusal.line),
            kind,
            word: refusal.word,
        },
        Err(NoMemory) => Stop::NoMemory,
    }
}
