//! Loading a folder of configurations.
ghost use Rattle.std.specs.Prelude.{◌≡◌, ◌≢◌, ◌≤◌, ℕ, List, Option, All, IfErr, IfOk, IfSome, filter, length, map, string_bytes};
ghost use Rattle.net_io.specs.Files.{Told};
ghost use Rattle.topo_links.specs.Ends.{Word};
ghost use Rattle.net_load.specs.Limits.{files_limit, folder_limit};
ghost use Rattle.net_load.specs.Numbering.{folder_names};
ghost use Rattle.net_load.specs.Folder.{is_config_name, Loads, LoadsNames, Lists, FaultRose, HasCause, NamesLast};
ghost use Rattle.net_load.specs.Texts.{AreReadings, AreTexts, GivesTexts, IsText};
ghost use Rattle.net_load.specs.Loader.{list_fail_of};
ghost use Rattle.topo_links.specs.Names.{sorted_names};

use crate::loader::load_texts;
use crate::readings::read_by_workers;
use crate::texts::{Texts, read_texts};
use ios_config::{Reading, Refusal};
use net_io::{FileFail, Files};
use net_types::{Loaded, NoMemory, Text};
use std::alloc::{AllocError, AllocFailed, Global};
use std::thread::Threads;

// The most files that a folder may have whose names end in `.cfg`.
const FILES_LIMIT: usize = 1024;

/// The most bytes that the files of a folder may have together.
pub(crate) const FOLDER_LIMIT: usize = 67_108_864;

/// Why a folder isn't loaded. A path is that of the folder or of a file, `FOLDER/NAME`.
#[derive(Drop)]
pub enum LoadFail {
    /// The files failed, and counted a fault.
    Fault { path: Text },
    /// The folder isn't there, or a listed file isn't when it is read.
    Absent { path: Text },
    /// The file has more than 16,777,216 bytes.
    TooLong { path: Text },
    /// More than 1,024 names of the folder end in `.cfg`.
    TooManyFiles { path: Text },
    /// With the next file, the folder's files have more than 67,108,864 bytes together. The path is the folder's.
    FolderTooLong { path: Text },
    /// The file isn't a configuration.
    Refused { path: Text, refusal: Refusal },
    /// The hostname of the file `second` is that of the earlier file `first`.
    HostnameTaken { first: Text, second: Text },
    NoMemory,
}

impl From<NoMemory> for LoadFail {
    ghost use Rattle.net_load.specs.declared.folder.LoadFail.TheVariants as fail;

    ghost from_gives = { λ _ e. e ≡ fail.NoMemory };

    fn from(_: NoMemory) -> LoadFail {
        LoadFail::NoMemory
    }
}

impl From<AllocError> for LoadFail {
    ghost use Rattle.net_load.specs.declared.folder.LoadFail.TheVariants as fail;

    ghost from_gives = { λ _ e. e ≡ fail.NoMemory };

    fn from(_: AllocError) -> LoadFail {
        LoadFail::NoMemory
    }
}

impl<T: Drop> From<AllocFailed<T>> for LoadFail {
    ghost use Rattle.net_load.specs.declared.folder.LoadFail.TheVariants as fail;

    ghost from_gives = { λ _ e. e ≡ fail.NoMemory };

    fn from(_: AllocFailed<T>) -> LoadFail {
        LoadFail::NoMemory
    }
}

/// Whether a name ends in `.cfg`.
fn is_config_name(name: &str) -> bool
    ensures { result ≡ is_config_name name.now }
{
    name.as_bytes().ends_with(b".cfg")
}

/// The names that end in `.cfg`, in the order of their bytes.
fn config_names(alloc: Global, names: Vec<String>) -> Result<Vec<String>, NoMemory>
    ensures { IfOk result (λ found. map string_bytes found.items ≡ sorted_names (filter is_config_name (map string_bytes names.items))) }
{
    let mut found = keep_config_names(alloc, names)?;
    found.sort()?;
    found.dedup();
    Ok(found)
}

/// The names that end in `.cfg`.
fn keep_config_names(alloc: Global, names: Vec<String>) -> Result<Vec<String>, NoMemory>
    ensures { IfOk result (λ found. map string_bytes found.items ≡ filter is_config_name (map string_bytes names.items)) }
{
    let mut found = Vec::new(alloc);
    for name in names {
        if is_config_name(name.as_str()) {
            found.push(name)?;
        }
    }
    Ok(found)
}

/// The failure of a listing of this folder.
fn list_fail(alloc: Global, folder: &str, cause: FileFail) -> LoadFail
    ensures { result ≢ LoadFail.NoMemory → result ≡ list_fail_of folder.now cause }
{
    let path = match Text::copy_of(alloc, folder.as_bytes()) {
        Err(NoMemory) => return LoadFail::NoMemory,
        Ok(path) => path,
    };
    match cause {
        FileFail::Failed => LoadFail::Fault { path },
        FileFail::Absent => LoadFail::Absent { path },
        FileFail::NoMemory => LoadFail::NoMemory,
    }
}

/// The names of a folder's configurations, in the order of their bytes; however many there are.
///
/// Where there are none to be had the answer is `Fault`, `Absent` or `NoMemory`.
pub fn list_configs<F: Files>(
    alloc: Global,
    files: &mut F,
    folder: &str,
) -> Result<Vec<String>, LoadFail>
    ensures lists { IfSome (F.told files.old) (λ t. Lists (λ names. map string_bytes names.items) t folder.now result) }
    ensures same { F.told files.new ≡ F.told files.old }
    ensures cause { HasCause (F.faults files.old) (F.faults files.new) result }
    ensures last { IfErr result (λ e. NamesLast e (F.last files.new)) }
{
    match files.list(alloc, folder) {
        Ok(names) => Ok(config_names(alloc, names)?),
        Err(cause) => Err(list_fail(alloc, folder, cause)),
    }
}

/// Loads the configurations of a folder: the files whose names end in `.cfg`, in the order of their names by bytes.
///
/// They are read and checked one after the other, and the first cause decides. Each answer is exact, but that a fault or
/// want of memory may come in its place. `Fault` comes only where the count of faults rose, and its path is that of the
/// call that failed last: that of the folder, or of a file before which all are loaded.
pub fn load_folder<F: Files>(
    alloc: Global,
    files: &mut F,
    folder: &str,
) -> Result<Vec<Loaded>, LoadFail>
    ensures exact { IfSome (F.told files.old) (λ t. Loads (λ loaded. loaded.items) t folder.now result) }

    // Also where nothing is told.
    ensures few { IfOk result (λ loaded. length loaded.items ≤ files_limit) }
    ensures names { IfOk result (λ loaded. length (folder_names loaded.items) ≤ folder_limit) }

    ensures same { F.told files.new ≡ F.told files.old }
    ensures cause { HasCause (F.faults files.old) (F.faults files.new) result }
    ensures last { IfErr result (λ e. NamesLast e (F.last files.new)) }
{
    let texts = folder_texts(alloc, files, folder)?;
    load_all(alloc, folder, texts, Vec::new(alloc))
}

/// Loads a folder as `load_folder` does, with the same answers: what the files are read as is found by so many workers beside
/// one another.
pub fn load_folder_by_workers<F: Files, R: Threads + Sync>(
    rt: &R,
    workers: usize,
    alloc: Global,
    files: &mut F,
    folder: &str,
) -> Result<Vec<Loaded>, LoadFail>
    ensures exact { IfSome (F.told files.old) (λ t. Loads (λ loaded. loaded.items) t folder.now result) }
    ensures few { IfOk result (λ loaded. length loaded.items ≤ files_limit) }
    ensures names { IfOk result (λ loaded. length (folder_names loaded.items) ≤ folder_limit) }
    ensures same { F.told files.new ≡ F.told files.old }
    ensures cause { HasCause (F.faults files.old) (F.faults files.new) result }
    ensures last { IfErr result (λ e. NamesLast e (F.last files.new)) }
{
    let texts = folder_texts(alloc, files, folder)?;
    let known = read_by_workers(rt, alloc, workers, &texts.read)?;
    load_all(alloc, folder, texts, known)
}

// The texts of a folder's configurations.
fn folder_texts<F: Files>(alloc: Global, files: &mut F, folder: &str) -> Result<Texts, LoadFail>
    ensures texts { IfSome (F.told files.old) (λ t. GivesTexts t folder.now result) }
    ensures are { IfOk result (λ x. All (IsText folder.now) x.read.items × (length x.read.items ≤ files_limit)) }
    ensures same { F.told files.new ≡ F.told files.old }
    ensures later { F.faults files.old ≤ F.faults files.new }
    ensures cause { HasCause (F.faults files.old) (F.faults files.new) result }
    ensures last { IfErr result (λ e. NamesLast e (F.last files.new)) }
    ensures stopped { IfOk result (λ x. IfSome x.stopped (λ e. FaultRose e (F.faults files.old) (F.faults files.new))) }
    ensures stopped_last { IfOk result (λ x. IfSome x.stopped (λ e. NamesLast e (F.last files.new))) }
{
    let names = list_configs(alloc, files, folder)?;
    if names.len() > FILES_LIMIT {
        return Err(LoadFail::TooManyFiles {
            path: Text::copy_of(alloc, folder.as_bytes())?,
        });
    }
    Ok(read_texts(alloc, files, folder, &names)?)
}

// The files of all texts, or the first cause why not. For some of them it may be known what they are read as.
fn load_all(
    alloc: Global,
    folder: &str,
    texts: Texts,
    known: Vec<Option<Result<Reading, LoadFail>>>,
) -> Result<Vec<Loaded>, LoadFail>
    requires texts { All (IsText folder.now) texts.read.items }
    requires known { AreReadings texts.read.items known.items }
    ensures files { (t : Told) (names : List Word) → AreTexts t folder.now names texts → LoadsNames (λ loaded. loaded.items) t folder.now names result }
    ensures count { IfOk result (λ loaded. length loaded.items ≡ length texts.read.items) }
    ensures names { IfOk result (λ loaded. length (folder_names loaded.items) ≤ folder_limit) }
    ensures fault { (before now : ℕ) → IfSome texts.stopped (λ e. FaultRose e before now) → IfErr result (λ e. FaultRose e before now) }
    ensures last { (last : Option (List ℕ)) → IfSome texts.stopped (λ e. NamesLast e last) → IfErr result (λ e. NamesLast e last) }
{
    let Texts { read, stopped } = texts;
    let loaded = load_texts(alloc, folder, &read, known)?;
    match stopped {
        Some(fail) => Err(fail),
        None => Ok(loaded),
    }
}
