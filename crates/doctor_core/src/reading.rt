//! The texts of a folder's configurations, and of a file by itself.

ghost use Rattle.std.specs.Prelude.{◌≡◌, ◌≤◌, ◌+◌, IfErr, IfOk, IfSome, length, map, string_bytes};
ghost use Rattle.net_io.specs.Files.{path_in};
ghost use Rattle.net_io.specs.Limits.{file_limit};
ghost use Rattle.net_load.specs.Limits.{folder_limit};
ghost use Rattle.job_core.specs.Causes.{HasCause, NamesLast, WasRead};
ghost use Rattle.doctor_core.specs.Folders.{GivesAll, GivesFile, GivesFiles, GivesNames, GivesTextAt, GivesTexts, GivesWith, IsFile, IsFolder};
ghost use Rattle.doctor_core.specs.Stops.{IsStopOf};

use crate::others::read_others;
use doctor_warnings::{TextAt, TextFile, Texts};
use job_core::{Stop, read_bytes};
use net_io::Files;
use net_load::{LoadFail, list_configs};
use net_types::{List, NoMemory, Text};
use std::alloc::Global;

// The most files of a folder whose names end in `.cfg`.
const FILES_LIMIT: usize = 1024;

// The most bytes that they have together.
const FOLDER_LIMIT: usize = 67_108_864;

/// The texts of a folder's configurations in the order of their names, and the names of its other files; or why there are none: the
/// folder isn't there, it has too many files or bytes, or a file can't be read.
pub(crate) fn read_texts<F: Files>(
    alloc: Global,
    files: &mut F,
    folder: &str,
) -> Result<Texts, Stop>
    ensures texts { IfSome (F.told files.old) (λ t. GivesTexts t folder.now result) }
    ensures cause { HasCause (F.faults files.old) (F.faults files.new) result }
    ensures last { IfErr result (NamesLast (F.last files.new)) }
    ensures same { F.told files.new ≡ F.told files.old }
{
    match read_folder(alloc, files, folder) {
        Ok(texts) => read_with(alloc, files, folder, texts),
        Err(stop) => Err(stop),
    }
}

// The folder with these files, and the names of its other ones.
fn read_with<F: Files>(
    alloc: Global,
    files: &mut F,
    folder: &str,
    texts: List<TextFile>,
) -> Result<Texts, Stop>
    ensures texts { IfSome (F.told files.old) (λ t. GivesWith t folder.now texts result) }
    ensures cause { HasCause (F.faults files.old) (F.faults files.new) result }
    ensures last { IfErr result (NamesLast (F.last files.new)) }
    ensures same { F.told files.new ≡ F.told files.old }
{
    match read_others(alloc, files, folder) {
        Ok(others) => folder_of(alloc, folder, texts, others),
        Err(stop) => Err(stop),
    }
}

fn folder_of(
    alloc: Global,
    folder: &str,
    files: List<TextFile>,
    unread: List<Text>,
) -> Result<Texts, Stop>
    ensures folder { IsFolder folder.now files unread result }
    ensures read { IfErr result WasRead }
{
    Ok(Texts {
        path: Text::copy_of(alloc, folder.as_bytes())?,
        files,
        unread,
    })
}

// The files of a folder.
fn read_folder<F: Files>(alloc: Global, files: &mut F, folder: &str) -> Result<List<TextFile>, Stop>
    ensures texts { IfSome (F.told files.old) (λ t. GivesAll t folder.now result) }
    ensures cause { HasCause (F.faults files.old) (F.faults files.new) result }
    ensures last { IfErr result (NamesLast (F.last files.new)) }
    ensures same { F.told files.new ≡ F.told files.old }
{
    match read_names(alloc, files, folder) {
        Ok(names) => read_files(alloc, files, folder, &names),
        Err(stop) => Err(stop),
    }
}

// The names of a folder's configurations.
fn read_names<F: Files>(alloc: Global, files: &mut F, folder: &str) -> Result<Vec<String>, Stop>
    ensures names { IfSome (F.told files.old) (λ t. GivesNames (λ names. map string_bytes names.items) t folder.now result) }
    ensures cause { HasCause (F.faults files.old) (F.faults files.new) result }
    ensures last { IfErr result (NamesLast (F.last files.new)) }
    ensures same { F.told files.new ≡ F.told files.old }
{
    match list_configs(alloc, files, folder) {
        Ok(names) => {
            if names.len() > FILES_LIMIT {
                return Err(Stop::TooManyFiles {
                    path: Text::copy_of(alloc, folder.as_bytes())?,
                });
            }
            Ok(names)
        }
        Err(fail) => Err(stop_of(fail)),
    }
}

// Why there is no listing; it has no other cause than the first three.
fn stop_of(fail: LoadFail) -> Stop
    ensures { IsStopOf fail result }
{
    match fail {
        LoadFail::Fault { path } => Stop::CannotRead { path },
        LoadFail::Absent { path } => Stop::NotFound { path },
        _ => Stop::NoMemory,
    }
}

// The files of these names, one after the other.
fn read_files<F: Files>(
    alloc: Global,
    files: &mut F,
    folder: &str,
    names: &[String],
) -> Result<List<TextFile>, Stop>
    ensures texts { IfSome (F.told files.old) (λ t. GivesFiles t folder.now (map string_bytes names.now) result) }
    ensures cause { HasCause (F.faults files.old) (F.faults files.new) result }
    ensures last { IfErr result (NamesLast (F.last files.new)) }
    ensures same { F.told files.new ≡ F.told files.old }
{
    let mut read = List::empty(alloc);
    let mut sum = 0;
    for name in names {
        match read_file(alloc, files, folder, name.as_str(), sum) {
            Ok(file) => {
                sum += file.bytes.as_slice().len();
                read.push(file)?;
            }
            Err(stop) => return Err(stop),
        }
    }
    Ok(read)
}

// The file of a name, behind files of so many bytes.
fn read_file<F: Files>(
    alloc: Global,
    files: &mut F,
    folder: &str,
    name: &str,
    sum: usize,
) -> Result<TextFile, Stop>
    requires { sum ≤ folder_limit }
    ensures file { IfSome (F.told files.old) (λ t. GivesFile t folder.now name.now sum result) }
    ensures limit { IfOk result (λ f. sum + length f.bytes ≤ folder_limit) }
    ensures cause { HasCause (F.faults files.old) (F.faults files.new) result }
    ensures last { IfErr result (NamesLast (F.last files.new)) }
    ensures same { F.told files.new ≡ F.told files.old }
{
    let path = path_of(alloc, folder, name)?;
    match read_bytes(alloc, files, path.as_str()) {
        Ok(bytes) => file_of(alloc, folder, name, sum, List::new(bytes)),
        Err(stop) => Err(stop),
    }
}

// The file of a name and of these bytes.
fn file_of(
    alloc: Global,
    folder: &str,
    name: &str,
    sum: usize,
    bytes: List<u8>,
) -> Result<TextFile, Stop>
    requires sum { sum ≤ folder_limit }
    requires bytes { length bytes ≤ file_limit }
    ensures file { IsFile folder.now name.now sum bytes result }
    ensures limit { IfOk result (λ f. sum + length f.bytes ≤ folder_limit) }
    ensures read { IfErr result WasRead }
{
    if bytes.as_slice().len() > FOLDER_LIMIT - sum {
        return Err(Stop::TooLong {
            path: Text::copy_of(alloc, folder.as_bytes())?,
        });
    }
    Ok(TextFile {
        name: Text::copy_of(alloc, name.as_bytes())?,
        bytes,
    })
}

// The path of a file in a folder.
fn path_of(alloc: Global, folder: &str, name: &str) -> Result<String, NoMemory>
    ensures { IfOk result (λ path. string_bytes path ≡ path_in folder.now name.now) }
{
    let mut path = folder.to_string(alloc)?;
    path.push('/')?;
    path.push_str(name)?;
    Ok(path)
}

/// A file by its path.
pub(crate) fn read_text<F: Files>(alloc: Global, files: &mut F, path: &str) -> Result<TextAt, Stop>
    ensures text { IfSome (F.told files.old) (λ t. GivesTextAt t path.now result) }
    ensures cause { HasCause (F.faults files.old) (F.faults files.new) result }
    ensures last { IfErr result (NamesLast (F.last files.new)) }
    ensures same { F.told files.new ≡ F.told files.old }
{
    match read_bytes(alloc, files, path) {
        Ok(bytes) => Ok(TextAt {
            path: Text::copy_of(alloc, path.as_bytes())?,
            bytes: List::new(bytes),
        }),
        Err(stop) => Err(stop),
    }
}
