//! The texts of a folder's files, read one after the other.
ghost use Rattle.std.specs.Prelude.{◌≡◌, ◌≢◌, ◌≤◌, All, IfErr, IfOk, IfSome, length, map, string_bytes};
ghost use Rattle.net_io.specs.Files.{path_in};
ghost use Rattle.net_io.specs.Limits.{file_limit};
ghost use Rattle.net_load.specs.Folder.{FaultRose, HasCause, NamesLast};
ghost use Rattle.net_load.specs.Loader.{ReadsFile, load_fail_of};
ghost use Rattle.net_load.specs.Texts.{AreTexts, IsText, GivesText};

use crate::folder::{FOLDER_LIMIT, LoadFail};
use net_io::{Files, ReadFail, read_all};
use net_types::{NoMemory, Text};
use std::alloc::Global;

/// A file that is read: its name, its path and its bytes.
pub struct FileText {
    pub file: Text,
    pub path: Text,
    pub bytes: Vec<u8>,
}

impl Drop for FileText {
    fn drop(self) {
        let FileText {
            file: _,
            path: _,
            bytes: _,
        } = self;
    }
}

/// The texts of the first files of a folder, and why the next one couldn't be read, where that ended it.
#[derive(Drop)]
pub struct Texts {
    pub read: Vec<FileText>,
    pub stopped: Option<LoadFail>,
}

/// The path of a file, as text.
pub(crate) fn path_text(alloc: Global, folder: &str, file: &[u8]) -> Result<Text, NoMemory>
    ensures { IfOk result (λ path. path ≡ path_in folder.now file.now) }
{
    let mut path = folder.as_bytes().to_vec(alloc)?;
    path.push(b'/')?;
    path.extend_from_slice(file)?;
    Ok(Text::new(path))
}

/// The path of a file.
fn path_of(alloc: Global, folder: &str, name: &str) -> Result<String, NoMemory>
    ensures { IfOk result (λ path. string_bytes path ≡ path_in folder.now name.now) }
{
    let mut path = folder.to_string(alloc)?;
    path.push('/')?;
    path.push_str(name)?;
    Ok(path)
}

/// The failure of a read of this file.
fn read_fail(alloc: Global, path: &str, cause: ReadFail) -> LoadFail
    ensures { result ≢ LoadFail.NoMemory → result ≡ load_fail_of path.now cause }
{
    let path = match Text::copy_of(alloc, path.as_bytes()) {
        Err(NoMemory) => return LoadFail::NoMemory,
        Ok(path) => path,
    };
    match cause {
        ReadFail::Failed => LoadFail::Fault { path },
        ReadFail::TooLong => LoadFail::TooLong { path },
        ReadFail::NoMemory => LoadFail::NoMemory,
        ReadFail::Absent => LoadFail::Absent { path },
    }
}

/// The bytes of a file.
fn read_file<F: Files>(alloc: Global, files: &mut F, path: &str) -> Result<Vec<u8>, LoadFail>
    ensures file { IfSome (F.told files.old) (λ t. ReadsFile (λ bytes. bytes.items) t path.now result) }
    ensures limit { IfOk result (λ bytes. length bytes.items ≤ file_limit) }
    ensures same { F.told files.new ≡ F.told files.old }
    ensures cause { HasCause (F.faults files.old) (F.faults files.new) result }
    ensures last { IfErr result (λ e. NamesLast e (F.last files.new)) }
{
    match read_all(alloc, files, path) {
        Ok(bytes) => Ok(bytes),
        Err(cause) => Err(read_fail(alloc, path, cause)),
    }
}

/// The text of the file of this name.
fn text_of<F: Files>(
    alloc: Global,
    files: &mut F,
    folder: &str,
    name: &str,
) -> Result<FileText, LoadFail>
    ensures text { IfSome (F.told files.old) (λ t. GivesText t folder.now name.now result) }
    ensures is { IfOk result (λ x. IsText folder.now x × (x.file ≡ name.now)) }
    ensures same { F.told files.new ≡ F.told files.old }
    ensures cause { HasCause (F.faults files.old) (F.faults files.new) result }
    ensures last { IfErr result (λ e. NamesLast e (F.last files.new)) }
{
    let path = path_of(alloc, folder, name)?;
    let bytes = read_file(alloc, files, path.as_str())?;
    Ok(FileText {
        file: Text::copy_of(alloc, name.as_bytes())?,
        path: path_text(alloc, folder, name.as_bytes())?,
        bytes,
    })
}

/// The texts of the files of these names, one after the other, up to the first that can't be read. Where they are too many bytes
/// together for a folder, those after them aren't read.
pub(crate) fn read_texts<F: Files>(
    alloc: Global,
    files: &mut F,
    folder: &str,
    names: &[String],
) -> Result<Texts, NoMemory>
    ensures texts { IfSome (F.told files.old) (λ t. IfOk result (AreTexts t folder.now (map string_bytes names.now))) }
    ensures are { IfOk result (λ x. All (IsText folder.now) x.read.items) }
    ensures few { IfOk result (λ x. length x.read.items ≤ length names.now) }
    ensures same { F.told files.new ≡ F.told files.old }
    ensures later { F.faults files.old ≤ F.faults files.new }
    ensures cause { IfOk result (λ x. IfSome x.stopped (λ e. FaultRose e (F.faults files.old) (F.faults files.new))) }
    ensures last { IfOk result (λ x. IfSome x.stopped (λ e. NamesLast e (F.last files.new))) }
{
    let mut read = Vec::new(alloc);
    let mut total = 0;
    for name in names {
        if total > FOLDER_LIMIT {
            return Ok(Texts {
                read,
                stopped: None,
            });
        }
        match text_of(alloc, files, folder, name.as_str()) {
            Ok(text) => {
                total += text.bytes.len();
                read.push(text)?;
            }
            Err(fail) => {
                return Ok(Texts {
                    read,
                    stopped: Some(fail),
                });
            }
        }
    }
    Ok(Texts {
        read,
        stopped: None,
    })
}
