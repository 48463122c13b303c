//! Files and folders in memory, which tell all that they hold. One call may be made to fail, and reads to give few bytes.

ghost use Rattle.std.specs.Prelude.{◌≡◌, ◌↔◌, ◌<◌, ◌≤◌, ◌==◌, false, Some};
ghost use Rattle.std.specs.Prelude.{IfOk, OnOk, OnErr, IsOk, IsErrOf, IsTrue, IsSome, IfSome, length, map, find, filter_map, option_map, string_bytes};
ghost use Rattle.std.specs.List.{list_any};
ghost use Rattle.std.specs.Option.{option_copied};
ghost use Rattle.std.specs.Str.{bytes_eq};
ghost use Rattle.net_io.specs.Faults.{IsLast, MarksLast};
ghost use Rattle.net_io.specs.Files.{content, has_folder, IsListing, IsPiece, IsAbsentUnless, slash};
ghost use Rattle.net_io.specs.Names.{after_folder, after_slash, plain_name, name_in};
ghost use Rattle.net_io.specs.Store.{empty_store, with_file, with_folder, is_due, called};
ghost use Rattle.net_io.specs.MemFiles.{entries, paths};
ghost use Rattle.net_io.specs.Pieces.{at_most};
ghost use Rattle.net_io.specs.declared.reading.FileFail.TheVariants as file;

use crate::{FileFail, Files};
use no_memory::NoMemory;
use std::alloc::{AllocError, Global};
use std::marker::Model;

#[derive(Drop)]
struct MemFile {
    path: String,
    bytes: Vec<u8>,
}

/// Files in memory, of which one call may be made to fail.
///
/// They tell all that they hold. A folder exists where [`MemFiles::folder`] made it, whatever files there
/// are.
pub struct MemFiles {
    alloc: Global,
    files: Vec<MemFile>,
    folders: Vec<String>,
    calls: u64,
    fails_at: Option<u64>,
    most: Option<usize>,
    faults: u64,
    // The path of the call that failed last, where there was memory for it.
    last: Option<String>,
}

impl Drop for MemFiles {
    fn drop(self) {
        let MemFiles {
            alloc: _,
            files: _,
            folders: _,
            calls: _,
            fails_at: _,
            most: _,
            faults: _,
            last: _,
        } = self;
    }
}

impl Model for MemFiles {
    ghost use Rattle.std.specs.Prelude.{◌≤◌, IfSome, map, option_map, string_bytes};
    ghost use Rattle.std.specs.List.{IsDistinct};
    ghost use Rattle.std.specs.Str.{bytes_eq};
    ghost use Rattle.net_io.specs.Store.{Store};

    ghost Value = { Store };

    ghost use Rattle.net_io.specs.MemFiles.{entries, paths};

    ghost view = { λ m. record {
      told = record { files = entries m.files.items; folders = map string_bytes m.folders.items };
      calls = m.calls;
      fails_at = m.fails_at;
      most = m.most;
      faults = m.faults;
      last = option_map string_bytes m.last;
    } };

    // No path is there twice, and a read gives at least one byte.
    ghost invariant = { λ m. IsDistinct bytes_eq (paths m.files.items) × IfSome m.most (λ most. 1 ≤ most) };
}

impl MemFiles {
    /// No files and no folders. It takes no memory yet.
    pub fn new(alloc: Global) -> Result<MemFiles, NoMemory>
        ensures made { IsOk result }
        ensures empty { IfOk result (λ files. files ≡ empty_store) }
    {
        Ok(MemFiles {
            alloc,
            files: Vec::new(alloc),
            folders: Vec::new(alloc),
            calls: 0,
            fails_at: None,
            most: None,
            faults: 0,
            last: None,
        })
    }

    /// Makes a folder.
    pub fn folder(&mut self, path: &str) -> Result<(), NoMemory>
        ensures made { OnOk result (self.new ≡ record self.old { told = with_folder path.now self.old.told }) }
        ensures err { OnErr result (self.new ≡ self.old) }
    {
        let path = path.to_string(self.alloc)?;
        self.folders.push(path)?;
        Ok(())
    }

    /// Puts a file with these bytes at a path, in place of the one that is there.
    pub fn put(&mut self, path: &str, bytes: &[u8]) -> Result<(), NoMemory>
        ensures put { OnOk result (self.new ≡ record self.old { told = record self.old.told { files = with_file path.now bytes.now self.old.told.files } }) }
        ensures err { OnErr result (self.new ≡ self.old) }
    {
        let path = path.to_string(self.alloc)?;
        let bytes = bytes.to_vec(self.alloc)?;
        put_file(&mut self.files, path, bytes)
    }

    /// Makes the call of this number fail, of those of `list` and `read`, counted from 0 since the files
    /// were made. It takes the place of an earlier number.
    pub fn fail_at(&mut self, call: u64)
        ensures { self.new ≡ record self.old { fails_at = Some call } }
    {
        self.fails_at = Some(call);
    }

    /// Lets each read from now on give at most so many bytes. It takes the place of an earlier number.
    pub fn at_most(&mut self, bytes: usize)
        requires { 1 ≤ bytes }
        ensures { self.new ≡ record self.old { most = Some bytes } }
    {
        self.most = Some(bytes);
    }

    // Counts a call of `list` or `read` on this path, and says whether it is the one that fails.
    fn begin_call(&mut self, path: &str) -> bool
        ensures counted { self.new ≡ record (called self.old) { last = self.new.last } }
        ensures later { self.old.faults ≤ self.new.faults }
        ensures due { result ≡ is_due self.old.fails_at self.old.calls }
        ensures last { IsTrue result → IsLast path.now self.new.last }
        ensures other { result ≡ false → self.new.last ≡ self.old.last }
    {
        let is_due = is_due(self.fails_at, self.calls);
        self.calls = self.calls.saturating_add(1);
        if is_due {
            self.faults = self.faults.saturating_add(1);
            self.last = path.to_string(self.alloc).ok();
        }
        is_due
    }
}

impl Files for MemFiles {
    ghost told = { λ s. Some s.told };

    ghost faults = { λ s. s.faults };

    ghost last = { λ s. s.last };

    fn list(&mut self, alloc: Global, path: &str) -> Result<Vec<String>, FileFail>
        ensures counted { self.new ≡ record (called self.old) { last = self.new.last } }
        ensures later { self.old.faults ≤ self.new.faults }
        ensures names { IfOk result (λ names. IsListing self.old.told path.now (map string_bytes names.items)) }
        ensures absent { IsAbsentUnless (IsTrue (has_folder self.old.told path.now)) result }
        ensures failed { IsErrOf result file.Failed ↔ IsTrue (is_due self.old.fails_at self.old.calls) }
        ensures last { MarksLast path.now self.old.last self.new.last result }
    {
        if self.begin_call(path) {
            return Err(FileFail::Failed);
        }
        if !has_folder(&self.folders, path) {
            return Err(FileFail::Absent);
        }
        Ok(names_in(alloc, &self.files, path)?)
    }

    fn read(&mut self, path: &str, at: u64, room: &mut [u8]) -> Result<usize, FileFail>
        ensures counted { self.new ≡ record (called self.old) { last = self.new.last } }
        ensures later { self.old.faults ≤ self.new.faults }
        ensures bound { IfOk result (λ n. n ≤ at_most self.old.most (length room.old)) }
        ensures piece { IfOk result (λ n. IfSome (content self.old.told path.now) (λ bytes. IsPiece bytes at room.new n)) }
        ensures more { IfOk result (λ n. IfSome (content self.old.told path.now) (λ bytes. at < length bytes → 0 < length room.old → 0 < n)) }
        ensures absent { IsAbsentUnless (IsSome (content self.old.told path.now)) result }
        ensures failed { IsErrOf result file.Failed ↔ IsTrue (is_due self.old.fails_at self.old.calls) }
        ensures last { MarksLast path.now self.old.last self.new.last result }
        ensures memory { IsErrOf result file.NoMemory → ⊥ }
    {
        if self.begin_call(path) {
            return Err(FileFail::Failed);
        }
        let Some(bytes) = bytes_at(&self.files, path) else {
            return Err(FileFail::Absent);
        };
        let most = within_most(self.most, room.len());
        Ok(copy_piece(bytes, at, &mut room[..most]))
    }
}

fn is_due(fails_at: Option<u64>, calls: u64) -> bool
    ensures { result ≡ is_due fails_at calls }
{
    match fails_at {
        Some(call) => call == calls,
        None => false,
    }
}

// So many bytes, or as many as one read gives.
pub(crate) fn within_most(most: Option<usize>, count: usize) -> usize
    ensures { result ≡ at_most most count }
{
    match most {
        Some(most) => most.min(count),
        None => count,
    }
}

// Puts a file in place of the one at its path, or last.
fn put_file(files: &mut Vec<MemFile>, path: String, bytes: Vec<u8>) -> Result<(), NoMemory>
    ensures put { OnOk result (entries files.new.items ≡ with_file (string_bytes path) bytes.items (entries files.old.items)) }
    ensures err { OnErr result (entries files.new.items ≡ entries files.old.items) }
{
    for i in 0..files.len() {
        if files[i].path.as_str() == path.as_str() {
            files[i] = MemFile { path, bytes };
            return Ok(());
        }
    }
    files.push(MemFile { path, bytes })?;
    Ok(())
}

fn bytes_at<'a>(files: &'a [MemFile], path: &str) -> Option<&'a [u8]>
    ensures { option_copied result ≡ option_map (λ file. file.1) (find (λ file. bytes_eq file.0 path.now) (entries files.now)) }
{
    for file in files {
        if file.path.as_str() == path {
            return Some(file.bytes.as_slice());
        }
    }
    None
}

fn has_folder(folders: &[String], path: &str) -> bool
    ensures { result ≡ list_any (bytes_eq path.now) (map string_bytes folders.now) }
{
    for folder in folders {
        if path == folder.as_str() {
            return true;
        }
    }
    false
}

// Copies the bytes from the place `at` on into the room, and answers how many.
fn copy_piece(bytes: &[u8], at: u64, room: &mut [u8]) -> usize
    ensures bound { result ≤ length room.old }
    ensures piece { IsPiece bytes.now at room.new result }
    ensures more { at < length bytes.now → 0 < length room.old → 0 < result }
{
    let at = at as usize;
    if at >= bytes.len() {
        return 0;
    }
    let rest = &bytes[at..];
    let count = room.len().min(rest.len());
    room[..count].copy_from_slice(&rest[..count]);
    count
}

// The names of the files in a folder.
fn names_in(alloc: Global, files: &[MemFile], folder: &str) -> Result<Vec<String>, AllocError>
    ensures names { IfOk result (λ names. map string_bytes names.items ≡ filter_map (name_in folder.now) (paths files.now)) }
{
    let mut names = Vec::new(alloc);
    for file in files {
        if let Some(name) = name_in(folder, file.path.as_str()) {
            names.push(name.to_string(alloc)?)?;
        }
    }
    Ok(names)
}

// The name of a path that lies in this folder itself.
fn name_in<'a>(folder: &str, path: &'a str) -> Option<&'a str>
    ensures { option_copied result ≡ name_in folder.now path.now }
{
    let Some(rest) = after_folder(folder, path) else {
        return None;
    };
    let Some(name) = after_slash(rest) else {
        return None;
    };
    plain_name(name)
}

fn after_folder<'a>(folder: &str, path: &'a str) -> Option<&'a str>
    ensures { option_copied result ≡ after_folder folder.now path.now }
{
    path.strip_prefix(folder)
}

fn after_slash(rest: &str) -> Option<&str>
    ensures { option_copied result ≡ after_slash rest.now }
{
    rest.strip_prefix('/')
}

fn plain_name(name: &str) -> Option<&str>
    ensures { option_copied result ≡ plain_name name.now }
{
    if has_slash(name.as_bytes()) {
        return None;
    }
    Some(name)
}

fn has_slash(bytes: &[u8]) -> bool
    ensures { result ≡ list_any (λ c. c == slash) bytes.now }
{
    bytes.iter().any(|c| *c == b'/')
}
