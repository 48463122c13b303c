//! What is told of a folder's files.
ghost use Rattle.std.specs.Prelude.{◌≡◌, ◌≤◌, ◌++◌, ◌∷◌, [], IfOk, OnOk, length, map, option_and_then, option_map, option_to_list};
ghost use Rattle.std.specs.List.{flat_map};
ghost use Rattle.net_text.specs.Limits.{text_limit};
ghost use Rattle.net_io.specs.Files.{path_in};
ghost use Rattle.ios_config.specs.Reads.{effects, refusal};
ghost use Rattle.doctor_warnings.specs.Beside.{IsBeside};
ghost use Rattle.doctor_warnings.specs.Sides.{files_beside, files_in, texts_in};
ghost use Rattle.doctor_warnings.specs.Told.{keys};
ghost use Rattle.doctor_warnings.specs.Warnings.{alone_warnings, empty_warnings, file_named, file_warnings, folder_warnings, is_alone, other_keys, passed_warnings, refused_warning, unread_warnings};

use crate::configs::add_config;
use crate::examined::Examined;
use crate::hosts::add_taken;
use crate::lines::{nth_line, trimmed};
use crate::passing::{Beside, add_passed};
use crate::warning::{Warning, tell};
use ios_config::Refusal;
use net_types::{Duplicate, List, NoMemory, Text};
use std::alloc::Global;

/// A folder whose files were examined.
pub struct Folder {
    pub path: Text,
    pub files: Vec<Examined>,
    /// The names of its other files.
    pub unread: List<Text>,
}

impl Drop for Folder {
    fn drop(self) {
        let Folder {
            path: _,
            files: _,
            unread: _,
        } = self;
    }
}

impl Folder {
    /// Its files that are read.
    pub(crate) fn into_files(self) -> Vec<Examined>
        ensures { result ≡ self.files }
    {
        let Folder {
            path: _,
            files,
            unread: _,
        } = self;
        files
    }
}

/// Adds what is told of a folder, beside another one where there is one: of the folder as a whole, of its files in their order,
/// and of their hostnames.
pub(crate) fn add_folder(
    alloc: Global,
    folder: &Folder,
    other: Option<&Folder>,
    warnings: &mut Vec<Warning>,
) -> Result<(), NoMemory>
    ensures { OnOk result (warnings.new.items ≡ warnings.old.items ++ folder_warnings (texts_in folder.now) (files_beside other.entry)) }
{
    add_empty(alloc, folder, warnings)?;
    add_unread(alloc, folder, warnings)?;
    add_files(alloc, folder, other, warnings)?;
    add_taken(
        alloc,
        folder.path.as_bytes(),
        folder.files.as_slice(),
        warnings,
    )
}

/// Says that there is no file.
fn add_empty(alloc: Global, folder: &Folder, warnings: &mut Vec<Warning>) -> Result<(), NoMemory>
    ensures { OnOk result (warnings.new.items ≡ warnings.old.items ++ empty_warnings folder.now.path (files_in folder.now)) }
{
    match folder.files.as_slice() {
        [] => {
            let folder = folder.path.copy(alloc)?;
            tell(warnings, Warning::NoConfigs { folder })
        }
        [_, ..] => Ok(()),
    }
}

/// Says which other files there are.
fn add_unread(alloc: Global, folder: &Folder, warnings: &mut Vec<Warning>) -> Result<(), NoMemory>
    ensures { OnOk result (warnings.new.items ≡ warnings.old.items ++ unread_warnings folder.now.path folder.now.unread) }
{
    for name in folder.unread.as_slice() {
        let path = path_in(alloc, folder.path.as_bytes(), name)?;
        tell(warnings, Warning::Unread { path })?;
    }
    Ok(())
}

/// Adds what is told of the files, in their order.
fn add_files(
    alloc: Global,
    folder: &Folder,
    other: Option<&Folder>,
    warnings: &mut Vec<Warning>,
) -> Result<(), NoMemory>
    ensures { OnOk result (warnings.new.items ≡ warnings.old.items
        ++ flat_map (λ f. file_warnings (is_alone (files_beside other.entry) f.name) (other_keys (files_beside other.entry) f.name) (path_in folder.now.path f.name) f.bytes) (files_in folder.now)) }
{
    for file in folder.files.as_slice() {
        add_file(alloc, folder.path.as_bytes(), other, file, warnings)?;
    }
    Ok(())
}

/// Adds what is told of one file.
fn add_file(
    alloc: Global,
    folder: &[u8],
    other: Option<&Folder>,
    file: &Examined,
    warnings: &mut Vec<Warning>,
) -> Result<(), NoMemory>
    ensures { OnOk result (warnings.new.items ≡ warnings.old.items
        ++ file_warnings (is_alone (files_beside other.entry) file.now.file.name) (other_keys (files_beside other.entry) file.now.file.name) (path_in folder.now file.now.file.name) file.now.file.bytes) }
{
    let path = path_in(alloc, folder, &file.file.name)?;
    add_file_at(alloc, &path, other, file, warnings)
}

/// Adds what is told of the file of this path.
fn add_file_at(
    alloc: Global,
    path: &Text,
    other: Option<&Folder>,
    file: &Examined,
    warnings: &mut Vec<Warning>,
) -> Result<(), NoMemory>
    ensures { OnOk result (warnings.new.items ≡ warnings.old.items
        ++ file_warnings (is_alone (files_beside other.entry) file.now.file.name) (other_keys (files_beside other.entry) file.now.file.name) path.now file.now.file.bytes) }
{
    add_alone(alloc, is_alone(&file.file.name, other), path, warnings)?;
    add_refusal(alloc, path, file, warnings)?;
    add_beside(alloc, other, path, file, warnings)?;
    add_config(alloc, path, file, warnings)
}

/// Adds what is told of a file's lines that are passed over, beside the other folder's file of this name.
fn add_beside(
    alloc: Global,
    other: Option<&Folder>,
    path: &Text,
    file: &Examined,
    warnings: &mut Vec<Warning>,
) -> Result<(), NoMemory>
    ensures { OnOk result (warnings.new.items ≡ warnings.old.items ++ passed_warnings (other_keys (files_beside other.entry) file.now.file.name) path.now file.now.file.bytes) }
{
    let mut beside = beside_of(alloc, file_beside(&file.file.name, other))?;
    add_passed(alloc, &mut beside, path, file, warnings)
}

/// The path of a file.
pub(crate) fn path_in(alloc: Global, folder: &[u8], name: &Text) -> Result<Text, NoMemory>
    ensures { IfOk result (λ path. path ≡ path_in folder.now name.now) }
{
    let mut path = folder.to_vec(alloc)?;
    path.push(b'/')?;
    path.extend_from_slice(name.as_bytes())?;
    Ok(Text::new(path))
}

/// Says that the other folder has no file of the name.
fn add_alone(
    alloc: Global,
    alone: bool,
    path: &Text,
    warnings: &mut Vec<Warning>,
) -> Result<(), NoMemory>
    ensures { OnOk result (warnings.new.items ≡ warnings.old.items ++ alone_warnings alone path.now) }
{
    if alone {
        let path = path.copy(alloc)?;
        tell(warnings, Warning::OneFolder { path })?;
    }
    Ok(())
}

/// Adds the refusal of a file.
fn add_refusal(
    alloc: Global,
    path: &Text,
    file: &Examined,
    warnings: &mut Vec<Warning>,
) -> Result<(), NoMemory>
    ensures { OnOk result (warnings.new.items ≡ warnings.old.items
        ++ option_to_list (option_map (refused_warning path.now file.now.file.bytes) (refusal (effects file.now.file.bytes)))) }
{
    match &file.reading {
        Ok(_) => Ok(()),
        Err(refusal) => {
            tell(
                warnings,
                refused_warning(alloc, path, file.file.bytes.as_slice(), refusal)?,
            )
        }
    }
}

fn refused_warning(
    alloc: Global,
    path: &Text,
    bytes: &[u8],
    refusal: &Refusal,
) -> Result<Warning, NoMemory>
    requires { length bytes.now ≤ text_limit }
    ensures { IfOk result (λ w. w ≡ refused_warning path.now bytes.now refusal.now) }
{
    Ok(Warning::Refused {
        path: path.copy(alloc)?,
        line: refusal.line,
        kind: Text::copy_of(alloc, refusal.kind.name().as_bytes())?,
        word: refusal.word.copy(alloc)?,
        text: Text::copy_of(alloc, trimmed(nth_line(bytes, refusal.line)))?,
    })
}

/// Whether there is another folder, and it has no file of this name.
fn is_alone(name: &Text, other: Option<&Folder>) -> bool
    ensures { result ≡ is_alone (files_beside other.entry) name.now }
{
    match other {
        None => false,
        Some(other) => file_named(name, other.files.as_slice()).is_none(),
    }
}

/// The other folder's file of this name.
fn file_beside<'a>(name: &Text, other: Option<&'a Folder>) -> Option<&'a Examined>
    ensures { option_map (λ e. e.now.file) result ≡ option_and_then (file_named name.now) (files_beside other.entry) }
{
    match other {
        None => None,
        Some(other) => file_named(name, other.files.as_slice()),
    }
}

/// The lines of the other file, if there is one, and none of this one.
fn beside_of(alloc: Global, other: Option<&Examined>) -> Result<Option<Beside>, NoMemory>
    ensures { IfOk result (λ beside. IsBeside (option_map (λ f. keys f.bytes) (option_map (λ e. e.now.file) other.entry)) [] beside) }
{
    match other {
        None => Ok(None),
        Some(other) => Ok(Some(Beside::of(alloc, other)?)),
    }
}

/// The file of this name.
fn file_named<'a>(name: &Text, files: &'a [Examined]) -> Option<&'a Examined>
    ensures { option_map (λ e. e.now.file) result ≡ file_named name.now (map (λ e. e.file) files.now) }
{
    for file in files {
        if name.as_bytes() == file.file.name.as_bytes() {
            return Some(file);
        }
    }
    None
}
