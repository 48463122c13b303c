//! The files of a folder, loaded one after the other from their texts.
ghost use Rattle.std.specs.Prelude.{◌≡◌, ◌≤◌, ◌+◌, ◌++◌, ◌∷◌, [], All, IfErr, IfOk, IfSome, OnOk, Some, false, find, length, map, slice_get};
ghost use Rattle.std.specs.Option.{option_copied};
ghost use Rattle.std.specs.Str.{bytes_eq};
ghost use Rattle.std.specs.List.{list_any};
ghost use Rattle.net_io.specs.Files.{Told, path_in};
ghost use Rattle.topo_links.specs.Check.{host_of};
ghost use Rattle.net_load.specs.Limits.{folder_limit};
ghost use Rattle.net_load.specs.Numbering.{config_names, folder_names};
ghost use Rattle.net_load.specs.Folder.{LoadsNames};
ghost use Rattle.net_load.specs.Loader.{IsLoader, AddsReading, Accepts, IsNoFault};
ghost use Rattle.net_load.specs.Texts.{IsText, Holds, ReadsText, AreReadings, file_of};

use crate::folder::{FOLDER_LIMIT, LoadFail};
use crate::readings::{read_text, take_reading};
use crate::texts::{FileText, path_text};
use ios_config::Reading;
use net_types::{Duplicate, Loaded, NoMemory, Text};
use std::alloc::Global;
use topo_links::NameIndex;

/// The files that are loaded so far.
pub struct Loader {
    pub loaded: Vec<Loaded>,
    /// Their hostnames.
    pub hosts: NameIndex,
    /// How many bytes they have together.
    pub total: usize,
}

impl Drop for Loader {
    fn drop(self) {
        let Loader {
            loaded: _,
            hosts: _,
            total: _,
        } = self;
    }
}

impl Loader {
    /// No file.
    pub fn new(alloc: Global) -> Loader
        ensures loaded { result.loaded.items ≡ [] }
        ensures total { result.total ≡ 0 }
        ensures loader { IsLoader result }
    {
        Loader {
            loaded: Vec::new(alloc),
            hosts: NameIndex::new(alloc),
            total: 0,
        }
    }

    /// The files, without their hostnames.
    fn into_loaded(self) -> Vec<Loaded>
        ensures { result ≡ self.loaded }
    {
        let Loader {
            loaded,
            hosts: _,
            total: _,
        } = self;
        loaded
    }

    /// The file at a place.
    fn file_at(&self, place: usize) -> Option<&Loaded>
        ensures { option_copied result ≡ slice_get self.now.loaded.items place }
    {
        let Some(loaded) = self.loaded.get(place) else {
            return None;
        };
        Some(loaded)
    }

    /// The first file that has this hostname.
    fn taken(&self, hostname: &Text) -> Option<&Loaded>
        requires { IsLoader self.now }
        ensures { option_copied result ≡ find (λ o. bytes_eq hostname.now (host_of o)) self.now.loaded.items }
    {
        let Some(place) = self.hosts.place(hostname) else {
            return None;
        };
        self.file_at(place)
    }

    /// Adds a file whose hostname is new.
    fn add(&mut self, alloc: Global, loaded: Loaded, size: usize) -> Result<(), NoMemory>
        requires loader { IsLoader self.old }
        requires host { list_any (bytes_eq (host_of loaded)) (map host_of self.old.loaded.items) ≡ false }
        requires names { length (config_names loaded.config) ≤ size }
        requires size { self.old.total + size ≤ folder_limit }
        ensures loaded { OnOk result (self.new.loaded.items ≡ self.old.loaded.items ++ loaded ∷ []) }
        ensures total { OnOk result (self.new.total ≡ self.old.total + size) }
        ensures loader { OnOk result (IsLoader self.new) }
    {
        self.hosts.add(alloc, &loaded.config.hostname)?;
        self.loaded.push(loaded)?;
        self.total += size;
        Ok(())
    }

    /// Adds a file that is read, where its hostname is new.
    fn add_reading(
        &mut self,
        alloc: Global,
        folder: &str,
        path: Text,
        loaded: Loaded,
        size: usize,
    ) -> Result<(), LoadFail>
        requires loader { IsLoader self.old }
        requires names { length (config_names loaded.config) ≤ size }
        requires size { self.old.total + size ≤ folder_limit }
        ensures adds { AddsReading folder.now path loaded size self.old self.new result }
        ensures loader { OnOk result (IsLoader self.new) }
    {
        if let Some(other) = self.taken(&loaded.config.hostname) {
            return Err(LoadFail::HostnameTaken {
                first: path_text(alloc, folder, other.file.as_bytes())?,
                second: path,
            });
        }
        self.add(alloc, loaded, size)?;
        Ok(())
    }

    /// Adds the file of a text, where it is the next one. It may be read already.
    fn accept(
        &mut self,
        alloc: Global,
        folder: &str,
        text: &FileText,
        known: Option<Result<Reading, LoadFail>>,
    ) -> Result<(), LoadFail>
        requires loader { IsLoader self.old }
        requires text { IsText folder.now text.now }
        requires known { IfSome known (ReadsText text.now) }
        ensures accepts { Accepts folder.now text.now.file text.now.bytes.items self.old self.new result }
        ensures loader { OnOk result (IsLoader self.new) }
    {
        if text.bytes.len() > FOLDER_LIMIT - self.total {
            return Err(LoadFail::FolderTooLong {
                path: Text::copy_of(alloc, folder.as_bytes())?,
            });
        }
        let Reading { config, passed } = match known {
            Some(reading) => reading?,
            None => read_text(alloc, text)?,
        };
        let loaded = Loaded {
            file: text.file.copy(alloc)?,
            config,
            passed,
        };
        let path = text.path.copy(alloc)?;
        self.add_reading(alloc, folder, path, loaded, text.bytes.len())
    }
}

/// Loads the files of these texts, one after the other. `known` has for some of them, by their positions, what they are read as.
pub(crate) fn load_texts(
    alloc: Global,
    folder: &str,
    texts: &[FileText],
    mut known: Vec<Option<Result<Reading, LoadFail>>>,
) -> Result<Vec<Loaded>, LoadFail>
    requires texts { All (IsText folder.now) texts.now }
    requires known { AreReadings texts.now known.items }
    ensures files { (t : Told) → All (Holds t folder.now) texts.now → LoadsNames (λ loaded. loaded.items) t folder.now (map file_of texts.now) result }
    ensures count { IfOk result (λ loaded. length loaded.items ≡ length texts.now) }
    ensures names { IfOk result (λ loaded. length (folder_names loaded.items) ≤ folder_limit) }
    ensures no_fault { IfErr result IsNoFault }
{
    let mut loader = Loader::new(alloc);
    load_into(alloc, folder, texts, &mut known, &mut loader)?;
    Ok(loader.into_loaded())
}

/// Loads the files of these texts behind no file.
fn load_into(
    alloc: Global,
    folder: &str,
    texts: &[FileText],
    known: &mut Vec<Option<Result<Reading, LoadFail>>>,
    loader: &mut Loader,
) -> Result<(), LoadFail>
    requires texts { All (IsText folder.now) texts.now }
    requires known { AreReadings texts.now known.old.items }
    requires loader { IsLoader loader.old }
    requires loaded { loader.old.loaded.items ≡ [] }
    requires total { loader.old.total ≡ 0 }
    ensures files { (t : Told) → All (Holds t folder.now) texts.now → LoadsNames (λ _. loader.new.loaded.items) t folder.now (map file_of texts.now) result }
    ensures count { IfOk result (λ _. length loader.new.loaded.items ≡ length texts.now) }
    ensures loader { IfOk result (λ _. IsLoader loader.new) }
    ensures no_fault { IfErr result IsNoFault }
{
    for at in 0..texts.len() {
        let reading = take_reading(known, at);
        loader.accept(alloc, folder, &texts[at], reading)?;
    }
    Ok(())
}
