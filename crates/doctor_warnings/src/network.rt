//! What is told of one network or two.
ghost use Rattle.std.specs.Prelude.{◌≡◌, ◌++◌, IfOk, OnOk, None, Some, map, option_map};
ghost use Rattle.doctor_warnings.specs.Doctor.{tables_limits, tables_warnings, warnings_alone, warnings_of_both, wired_limits, AreNotes};
ghost use Rattle.doctor_warnings.specs.Listed.{listed_if};
ghost use Rattle.doctor_warnings.specs.Sides.{files_in, texts_in};
ghost use Rattle.doctor_warnings.specs.Tables.{devices_of};
ghost use Rattle.doctor_warnings.specs.Warnings.{folder_warnings};

use crate::examined::{Examined, examine_all};
use crate::files::{TextAt, TextFile};
use crate::folder::{Folder, add_folder};
use crate::limit::Limit;
use crate::listing::{ListedLine, add_lines};
use crate::tables::{TableNotes, add_table, both_of, devices_of};
use crate::warning::Warning;
use crate::wiring::Wiring;
use net_types::{List, Loaded, NoMemory, Text};
use std::alloc::Global;

/// A folder: its path, and the texts of its configurations in the order of their names.
#[derive(Drop)]
pub struct Texts {
    pub path: Text,
    pub files: List<TextFile>,
    /// The names of its files that aren't read, in the order of their bytes.
    pub unread: List<Text>,
}

/// The link table of both networks, or one for each.
#[derive(Drop)]
pub struct Tables {
    pub links: TextAt,
    /// That of the new network, where it has its own.
    pub new_links: Option<TextAt>,
}

/// What is looked at: one network, or two that are compared.
#[derive(Drop)]
pub struct Subject {
    /// Whether all lines that are passed over are listed.
    pub all: bool,
    pub old: Texts,
    pub new: Option<Texts>,
    pub tables: Tables,
}

/// Everything that is told.
pub struct Notes {
    pub warnings: List<Warning>,
    /// Where the networks meet a limit of the model.
    pub limits: List<Limit>,
    /// The lines that are passed over, where all are asked for.
    pub lines: List<ListedLine>,
}

impl Drop for Notes {
    fn drop(self) {
        let Notes {
            warnings: _,
            limits: _,
            lines: _,
        } = self;
    }
}

/// Everything that is told of the networks and their tables, in order.
pub fn notes_on(alloc: Global, subject: Subject) -> Result<Notes, NoMemory>
    ensures { IfOk result (AreNotes subject) }
{
    let Subject {
        all,
        old,
        new,
        tables,
    } = subject;
    notes_by(alloc, all, old, new, &tables)
}

/// The same by the parts of what is looked at.
fn notes_by(
    alloc: Global,
    all: bool,
    old: Texts,
    new: Option<Texts>,
    tables: &Tables,
) -> Result<Notes, NoMemory>
    ensures { IfOk result (AreNotes (record { all = all; old = old; new = new; tables = tables.now })) }
{
    let old = folder_of(alloc, old)?;
    match new {
        None => notes_alone(alloc, all, old, tables),
        Some(new) => notes_on_both(alloc, all, old, folder_of(alloc, new)?, tables),
    }
}

/// What is found in the files of a folder.
fn folder_of(alloc: Global, texts: Texts) -> Result<Folder, NoMemory>
    ensures { IfOk result (λ f. texts_in f ≡ texts) }
{
    let Texts {
        path,
        files,
        unread,
    } = texts;
    Ok(Folder {
        path,
        files: examine_all(alloc, files.into_vec())?,
        unread,
    })
}

/// One network.
fn notes_alone(alloc: Global, all: bool, net: Folder, tables: &Tables) -> Result<Notes, NoMemory>
    ensures { IfOk result (AreNotes (record { all = all; old = texts_in net; new = None; tables = tables.now })) }
{
    let mut notes = TableNotes::new(alloc);
    let lines = tell_alone(alloc, all, net, tables, &mut notes)?;
    notes.finish(alloc, lines)
}

/// Adds what is told of one network. The answer are the lines of its folder that are listed.
fn tell_alone(
    alloc: Global,
    all: bool,
    net: Folder,
    tables: &Tables,
    notes: &mut TableNotes,
) -> Result<Vec<ListedLine>, NoMemory>
    ensures warnings { IfOk result (λ _. notes.new.warnings.items ≡ notes.old.warnings.items ++ warnings_alone (texts_in net) tables.now) }
    ensures limits { IfOk result (λ _. notes.new.limits.items ≡ notes.old.limits.items ++ wired_limits (texts_in net) None tables.now) }
    ensures lines { IfOk result (λ lines. lines.items ≡ listed_if all (texts_in net) None) }
{
    let lines = tell_folder(alloc, all, &net, &mut notes.warnings)?;
    tell_devices(alloc, net.into_files(), tables, notes)?;
    Ok(lines)
}

/// Adds what is told of the folder of one network. The answer are its lines that are listed.
fn tell_folder(
    alloc: Global,
    all: bool,
    net: &Folder,
    warnings: &mut Vec<Warning>,
) -> Result<Vec<ListedLine>, NoMemory>
    ensures warnings { IfOk result (λ _. warnings.new.items ≡ warnings.old.items ++ folder_warnings (texts_in net.now) None) }
    ensures lines { IfOk result (λ lines. lines.items ≡ listed_if all (texts_in net.now) None) }
{
    add_folder(alloc, net, None, warnings)?;
    lines_of(alloc, all, net, None)
}

/// Adds what is told of the tables of one network of these files.
fn tell_devices(
    alloc: Global,
    files: Vec<Examined>,
    tables: &Tables,
    notes: &mut TableNotes,
) -> Result<(), NoMemory>
    ensures warnings { OnOk result (notes.new.warnings.items ≡ notes.old.warnings.items ++ tables_warnings Wiring.Alone (devices_of (map (λ e. e.file) files.items)) (devices_of (map (λ e. e.file) files.items)) tables.now) }
    ensures limits { OnOk result (notes.new.limits.items ≡ notes.old.limits.items ++ tables_limits Wiring.Alone (devices_of (map (λ e. e.file) files.items)) (devices_of (map (λ e. e.file) files.items)) tables.now) }
{
    let devices = devices_of(alloc, files)?;
    add_tables(alloc, Wiring::Alone, &devices, &devices, tables, notes)
}

/// Two networks.
fn notes_on_both(
    alloc: Global,
    all: bool,
    old: Folder,
    new: Folder,
    tables: &Tables,
) -> Result<Notes, NoMemory>
    ensures { IfOk result (AreNotes (record { all = all; old = texts_in old; new = Some (texts_in new); tables = tables.now })) }
{
    let mut notes = TableNotes::new(alloc);
    let lines = tell_both(alloc, all, old, new, tables, &mut notes)?;
    notes.finish(alloc, lines)
}

/// Adds what is told of two networks. The answer are the lines of their folders that are listed.
fn tell_both(
    alloc: Global,
    all: bool,
    old: Folder,
    new: Folder,
    tables: &Tables,
    notes: &mut TableNotes,
) -> Result<Vec<ListedLine>, NoMemory>
    ensures warnings { IfOk result (λ _. notes.new.warnings.items ≡ notes.old.warnings.items ++ warnings_of_both (texts_in old) (texts_in new) tables.now) }
    ensures limits { IfOk result (λ _. notes.new.limits.items ≡ notes.old.limits.items ++ wired_limits (texts_in old) (Some (texts_in new)) tables.now) }
    ensures lines { IfOk result (λ lines. lines.items ≡ listed_if all (texts_in old) (Some (texts_in new))) }
{
    let lines = tell_folders(alloc, all, &old, &new, &mut notes.warnings)?;
    tell_both_devices(alloc, old.into_files(), new.into_files(), tables, notes)?;
    Ok(lines)
}

/// Adds what is told of the folders of two networks. The answer are their lines that are listed.
fn tell_folders(
    alloc: Global,
    all: bool,
    old: &Folder,
    new: &Folder,
    warnings: &mut Vec<Warning>,
) -> Result<Vec<ListedLine>, NoMemory>
    ensures warnings { IfOk result (λ _. warnings.new.items ≡ warnings.old.items ++ (folder_warnings (texts_in old.now) (Some (files_in new.now)) ++ folder_warnings (texts_in new.now) (Some (files_in old.now)))) }
    ensures lines { IfOk result (λ lines. lines.items ≡ listed_if all (texts_in old.now) (Some (texts_in new.now))) }
{
    add_folder(alloc, old, Some(new), warnings)?;
    add_folder(alloc, new, Some(old), warnings)?;
    lines_of(alloc, all, old, Some(new))
}

/// Adds what is told of the tables of two networks of these files.
fn tell_both_devices(
    alloc: Global,
    old: Vec<Examined>,
    new: Vec<Examined>,
    tables: &Tables,
    notes: &mut TableNotes,
) -> Result<(), NoMemory>
    ensures warnings { OnOk result (notes.new.warnings.items ≡ notes.old.warnings.items ++ tables_warnings Wiring.Both (devices_of (map (λ e. e.file) old.items)) (devices_of (map (λ e. e.file) new.items)) tables.now) }
    ensures limits { OnOk result (notes.new.limits.items ≡ notes.old.limits.items ++ tables_limits Wiring.Both (devices_of (map (λ e. e.file) old.items)) (devices_of (map (λ e. e.file) new.items)) tables.now) }
{
    let old = devices_of(alloc, old)?;
    let new = devices_of(alloc, new)?;
    add_tables(alloc, Wiring::Both, &old, &new, tables, notes)
}

/// The lines of the folders that are passed over, where all are asked for.
fn lines_of(
    alloc: Global,
    all: bool,
    old: &Folder,
    new: Option<&Folder>,
) -> Result<Vec<ListedLine>, NoMemory>
    ensures { IfOk result (λ lines. lines.items ≡ listed_if all (texts_in old.now) (option_map (λ f. texts_in f.now) new.entry)) }
{
    let mut lines = Vec::new(alloc);
    if !all {
        return Ok(lines);
    }
    add_lines(alloc, old.path.as_bytes(), old.files.as_slice(), &mut lines)?;
    if let Some(new) = new {
        add_lines(alloc, new.path.as_bytes(), new.files.as_slice(), &mut lines)?;
    }
    Ok(lines)
}

/// Adds what is told of the tables; `only` is what a table wires where there is no other.
fn add_tables(
    alloc: Global,
    only: Wiring,
    old: &Option<List<Loaded>>,
    new: &Option<List<Loaded>>,
    tables: &Tables,
    notes: &mut TableNotes,
) -> Result<(), NoMemory>
    ensures warnings { OnOk result (notes.new.warnings.items ≡ notes.old.warnings.items ++ tables_warnings only old.now new.now tables.now) }
    ensures limits { OnOk result (notes.new.limits.items ≡ notes.old.limits.items ++ tables_limits only old.now new.now tables.now) }
{
    match &tables.new_links {
        None => add_table(alloc, only, &tables.links, both_of(old, new), notes),
        Some(new_links) => {
            add_table(alloc, Wiring::Old, &tables.links, both_of(old, new), notes)?;
            add_table(alloc, Wiring::New, new_links, both_of(new, old), notes)
        }
    }
}
