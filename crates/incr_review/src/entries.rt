//! The access lists of a device after an edit of one of their entries.

ghost use Rattle.std.specs.Prelude.{◌≡◌, nat_lt, position, IfErr, OnOk};
ghost use Rattle.std.specs.List.{list_any};
ghost use Rattle.incr_review.specs.declared.edits.EditKind.TheVariants as kind;
ghost use Rattle.incr_review.specs.Edited.{IsFailOf, has_sequence, is_list, entry_added, drop_first, with_entry, lists_edited};
ghost use Rattle.incr_review.specs.Entries.{entries_by};

use crate::edits::{EditFail, EditKind};
use crate::lists::remove_at;
use crate::same::same_text;
use net_types::{AccessList, Duplicate, Entry, List, NoMemory, Text};
use std::alloc::Global;
use std::mem;

/// What is done to the entries of an access list.
#[derive(Clone, Copy)]
pub(crate) enum EntryEdit<'a> {
    Add { entry: &'a Entry },
    Drop { sequence: u32 },
}

/// Edits the entries of the first of the access lists that has this name.
pub(crate) fn edit_lists(
    alloc: Global,
    lists: &mut List<AccessList>,
    name: &Text,
    change: EntryEdit,
) -> Result<(), EditFail>
    ensures ok { OnOk result (lists_edited name.now (entries_by change.entry) lists.old ≡ Ok lists.new) }
    ensures fail { IfErr result (IsFailOf (lists_edited name.now (entries_by change.entry) lists.old)) }
{
    let Some(position) = list_position(lists.as_slice(), name) else {
        return Err(EditFail::Refused {
            kind: EditKind::UnknownList,
        });
    };
    let mut all = mem::replace(lists, List::empty(alloc)).into_vec();
    let edited = edit_entries(alloc, &mut all[position].entries, change);
    *lists = List::new(all);
    edited
}

fn list_position(lists: &[AccessList], name: &Text) -> Option<usize>
    ensures { result ≡ position (is_list name.now) lists.now }
{
    lists.iter().position(|list| same_text(&list.name, name))
}

fn edit_entries(alloc: Global, entries: &mut List<Entry>, change: EntryEdit) -> Result<(), EditFail>
    ensures ok { OnOk result (entries_by change.entry entries.old ≡ Ok entries.new) }
    ensures fail { IfErr result (IsFailOf (entries_by change.entry entries.old)) }
{
    match change {
        EntryEdit::Add { entry } => add_entry(alloc, entries, entry),
        EntryEdit::Drop { sequence } => drop_entry(alloc, entries, sequence),
    }
}

// Puts the entry before the first one of a greater sequence.
fn add_entry(alloc: Global, entries: &mut List<Entry>, entry: &Entry) -> Result<(), EditFail>
    ensures ok { OnOk result (entry_added entry.now entries.old ≡ Ok entries.new) }
    ensures fail { IfErr result (IsFailOf (entry_added entry.now entries.old)) }
{
    if is_taken(entries.as_slice(), entry.sequence) {
        return Err(EditFail::Refused {
            kind: EditKind::SequenceTaken,
        });
    }
    let copy = entry.copy(alloc)?;
    let mut all = mem::replace(entries, List::empty(alloc)).into_vec();
    let put = put_entry(&mut all, copy);
    *entries = List::new(all);
    put?;
    Ok(())
}

// Puts the entry in its place, where none has its sequence.
fn put_entry(entries: &mut Vec<Entry>, entry: Entry) -> Result<(), NoMemory>
    ensures { OnOk result (entries.new.items ≡ with_entry entry entries.old.items) }
{
    match greater_position(entries.as_slice(), entry.sequence) {
        None => entries.push(entry)?,
        Some(position) => entries.insert(position, entry)?,
    }
    Ok(())
}

fn is_taken(entries: &[Entry], sequence: u32) -> bool
    ensures { result ≡ list_any (has_sequence sequence) entries.now }
{
    entries.iter().any(|entry| entry.sequence == sequence)
}

fn greater_position(entries: &[Entry], sequence: u32) -> Option<usize>
    ensures { result ≡ position (λ e. nat_lt sequence e.sequence) entries.now }
{
    entries.iter().position(|entry| sequence < entry.sequence)
}

// Takes the entry of this sequence out.
fn drop_entry(alloc: Global, entries: &mut List<Entry>, sequence: u32) -> Result<(), EditFail>
    ensures ok { OnOk result (drop_first (has_sequence sequence) kind.NoSuchEntry entries.old ≡ Ok entries.new) }
    ensures fail { IfErr result (IsFailOf (drop_first (has_sequence sequence) kind.NoSuchEntry entries.old)) }
{
    let Some(position) = sequence_position(entries.as_slice(), sequence) else {
        return Err(EditFail::Refused {
            kind: EditKind::NoSuchEntry,
        });
    };
    remove_at(alloc, entries, position);
    Ok(())
}

fn sequence_position(entries: &[Entry], sequence: u32) -> Option<usize>
    ensures { result ≡ position (has_sequence sequence) entries.now }
{
    entries.iter().position(|entry| entry.sequence == sequence)
}
