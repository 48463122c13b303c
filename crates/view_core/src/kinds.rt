//! Kinds of change, and the groups of each.

ghost use Rattle.std.specs.Prelude.{◌≡◌, ◌++◌, ◌<◌, length, map, IfOk, OnOk};
ghost use Rattle.std.specs.List.{flat_map};
ghost use Rattle.view_core.specs.Kinds.{rank_of, is_of_kind, of_kind, kind_count, in_order};

use net_types::NoMemory;
use report_groups::{Change, Entry};
use std::alloc::Global;

/// The kinds, from the most feared to the least.
pub(crate) const KINDS: [Change; 7] = [
    Change::Loops,
    Change::Closes,
    Change::Opens,
    Change::Sometimes,
    Change::Translated,
    Change::Moves,
    Change::LoopGone,
];

/// The groups in the order in which they are shown: the most feared kind first.
///
/// # Errors
///
/// There was no memory.
#[tactic(auto, unfolding(crate::specs::Kinds::in_order, crate::specs::Kinds::kinds))]
pub fn in_order<'a>(alloc: Global, entries: &'a [Entry]) -> Result<Vec<&'a Entry>, NoMemory>
    ensures { IfOk result (λ found. map (λ e. e.now) found.items ≡ in_order entries.now) }
{
    let mut found = Vec::with_capacity(alloc, entries.len())?;
    add_kinds(&mut found, entries, &KINDS)?;
    Ok(found)
}

fn add_kinds<'a>(
    found: &mut Vec<&'a Entry>,
    entries: &'a [Entry],
    kinds: &[Change],
) -> Result<(), NoMemory>
    ensures { OnOk result (map (λ e. e.now) found.new.items ≡ map (λ e. e.now) found.old.items ++ flat_map (of_kind entries.now) kinds.now) }
{
    for kind in kinds {
        add_kind(found, entries, *kind)?;
    }
    Ok(())
}

fn add_kind<'a>(
    found: &mut Vec<&'a Entry>,
    entries: &'a [Entry],
    kind: Change,
) -> Result<(), NoMemory>
    ensures { OnOk result (map (λ e. e.now) found.new.items ≡ map (λ e. e.now) found.old.items ++ of_kind entries.now kind) }
{
    for entry in entries {
        if is_of_kind(kind, entry) {
            found.push(entry)?;
        }
    }
    Ok(())
}

/// How many groups are of this kind.
pub(crate) fn kind_count(entries: &[Entry], kind: Change) -> usize
    ensures { result ≡ kind_count entries.now kind }
{
    let mut count = 0;
    for entry in entries {
        if is_of_kind(kind, entry) {
            count += 1;
        }
    }
    count
}

/// Whether the group is of this kind.
pub(crate) fn is_of_kind(kind: Change, entry: &Entry) -> bool
    ensures { result ≡ is_of_kind kind entry.now }
{
    rank_of(entry.change) == rank_of(kind)
}

fn rank_of(change: Change) -> u32
    ensures { result ≡ rank_of change }
{
    match change {
        Change::Loops => 0,
        Change::Closes => 1,
        Change::Opens => 2,
        Change::Sometimes => 3,
        Change::Translated => 4,
        Change::Moves => 5,
        Change::LoopGone => 6,
    }
}
