//! The access lists of a file, with the lines that write their entries.
ghost use Rattle.std.specs.Prelude.{◌≡◌, ◌≤◌, IfOk, ◌++◌, length, filter_map};
ghost use Rattle.net_text.specs.Limits.{text_limit};
ghost use Rattle.ios_config.specs.EntryLines.{entry_lines};
ghost use Rattle.audit_view.specs.Lists.{is_any_port, is_any_message, is_any_flag, denies_all, closing_of, written, entry_in, folder_list, lists_in};

use ios_config::{EntryLine, entry_lines};
use net_text::{Span, part};
use net_types::{
    AccessList, Duplicate, Entry, FlagTest, IcmpTest, List, Loaded, NoMemory, PortTest, Text,
};
use std::alloc::Global;

/// An entry of an access list, as it is written.
#[derive(Drop)]
pub struct ListEntry {
    pub sequence: u32,
    /// The line's place in the file, from 1.
    pub line: u32,
    /// The line, from its first word to its last.
    pub text: Text,
}

/// An access list of a file.
pub struct FolderList {
    /// The file's name.
    pub file: Text,
    pub name: Text,
    /// The sequence number of the last entry, where that denies everything.
    pub closing: Option<u32>,
    /// The entries, in the order of their lines.
    pub entries: List<ListEntry>,
}

impl Drop for FolderList {
    fn drop(self) {
        let FolderList {
            file: _,
            name: _,
            closing: _,
            entries: _,
        } = self;
    }
}

/// Adds the lists of a file, which has these bytes, in the order of the configuration.
pub(crate) fn add_lists(
    alloc: Global,
    found: &mut Vec<FolderList>,
    device: &Loaded,
    bytes: &[u8],
) -> Result<(), NoMemory>
    requires { length bytes.now ≤ text_limit }
    ensures { IfOk result (λ _. found.new.items ≡ found.old.items ++ lists_in bytes.now device.now) }
{
    let lines = entry_lines(alloc, bytes)?;
    for list in device.config.lists.as_slice() {
        found.push(folder_list(alloc, &device.file, bytes, &lines, list)?)?;
    }
    Ok(())
}

fn folder_list(
    alloc: Global,
    file: &Text,
    bytes: &[u8],
    lines: &[EntryLine],
    list: &AccessList,
) -> Result<FolderList, NoMemory>
    ensures { IfOk result (λ found. found ≡ folder_list file.now bytes.now lines.now list.now) }
{
    let entries = entries_in(alloc, bytes, lines, &list.name)?;
    let file = file.copy(alloc)?;
    let name = list.name.copy(alloc)?;
    Ok(FolderList {
        file,
        name,
        closing: closing_of(list.entries.as_slice()),
        entries: List::new(entries),
    })
}

// The entries of the list of this name.
fn entries_in(
    alloc: Global,
    bytes: &[u8],
    lines: &[EntryLine],
    name: &Text,
) -> Result<Vec<ListEntry>, NoMemory>
    ensures { IfOk result (λ found. found.items ≡ filter_map (entry_in bytes.now name.now) lines.now) }
{
    let mut found = Vec::new(alloc);
    for line in lines {
        if let Some(entry) = entry_in(alloc, bytes, name, line)? {
            found.push(entry)?;
        }
    }
    Ok(found)
}

// The entry that the line writes, where it is one of the list of this name.
fn entry_in(
    alloc: Global,
    bytes: &[u8],
    name: &Text,
    line: &EntryLine,
) -> Result<Option<ListEntry>, NoMemory>
    ensures { IfOk result (λ entry. entry ≡ entry_in bytes.now name.now line.now) }
{
    if line.list.as_bytes() == name.as_bytes() {
        let entry = entry_of(alloc, bytes, line)?;
        Ok(Some(entry))
    } else {
        Ok(None)
    }
}

fn entry_of(alloc: Global, bytes: &[u8], line: &EntryLine) -> Result<ListEntry, NoMemory>
    ensures { IfOk result (λ entry. entry ≡ written bytes.now line.now) }
{
    let text = part(
        bytes,
        Span {
            start: line.start,
            end: line.end,
        },
    );
    Ok(ListEntry {
        sequence: line.sequence,
        line: line.line,
        text: Text::copy_of(alloc, text)?,
    })
}

// The sequence number of the last entry, where that denies everything.
fn closing_of(entries: &[Entry]) -> Option<u32>
    ensures { result ≡ closing_of entries.now }
{
    let Some(last) = entries.last() else {
        return None;
    };
    if denies_all(last) {
        Some(last.sequence)
    } else {
        None
    }
}

// Whether the entry denies every packet.
fn denies_all(entry: &Entry) -> bool
    ensures { result ≡ denies_all entry.now }
{
    !entry.permit
        && entry.proto.is_none()
        && entry.src.wild == u32::MAX
        && entry.dst.wild == u32::MAX
        && is_any_port(&entry.sport)
        && is_any_port(&entry.dport)
        && is_any_message(entry.icmp)
        && is_any_flag(entry.flags)
}

fn is_any_port(test: &PortTest) -> bool
    ensures { result ≡ is_any_port test.now }
{
    match test {
        PortTest::Any => true,
        _ => false,
    }
}

fn is_any_message(test: IcmpTest) -> bool
    ensures { result ≡ is_any_message test }
{
    match test {
        IcmpTest::Any => true,
        _ => false,
    }
}

fn is_any_flag(test: FlagTest) -> bool
    ensures { result ≡ is_any_flag test }
{
    match test {
        FlagTest::Any => true,
        _ => false,
    }
}
