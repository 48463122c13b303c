//! The lines that write the entries of access lists.
ghost use Rattle.std.specs.Prelude.{◌≡◌, ◌≤◌, ◌++◌, [], IfOk, Some, length, option_to_list};
ghost use Rattle.net_text.specs.Limits.{text_limit};
ghost use Rattle.net_text.specs.Lines.{lines_of};
ghost use Rattle.ios_config.specs.EntryLines.{last_byte, entry_written, entry_lines};
ghost use Rattle.ios_config.specs.Draft.{parts, parts_of};
ghost use Rattle.ios_config.specs.Passed.{first_byte};
ghost use Rattle.ios_config.specs.Rules.{about_list};

use crate::commands::effect;
use crate::draft::Draft;
use crate::passed::first_byte;
use ios_lines::{Action, Effect, ListLine};
use net_text::{Line, Span, lines};
use net_types::{Duplicate, NoMemory, Text};
use std::alloc::Global;

/// A line that writes an entry of an access list.
#[derive(Drop)]
pub struct EntryLine {
    /// The name of the list.
    pub list: Text,
    /// The entry's sequence number, also where the line has none.
    pub sequence: u32,
    /// The line's place in the text, from 1.
    pub line: u32,
    /// The byte of the text at which the line's first word begins.
    pub start: usize,
    /// The byte behind its last word.
    pub end: usize,
}

/// The lines of a text of at most 16,777,216 bytes that write an entry, in order, by the same effects by which it is read.
///
/// An entry of a configuration is written by one of them: no line takes an entry away or writes its sequence number again.
pub fn entry_lines(alloc: Global, bytes: &[u8]) -> Result<Vec<EntryLine>, NoMemory>
    requires { length bytes.now ≤ text_limit }
    ensures { IfOk result (λ found. found.items ≡ entry_lines bytes.now) }
{
    let lines = lines(alloc, bytes)?;
    let found = entries_in(alloc, bytes, &lines)?;
    Ok(found)
}

fn entries_in(alloc: Global, bytes: &[u8], lines: &[Line]) -> Result<Vec<EntryLine>, NoMemory>
    requires size { length bytes.now ≤ text_limit }
    requires lines { lines.now ≡ lines_of bytes.now }
    ensures { IfOk result (λ found. found.items ≡ entry_lines bytes.now) }
{
    let mut found = Vec::new(alloc);
    find_entries(alloc, bytes, lines, &mut found)?;
    Ok(found)
}

fn find_entries(
    alloc: Global,
    bytes: &[u8],
    lines: &[Line],
    found: &mut Vec<EntryLine>,
) -> Result<(), NoMemory>
    requires size { length bytes.now ≤ text_limit }
    requires lines { lines.now ≡ lines_of bytes.now }
    requires found { found.old.items ≡ [] }
    ensures { IfOk result (λ _. found.new.items ≡ entry_lines bytes.now) }
{
    let mut draft = Draft::new(alloc);
    entries_by(alloc, bytes, lines, &mut draft, found)
}

/// The entries of the lines, each by what the lines before it have made.
fn entries_by(
    alloc: Global,
    bytes: &[u8],
    lines: &[Line],
    draft: &mut Draft,
    found: &mut Vec<EntryLine>,
) -> Result<(), NoMemory>
    requires size { length bytes.now ≤ text_limit }
    requires lines { lines.now ≡ lines_of bytes.now }
    requires draft { parts draft.old ≡ parts_of [] }
    requires found { found.old.items ≡ [] }
    ensures { IfOk result (λ _. found.new.items ≡ entry_lines bytes.now) }
{
    for line in lines {
        let effect = effect(alloc, bytes, draft, line)?;
        note_entry(alloc, line, &effect, found)?;
        draft.apply(alloc, effect)?;
    }
    Ok(())
}

/// Adds the entry that a line of this effect writes.
fn note_entry(
    alloc: Global,
    line: &Line,
    effect: &Effect,
    found: &mut Vec<EntryLine>,
) -> Result<(), NoMemory>
    ensures { IfOk result (λ _. found.new.items ≡ found.old.items ++ option_to_list (entry_written line.now (about_list effect.now))) }
{
    if let Some(entry) = entry_written(alloc, line, effect)? {
        found.push(entry)?;
    }
    Ok(())
}

/// The entry that a line of this effect writes.
fn entry_written(alloc: Global, line: &Line, effect: &Effect) -> Result<Option<EntryLine>, NoMemory>
    ensures { IfOk result (λ entry. entry ≡ entry_written line.now (about_list effect.now)) }
{
    match effect {
        Effect::Act {
            action: Action::Numbered {
                name,
                line: written,
            },
        } => entry_of(alloc, line, name, written),
        Effect::Act {
            action: Action::Entry {
                name,
                line: written,
            },
        } => entry_of(alloc, line, name, written),
        _ => Ok(None),
    }
}

fn entry_of(
    alloc: Global,
    line: &Line,
    name: &Text,
    written: &ListLine,
) -> Result<Option<EntryLine>, NoMemory>
    ensures { IfOk result (λ entry. entry ≡ entry_written line.now (Some (name.now, written.now))) }
{
    let Some(entry) = &written.entry else {
        return Ok(None);
    };
    let list = name.copy(alloc)?;
    Ok(Some(EntryLine {
        list,
        sequence: entry.sequence,
        line: line.number,
        start: first_byte(line.words.as_slice()),
        end: last_byte(line.words.as_slice()),
    }))
}

/// The byte behind the last of the words.
fn last_byte(words: &[Span]) -> usize
    ensures { result ≡ last_byte words.now }
{
    match words.last() {
        Some(word) => word.end,
        None => 0,
    }
}
