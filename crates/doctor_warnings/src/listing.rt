//! All lines that are passed over, as they are listed.
ghost use Rattle.std.specs.Prelude.{◌≡◌, ◌++◌, IfOk, OnOk, map};
ghost use Rattle.std.specs.List.{flat_map};
ghost use Rattle.doctor_warnings.specs.Listed.{file_lines, listed_line};

use crate::examined::Examined;
use crate::folder::path_in;
use crate::told::{ToldLine, told_lines};
use look_alikes::counted_by;
use net_types::{Duplicate, NoMemory, Text};
use std::alloc::Global;

/// A line that is passed over.
pub struct ListedLine {
    pub path: Text,
    /// From 1.
    pub line: u64,
    /// Its first words, by which it is counted.
    pub words: Text,
    /// The line, up to its last word.
    pub text: Text,
}

impl Drop for ListedLine {
    fn drop(self) {
        let ListedLine {
            path: _,
            line: _,
            words: _,
            text: _,
        } = self;
    }
}

/// Adds those of the files of a folder, in their order.
pub(crate) fn add_lines(
    alloc: Global,
    folder: &[u8],
    files: &[Examined],
    lines: &mut Vec<ListedLine>,
) -> Result<(), NoMemory>
    ensures { OnOk result (lines.new.items ≡ lines.old.items ++ flat_map (file_lines folder.now) (map (λ e. e.file) files.now)) }
{
    for file in files {
        add_file(alloc, folder, file, lines)?;
    }
    Ok(())
}

fn add_file(
    alloc: Global,
    folder: &[u8],
    file: &Examined,
    lines: &mut Vec<ListedLine>,
) -> Result<(), NoMemory>
    ensures { OnOk result (lines.new.items ≡ lines.old.items ++ file_lines folder.now file.now.file) }
{
    let path = path_in(alloc, folder, &file.file.name)?;
    let bytes = file.file.bytes.as_slice();
    let told = told_lines(alloc, bytes, &file.passed)?;
    add_told(alloc, &path, bytes, &told, lines)
}

fn add_told(
    alloc: Global,
    path: &Text,
    bytes: &[u8],
    told: &[ToldLine],
    lines: &mut Vec<ListedLine>,
) -> Result<(), NoMemory>
    ensures { OnOk result (lines.new.items ≡ lines.old.items ++ map (listed_line path.now bytes.now) told.now) }
{
    for line in told {
        lines.push(listed_line(alloc, path, bytes, *line)?)?;
    }
    Ok(())
}

fn listed_line(
    alloc: Global,
    path: &Text,
    bytes: &[u8],
    line: ToldLine,
) -> Result<ListedLine, NoMemory>
    ensures { IfOk result (λ l. l ≡ listed_line path.now bytes.now line) }
{
    let text = line.text(bytes);
    Ok(ListedLine {
        path: path.copy(alloc)?,
        line: line.number,
        words: Text::new(counted_by(alloc, line.mode, text)?),
        text: Text::copy_of(alloc, text)?,
    })
}
