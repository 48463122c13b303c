//! The names that a report's own lines have.
ghost use Rattle.std.specs.Prelude.{◌≡◌, IfOk, OnOk};
ghost use Rattle.report_text.specs.Reports.{AreNames};
ghost use Rattle.topo_links.specs.Names.{add_names};
ghost use Rattle.view_core.specs.Names.{line_names, names_of};

use net_types::{Names, NoMemory, Text};
use std::alloc::Global;
use topo_links::NameIndex;

/// The words of the lines of a report that have names, in the order of their bytes, each once.
pub(crate) fn names_of(alloc: Global, bytes: &[u8]) -> Result<Names, NoMemory>
    ensures exact { IfOk result (λ names. names.texts ≡ names_of bytes.now) }
    ensures names { IfOk result (λ names. AreNames names.texts) }
{
    let mut names = NameIndex::new(alloc);
    for line in bytes.split(|b| *b == b'\n') {
        add_line(alloc, &mut names, line)?;
    }
    names.sort()?;
    Ok(Names {
        texts: names.copies(alloc)?,
    })
}

// Adds the names of a line.
fn add_line(alloc: Global, names: &mut NameIndex, line: &[u8]) -> Result<(), NoMemory>
    ensures { OnOk result (names.new ≡ add_names names.old (line_names line.now)) }
{
    if line.starts_with(b"dst ") {
        return Ok(());
    }
    for word in line.split(|b| *b == b' ' || *b == b'\t' || *b == b'\r') {
        if !word.is_empty() {
            names.add(alloc, &Text::copy_of(alloc, word)?)?;
        }
    }
    Ok(())
}
