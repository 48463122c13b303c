//! What is odd in configurations.
ghost use Rattle.std.specs.Prelude.{◌≡◌, ◌++◌, [], IfOk, OnOk};
ghost use Rattle.std.specs.List.{flat_map};
ghost use Rattle.net_text.specs.Texts.{words};
ghost use Rattle.topo_links.specs.Names.{add_names};
ghost use Rattle.doctor_warnings.specs.Readings.{config_by};
ghost use Rattle.doctor_warnings.specs.Told.{line_words, passed_words};
ghost use Rattle.doctor_warnings.specs.Warnings.{config_told, config_warnings};

use crate::examined::Examined;
use crate::told::{ToldLine, told_lines};
use crate::warning::{Warning, tell};
use config_checks::{ConfigFinding, config_findings};
use net_types::{Duplicate, NoMemory, Text};
use std::alloc::Global;
use topo_links::NameIndex;

/// Adds what is odd in a file's configuration, where the file isn't refused.
pub(crate) fn add_config(
    alloc: Global,
    path: &Text,
    file: &Examined,
    warnings: &mut Vec<Warning>,
) -> Result<(), NoMemory>
    ensures { OnOk result (warnings.new.items ≡ warnings.old.items ++ config_warnings path.now file.now.file.bytes (config_by file.now.file.bytes)) }
{
    match &file.reading {
        Err(_) => Ok(()),
        Ok(reading) => {
            let words = passed_words(alloc, file)?;
            let found = config_findings(alloc, &reading.config, &words)?;
            add_found(alloc, path, found, warnings)
        }
    }
}

fn add_found(
    alloc: Global,
    path: &Text,
    found: Vec<ConfigFinding>,
    warnings: &mut Vec<Warning>,
) -> Result<(), NoMemory>
    ensures { OnOk result (warnings.new.items ≡ warnings.old.items ++ config_told path.now found.items) }
{
    for finding in found {
        let path = path.copy(alloc)?;
        tell(warnings, Warning::Config { path, finding })?;
    }
    Ok(())
}

/// The words of a file's lines that are passed over, each once.
fn passed_words(alloc: Global, file: &Examined) -> Result<NameIndex, NoMemory>
    ensures { IfOk result (λ names. names ≡ passed_words file.now.file.bytes) }
{
    let bytes = file.file.bytes.as_slice();
    let told = told_lines(alloc, bytes, &file.passed)?;
    words_of(alloc, bytes, &told)
}

fn words_of(alloc: Global, bytes: &[u8], told: &[ToldLine]) -> Result<NameIndex, NoMemory>
    ensures { IfOk result (λ names. names ≡ add_names [] (flat_map (line_words bytes.now) told.now)) }
{
    let mut names = NameIndex::new(alloc);
    for line in told {
        add_words(alloc, line.text(bytes), &mut names)?;
    }
    Ok(names)
}

/// Adds the words of a line.
fn add_words(alloc: Global, line: &[u8], names: &mut NameIndex) -> Result<(), NoMemory>
    ensures { OnOk result (names.new ≡ add_names names.old (words line.now)) }
{
    for word in line.split(|b| *b == b' ' || *b == b'\t' || *b == b'\r') {
        if !word.is_empty() {
            names.add(alloc, &Text::copy_of(alloc, word)?)?;
        }
    }
    Ok(())
}
