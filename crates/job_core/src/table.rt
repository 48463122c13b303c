//! The link table of a file: by itself, or for the networks that it wires.

ghost use Rattle.std.specs.Prelude.{◌≡◌, ◌≤◌, IfErr, IfOk, IfSome, length};
ghost use Rattle.net_io.specs.Limits.{file_limit};
ghost use Rattle.topo_links.specs.NetIndex.{Judges};
ghost use Rattle.topo_links.specs.Table.{table_names};
ghost use Rattle.job_core.specs.Causes.{HasCause, NamesLast, WasRead};
ghost use Rattle.job_core.specs.Steps.{GivesLinks, GivesTable, IsChecked, SaysLinks, fault_in};

use crate::file::read_bytes;
use crate::stop::Stop;
use net_io::Files;
use net_types::{Loaded, Text};
use std::alloc::Global;
use topo_links::{LinkFail, LinkTable, check, check_own, read_links};

/// Which of two networks a link table wires.
#[derive(Clone, Copy)]
pub enum Wires {
    /// Both.
    Both,
    /// The first one. The second has a table of its own.
    First,
}

/// The link table of a file, for these networks; or why there is none: the file can't be read, it is no table, or the table is
/// refused for a network that it wires.
pub fn read_table<F: Files>(
    alloc: Global,
    files: &mut F,
    path: &str,
    wires: Wires,
    first: &[Loaded],
    second: &[Loaded],
) -> Result<LinkTable, Stop>
    ensures names { IfOk result (λ table. length (table_names table) ≤ file_limit) }
    ensures table { IfSome (F.told files.old) (λ t. GivesTable t path.now wires first.now second.now result) }
    ensures cause { HasCause (F.faults files.old) (F.faults files.new) result }
    ensures last { IfErr result (NamesLast (F.last files.new)) }
    ensures same { F.told files.new ≡ F.told files.old }
{
    match read_links_file(alloc, files, path) {
        Ok(table) => checked(alloc, path, wires, table, first, second),
        Err(stop) => Err(stop),
    }
}

/// The link table of a file by itself, whatever networks there are.
pub fn read_links_file<F: Files>(
    alloc: Global,
    files: &mut F,
    path: &str,
) -> Result<LinkTable, Stop>
    ensures names { IfOk result (λ table. length (table_names table) ≤ file_limit) }
    ensures table { IfSome (F.told files.old) (λ t. GivesLinks t path.now result) }
    ensures cause { HasCause (F.faults files.old) (F.faults files.new) result }
    ensures last { IfErr result (NamesLast (F.last files.new)) }
    ensures same { F.told files.new ≡ F.told files.old }
{
    match read_bytes(alloc, files, path) {
        Ok(bytes) => links_in(alloc, path, &bytes),
        Err(stop) => Err(stop),
    }
}

/// The link table that the bytes of a file say.
pub fn links_in(alloc: Global, path: &str, bytes: &[u8]) -> Result<LinkTable, Stop>
    requires { length bytes.now ≤ file_limit }
    ensures names { IfOk result (λ table. length (table_names table) ≤ file_limit) }
    ensures table { SaysLinks path.now bytes.now result }
    ensures read { IfErr result WasRead }
{
    match read_links(alloc, bytes) {
        Ok(table) => Ok(table),
        Err(LinkFail::NoMemory) => Err(Stop::NoMemory),
        Err(LinkFail::Refused { kind, line, word }) => Err(Stop::refused(
            alloc,
            path,
            u64::from(line),
            kind.name(),
            word,
        )?),
    }
}

// The table, where nothing of it is refused for these networks.
fn checked(
    alloc: Global,
    path: &str,
    wires: Wires,
    table: LinkTable,
    first: &[Loaded],
    second: &[Loaded],
) -> Result<LinkTable, Stop>
    requires { length (table_names table) ≤ file_limit }
    ensures names { IfOk result (λ answer. length (table_names answer) ≤ file_limit) }
    ensures table { IsChecked path.now wires first.now second.now table result }
    ensures read { IfErr result WasRead }
{
    match check_in(alloc, wires, &table, first, second) {
        Ok(()) => Ok(table),
        Err(LinkFail::NoMemory) => Err(Stop::NoMemory),
        Err(LinkFail::Refused { kind, line, word }) => Err(Stop::refused(
            alloc,
            path,
            u64::from(line),
            kind.name(),
            word,
        )?),
    }
}

// Whether the table is right in the networks that it wires.
fn check_in(
    alloc: Global,
    wires: Wires,
    table: &LinkTable,
    first: &[Loaded],
    second: &[Loaded],
) -> Result<(), LinkFail>
    ensures { Judges (fault_in wires first.now second.now table.now.lines) result }
{
    match wires {
        Wires::Both => check(alloc, table, first, second),
        Wires::First => check_own(alloc, table, first, second),
    }
}
