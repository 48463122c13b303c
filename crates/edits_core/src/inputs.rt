//! `edits NET LINKS EDITS`: the files of a review, read in their order.

ghost use Rattle.std.specs.Prelude.{◌≡◌, ◌<◌, ◌≤◌, ◌^◌, IfErr, IfOk, IfSome, length};
ghost use Rattle.net_io.specs.Limits.{file_limit};
ghost use Rattle.net_load.specs.Limits.{folder_limit};
ghost use Rattle.net_load.specs.Numbering.{folder_names};
ghost use Rattle.topo_links.specs.Table.{table_names};
ghost use Rattle.edit_lines.specs.Built.{edits_limit};
ghost use Rattle.job_core.specs.Causes.{HasCause, NamesLast, WasRead};
ghost use Rattle.edits_core.specs.Job.{AreShort, Edits, EditsOn, EditsOver, EditsWith, GivesShort, SaysEdits, asked_network};
ghost use Rattle.edits_core.specs.Words.{paths};

use crate::editing::edited;
use crate::words::Asked;
use edit_lines::{EditLine, EditsFail, kind_name, read_edits};
use job_core::{Report, Stop, Wires, read_bytes, read_table};
use job_inputs::read_folder;
use net_io::Files;
use net_load::{Numbered, number_all};
use net_types::{List, Loaded, Network, NoMemory, Text};
use std::alloc::Global;
use topo_links::LinkTable;

// The most bytes of a text of edits.
const EDITS_LIMIT: usize = 4_194_304;

/// The review of the edits that the words name.
pub(crate) fn edit_in_folder<F: Files>(
    alloc: Global,
    files: &mut F,
    asked: &Asked,
) -> Result<Report, Stop>
    ensures job { IfSome (F.told files.old) (λ t. Edits t (paths asked.now) result) }
    ensures cause { HasCause (F.faults files.old) (F.faults files.new) result }
    ensures last { IfErr result (NamesLast (F.last files.new)) }
{
    match read_folder(alloc, files, asked.net) {
        Ok(devices) => edit_over(alloc, files, List::new(devices), asked),
        Err(stop) => Err(stop),
    }
}

// The review in this network and a link table, which is judged with the network as both.
fn edit_over<F: Files>(
    alloc: Global,
    files: &mut F,
    devices: List<Loaded>,
    asked: &Asked,
) -> Result<Report, Stop>
    requires { length (folder_names devices) ≤ folder_limit }
    ensures job { IfSome (F.told files.old) (λ t. EditsOver t devices (paths asked.now) result) }
    ensures cause { HasCause (F.faults files.old) (F.faults files.new) result }
    ensures last { IfErr result (NamesLast (F.last files.new)) }
{
    let both = devices.as_slice();
    match read_table(alloc, files, asked.links, Wires::Both, both, both) {
        Ok(table) => edit_with(alloc, files, devices, &table, asked),
        Err(stop) => Err(stop),
    }
}

// The review in a network with these links, and the file of edits.
fn edit_with<F: Files>(
    alloc: Global,
    files: &mut F,
    devices: List<Loaded>,
    table: &LinkTable,
    asked: &Asked,
) -> Result<Report, Stop>
    requires names { length (folder_names devices) ≤ folder_limit }
    requires table { length (table_names table.now) ≤ file_limit }
    ensures job { IfSome (F.told files.old) (λ t. EditsWith t devices table.now (paths asked.now) result) }
    ensures cause { HasCause (F.faults files.old) (F.faults files.new) result }
    ensures last { IfErr result (NamesLast (F.last files.new)) }
{
    match read_short(alloc, files, asked.edits) {
        Ok(bytes) => edit_numbered(alloc, devices, table, asked.edits, bytes.as_slice()),
        Err(stop) => Err(stop),
    }
}

// The bytes of a file that is no longer than edits may be.
fn read_short<F: Files>(alloc: Global, files: &mut F, path: &str) -> Result<List<u8>, Stop>
    ensures bytes { IfSome (F.told files.old) (λ t. GivesShort t path.now result) }
    ensures limit { IfOk result (λ bytes. length bytes ≤ edits_limit) }
    ensures cause { HasCause (F.faults files.old) (F.faults files.new) result }
    ensures last { IfErr result (NamesLast (F.last files.new)) }
{
    match read_bytes(alloc, files, path) {
        Ok(bytes) => short(alloc, path, List::new(bytes)),
        Err(stop) => Err(stop),
    }
}

// The same bytes, where they are no longer than edits may be.
fn short(alloc: Global, path: &str, bytes: List<u8>) -> Result<List<u8>, Stop>
    ensures bytes { AreShort path.now bytes result }
    ensures read { IfErr result WasRead }
{
    if bytes.as_slice().len() > EDITS_LIMIT {
        return Err(Stop::TooLong {
            path: Text::copy_of(alloc, path.as_bytes())?,
        });
    }
    Ok(bytes)
}

// The review of the edits that the bytes of a file say.
fn edit_numbered(
    alloc: Global,
    devices: List<Loaded>,
    table: &LinkTable,
    path: &str,
    bytes: &[u8],
) -> Result<Report, Stop>
    requires names { length (folder_names devices) ≤ folder_limit }
    requires table { length (table_names table.now) ≤ file_limit }
    requires bytes { length bytes.now ≤ edits_limit }
    ensures job { EditsOn path.now (asked_network devices table.now) bytes.now result }
    ensures read { IfErr result WasRead }
{
    let numbered = number_all(alloc, devices.into_vec(), Vec::new(alloc), table, &[])?;
    edit_on(alloc, &numbered, path, bytes)
}

// The same, where names are numbers. All lines are read before the first edit is made.
fn edit_on(alloc: Global, numbered: &Numbered, path: &str, bytes: &[u8]) -> Result<Report, Stop>
    requires few { length numbered.now.links.ingress < 2 ^ 32 }
    requires bytes { length bytes.now ≤ edits_limit }
    ensures job { EditsOn path.now numbered.now bytes.now result }
    ensures read { IfErr result WasRead }
{
    match edits_in(alloc, path, &numbered.old, bytes) {
        Ok(lines) => edited(alloc, path, numbered, lines.as_slice()),
        Err(stop) => Err(stop),
    }
}

// The edits that the bytes of a file say on a network.
fn edits_in(
    alloc: Global,
    path: &str,
    network: &Network,
    bytes: &[u8],
) -> Result<List<EditLine>, Stop>
    requires { length bytes.now ≤ edits_limit }
    ensures edits { SaysEdits path.now network.now bytes.now result }
    ensures read { IfErr result WasRead }
{
    match read_edits(alloc, network, bytes) {
        Ok(lines) => Ok(List::new(lines)),
        Err(EditsFail::NoMemory) => Err(Stop::NoMemory),
        Err(EditsFail::Refused { kind, line, word }) => Err(Stop::refused(
            alloc,
            path,
            u64::from(line),
            kind_name(kind),
            word,
        )?),
    }
}
