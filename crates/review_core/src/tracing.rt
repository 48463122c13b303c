//! `trace NET LINKS DEVICE INTERFACE HEADER`: the trace of a packet.

ghost use Rattle.std.specs.Prelude.{◌≡◌, ◌≤◌, ◌<◌, ◌^◌, ◌∷◌, [], IfErr, IfOk, IfSome, length, position};
ghost use Rattle.std.specs.Str.{bytes_eq};
ghost use Rattle.net_io.specs.Limits.{file_limit};
ghost use Rattle.net_load.specs.Limits.{folder_limit};
ghost use Rattle.net_load.specs.Numbering.{count_names, folder_names, number_of};
ghost use Rattle.topo_links.specs.Table.{table_names};
ghost use Rattle.review_args.specs.Requests.{IsTtl};
ghost use Rattle.job_core.specs.Causes.{HasCause, NamesLast};
ghost use Rattle.job_core.specs.Steps.{OrNoMemory};
ghost use Rattle.review_core.specs.Job.{IsTrace, IsTraceOn, Traces, TracesOver, entry};

use job_core::{Report, Stop, Wires, read_table};
use job_inputs::read_folder;
use net_io::Files;
use net_load::{Numbered, number_all};
use net_types::{Duplicate, Loaded, Names, NoMemory, Place, Text};
use review_args::{Packet, Tracing};
use std::alloc::Global;
use topo_links::LinkTable;
use walk_trace::{trace, trace_bytes};

/// The trace of a packet in the network of a folder.
pub(crate) fn trace_in_folder<F: Files>(
    alloc: Global,
    files: &mut F,
    asked: &Tracing,
) -> Result<Report, Stop>
    requires { IsTtl asked.now.ttl }
    ensures job { IfSome (F.told files.old) (λ t. Traces t asked.now result) }
    ensures cause { HasCause (F.faults files.old) (F.faults files.new) result }
    ensures last { IfErr result (NamesLast (F.last files.new)) }
{
    match read_folder(alloc, files, asked.net.as_str()) {
        Ok(devices) => trace_over(alloc, files, devices, asked),
        Err(stop) => Err(stop),
    }
}

// The trace in a network and a link table, which is judged with the network as both.
fn trace_over<F: Files>(
    alloc: Global,
    files: &mut F,
    devices: Vec<Loaded>,
    asked: &Tracing,
) -> Result<Report, Stop>
    requires names { length (folder_names devices.items) ≤ folder_limit }
    requires ttl { IsTtl asked.now.ttl }
    ensures job { IfSome (F.told files.old) (λ t. TracesOver t devices.items asked.now result) }
    ensures cause { HasCause (F.faults files.old) (F.faults files.new) result }
    ensures last { IfErr result (NamesLast (F.last files.new)) }
{
    let links = asked.links.as_str();
    match read_table(alloc, files, links, Wires::Both, &devices, &devices) {
        Ok(table) => trace_with(alloc, devices, &table, &asked.packet, asked.ttl),
        Err(stop) => Err(stop),
    }
}

fn trace_with(
    alloc: Global,
    devices: Vec<Loaded>,
    table: &LinkTable,
    packet: &Packet,
    ttl: u8,
) -> Result<Report, Stop>
    requires names { length (folder_names devices.items) ≤ folder_limit }
    requires table { length (table_names table.now) ≤ file_limit }
    requires ttl { IsTtl ttl }
    ensures { OrNoMemory (IsTrace devices.items table.now packet.now ttl) result }
{
    let report = traced(alloc, devices, table, packet, ttl)?;
    Ok(report)
}

// The trace in a network with these links. The names of the packet's place get numbers too.
fn traced(
    alloc: Global,
    devices: Vec<Loaded>,
    table: &LinkTable,
    packet: &Packet,
    ttl: u8,
) -> Result<Report, NoMemory>
    requires names { count_names devices.items [] table.now (packet.now.device ∷ packet.now.interface ∷ []) < 2 ^ 32 }
    requires ttl { IsTtl ttl }
    ensures { IfOk result (IsTrace devices.items table.now packet.now ttl) }
{
    let names = names_of(alloc, packet)?;
    let numbered = number_all(alloc, devices, Vec::new(alloc), table, &names)?;
    trace_on(alloc, &numbered, packet, ttl)
}

// The names of a packet's place.
fn names_of(alloc: Global, packet: &Packet) -> Result<Vec<Text>, NoMemory>
    ensures { IfOk result (λ names. names.items ≡ packet.now.device ∷ packet.now.interface ∷ []) }
{
    let mut names = Vec::new(alloc);
    names.push(packet.device.copy(alloc)?)?;
    names.push(packet.interface.copy(alloc)?)?;
    Ok(names)
}

// Nothing is affected where nothing is compared.
fn trace_on(
    alloc: Global,
    numbered: &Numbered,
    packet: &Packet,
    ttl: u8,
) -> Result<Report, NoMemory>
    requires names { length numbered.now.names.texts < 2 ^ 32 }
    requires ttl { IsTtl ttl }
    ensures { IfOk result (IsTraceOn numbered.now packet.now ttl) }
{
    let place = entry(&numbered.names, packet);
    let told = trace(
        alloc,
        &numbered.old,
        &numbered.links,
        place,
        &packet.header,
        ttl,
    )?;
    let text = trace_bytes(alloc, &numbered.names, &told)?;
    Ok(Report {
        text,
        affected: false,
    })
}

// The place where a packet enters.
fn entry(names: &Names, packet: &Packet) -> Place
    requires { length names.now.texts < 2 ^ 32 }
    ensures { result ≡ entry names.now packet.now }
{
    Place {
        device: number_of(names, &packet.device),
        interface: number_of(names, &packet.interface),
    }
}

// The number of a name: its place among all.
fn number_of(names: &Names, name: &Text) -> u32
    requires { length names.now.texts < 2 ^ 32 }
    ensures { result ≡ number_of names.now.texts name.now }
{
    let Some(position) = position_of(names.texts.as_slice(), name.as_bytes()) else {
        return 0;
    };
    position as u32
}

fn position_of(names: &[Text], name: &[u8]) -> Option<usize>
    ensures place { result ≡ position (bytes_eq name.now) names.now }
    ensures inside { IfSome result (λ position. position < length names.now) }
{
    names.iter().position(|text| name == text.as_bytes())
}
