//! What is told of link tables, and the networks that they wire.
ghost use Rattle.std.specs.Prelude.{◌≡◌, [], ◌∷◌, ◌++◌, IfOk, OnOk, map, option_map};
ghost use Rattle.topo_links.specs.NetIndex.{Judges};
ghost use Rattle.place_checks.specs.Sights.{folders_of};
ghost use Rattle.doctor_warnings.specs.Tables.{both_of, devices_of, fault_of, is_own, judged, judged_limits, judged_warnings, loaded_file, met_links, pair_of, place_limits, place_warnings, places_told, refused_line, strays_told, table_limits, table_warnings};

use crate::examined::Examined;
use crate::files::TextAt;
use crate::limit::{Limit, LimitKind, counted_limits};
use crate::lines::{nth_line, trimmed};
use crate::listing::ListedLine;
use crate::network::Notes;
use crate::warning::{Warning, tell, without_counted};
use crate::wiring::Wiring;
use net_types::{Duplicate, List, Loaded, NoMemory, Text};
use place_checks::{Folders, LinkFindings, Networks, PlaceFinding, StrayNext, link_findings};
use std::alloc::Global;
use topo_links::{LinkFail, LinkRefusal, LinkTable, check, check_own, read_links};

/// What is told of tables.
pub struct TableNotes {
    pub warnings: Vec<Warning>,
    pub limits: Vec<Limit>,
}

impl Drop for TableNotes {
    fn drop(self) {
        let TableNotes {
            warnings: _,
            limits: _,
        } = self;
    }
}

impl TableNotes {
    ghost use Rattle.std.specs.Prelude.{filter};
    ghost use Rattle.doctor_warnings.specs.Limits.{counted_limits};
    ghost use Rattle.doctor_warnings.specs.Warnings.{is_warning};

    /// Nothing yet.
    pub(crate) fn new(alloc: Global) -> TableNotes
        ensures warnings { result.warnings.items ≡ [] }
        ensures limits { result.limits.items ≡ [] }
    {
        TableNotes {
            warnings: Vec::new(alloc),
            limits: Vec::new(alloc),
        }
    }

    /// The notes, with what is counted apart from the warnings, before the limits of the links.
    pub(crate) fn finish(self, alloc: Global, lines: Vec<ListedLine>) -> Result<Notes, NoMemory>
        ensures warnings { IfOk result (λ n. n.warnings ≡ filter is_warning self.warnings.items) }
        ensures limits { IfOk result (λ n. n.limits ≡ counted_limits self.warnings.items ++ self.limits.items) }
        ensures lines { IfOk result (λ n. n.lines ≡ lines.items) }
    {
        let TableNotes {
            warnings: found,
            limits: wired,
        } = self;
        let mut limits = counted_limits(alloc, &found)?;
        for limit in wired {
            limits.push(limit)?;
        }
        Ok(Notes {
            warnings: List::new(without_counted(alloc, found)?),
            limits: List::new(limits),
            lines: List::new(lines),
        })
    }
}

/// Two networks for which a table is judged.
#[derive(Clone, Copy)]
pub struct Nets<'a> {
    pub first: &'a [Loaded],
    pub second: &'a [Loaded],
}

/// The devices of a folder's files, where none is refused.
pub(crate) fn devices_of(
    alloc: Global,
    files: Vec<Examined>,
) -> Result<Option<List<Loaded>>, NoMemory>
    ensures { IfOk result (λ devices. devices ≡ devices_of (map (λ e. e.file) files.items)) }
{
    let mut devices = Vec::new(alloc);
    let mut refused = false;
    for file in files {
        match file.into_device() {
            Some(device) => devices.push(device)?,
            None => refused = true,
        }
    }
    if refused {
        return Ok(None);
    }
    Ok(Some(List::new(devices)))
}

/// Two networks of which no file is refused.
pub(crate) fn both_of<'a>(
    first: &'a Option<List<Loaded>>,
    second: &'a Option<List<Loaded>>,
) -> Option<Nets<'a>>
    ensures { option_map pair_of result ≡ both_of first.now second.now }
{
    match first {
        None => None,
        Some(first) => match second {
            None => None,
            Some(second) => Some(Nets {
                first: first.as_slice(),
                second: second.as_slice(),
            }),
        },
    }
}

/// Adds what is told of a table: its first refusal, by its own words or, where the networks are known, for them; else the places
/// of the networks that are worth a look, and the limits that its links meet.
pub(crate) fn add_table(
    alloc: Global,
    wiring: Wiring,
    table: &TextAt,
    nets: Option<Nets<'_>>,
    notes: &mut TableNotes,
) -> Result<(), NoMemory>
    ensures warnings { OnOk result (notes.new.warnings.items ≡ notes.old.warnings.items ++ table_warnings wiring table.now.path (option_map pair_of nets.entry) table.now.bytes) }
    ensures limits { OnOk result (notes.new.limits.items ≡ notes.old.limits.items ++ table_limits wiring table.now.path (option_map pair_of nets.entry) table.now.bytes) }
{
    match read_links(alloc, table.bytes.as_slice()) {
        Ok(links) => add_judged(alloc, wiring, table, nets, &links, notes),
        Err(LinkFail::NoMemory) => Err(NoMemory),
        Err(LinkFail::Refused { kind, line, word }) => {
            add_refused(alloc, table, kind, line, word, &mut notes.warnings)
        }
    }
}

/// Adds a refused line of a table.
fn add_refused(
    alloc: Global,
    table: &TextAt,
    kind: LinkRefusal,
    line: u32,
    word: Text,
    warnings: &mut Vec<Warning>,
) -> Result<(), NoMemory>
    ensures { OnOk result (warnings.new.items ≡ warnings.old.items ++ refused_line table.now.path table.now.bytes kind line word ∷ []) }
{
    let text = Text::copy_of(alloc, trimmed(nth_line(table.bytes.as_slice(), line)))?;
    tell(
        warnings,
        Warning::Refused {
            path: table.path.copy(alloc)?,
            line,
            kind: Text::copy_of(alloc, kind.name().as_bytes())?,
            word,
            text,
        },
    )
}

/// Adds what is told of the lines of a table.
fn add_judged(
    alloc: Global,
    wiring: Wiring,
    table: &TextAt,
    nets: Option<Nets<'_>>,
    links: &LinkTable,
    notes: &mut TableNotes,
) -> Result<(), NoMemory>
    ensures warnings { OnOk result (notes.new.warnings.items ≡ notes.old.warnings.items
        ++ judged_warnings wiring table.now.path (option_map pair_of nets.entry) table.now.bytes links.now.lines (fault_of (is_own wiring) (option_map pair_of nets.entry) links.now.lines)) }
    ensures limits { OnOk result (notes.new.limits.items ≡ notes.old.limits.items
        ++ judged_limits wiring table.now.path (option_map pair_of nets.entry) links.now.lines (fault_of (is_own wiring) (option_map pair_of nets.entry) links.now.lines)) }
{
    match judge(alloc, wiring, nets, links) {
        Ok(()) => add_places(alloc, wiring, &table.path, nets, links, notes),
        Err(LinkFail::NoMemory) => Err(NoMemory),
        Err(LinkFail::Refused { kind, line, word }) => {
            add_refused(alloc, table, kind, line, word, &mut notes.warnings)
        }
    }
}

fn judge(
    alloc: Global,
    wiring: Wiring,
    nets: Option<Nets<'_>>,
    table: &LinkTable,
) -> Result<(), LinkFail>
    ensures { Judges (fault_of (is_own wiring) (option_map pair_of nets.entry) table.now.lines) result }
{
    let Some(nets) = nets else {
        return Ok(());
    };
    if wiring.is_own() {
        check_own(alloc, table, nets.first, nets.second)
    } else {
        check(alloc, table, nets.first, nets.second)
    }
}

/// Adds the places that are worth a look, the next hops that no end has and the links on Ethernet that are p2p, where the networks
/// are known.
fn add_places(
    alloc: Global,
    wiring: Wiring,
    path: &Text,
    nets: Option<Nets<'_>>,
    links: &LinkTable,
    notes: &mut TableNotes,
) -> Result<(), NoMemory>
    ensures warnings { OnOk result (notes.new.warnings.items ≡ notes.old.warnings.items ++ place_warnings wiring path.now (option_map pair_of nets.entry) links.now.lines) }
    ensures limits { OnOk result (notes.new.limits.items ≡ notes.old.limits.items ++ place_limits wiring path.now (option_map pair_of nets.entry) links.now.lines) }
{
    let Some(nets) = nets else {
        return Ok(());
    };
    let LinkFindings {
        places,
        strays,
        ethernet,
    } = link_findings(alloc, folders_of(wiring, nets), links)?;
    add_found(alloc, path, wiring.are_two(), places, &mut notes.warnings)?;
    add_strays(alloc, path, wiring.are_two(), strays, &mut notes.warnings)?;
    add_met(alloc, path, &ethernet, &mut notes.limits)
}

fn add_met(
    alloc: Global,
    path: &Text,
    lines: &[u32],
    limits: &mut Vec<Limit>,
) -> Result<(), NoMemory>
    ensures { OnOk result (limits.new.items ≡ limits.old.items ++ met_links path.now lines.now) }
{
    for line in lines {
        limits.push(Limit {
            path: path.copy(alloc)?,
            line: u64::from(*line),
            words: Text::copy_of(alloc, b"p2p on Ethernet")?,
            kind: LimitKind::Ethernet,
        })?;
    }
    Ok(())
}

fn add_strays(
    alloc: Global,
    path: &Text,
    two: bool,
    strays: Vec<StrayNext>,
    warnings: &mut Vec<Warning>,
) -> Result<(), NoMemory>
    ensures { OnOk result (warnings.new.items ≡ warnings.old.items ++ strays_told path.now two strays.items) }
{
    for next in strays {
        let path = path.copy(alloc)?;
        tell(warnings, Warning::Stray { path, two, next })?;
    }
    Ok(())
}

fn add_found(
    alloc: Global,
    path: &Text,
    two: bool,
    found: Vec<PlaceFinding>,
    warnings: &mut Vec<Warning>,
) -> Result<(), NoMemory>
    ensures { OnOk result (warnings.new.items ≡ warnings.old.items ++ places_told path.now two found.items) }
{
    for finding in found {
        let path = path.copy(alloc)?;
        tell(warnings, Warning::Place { path, two, finding })?;
    }
    Ok(())
}

/// The networks as their places are judged.
fn folders_of(wiring: Wiring, nets: Nets<'_>) -> Folders<'_>
    ensures { folders_of result ≡ judged wiring (pair_of nets.entry) }
{
    let Nets { first, second } = nets;
    match wiring {
        Wiring::Alone => Folders {
            old: first,
            new: &[],
            judged: Networks::Old,
        },
        Wiring::Both => Folders {
            old: first,
            new: second,
            judged: Networks::Both,
        },
        Wiring::Old => Folders {
            old: first,
            new: second,
            judged: Networks::Old,
        },
        Wiring::New => Folders {
            old: second,
            new: first,
            judged: Networks::New,
        },
    }
}
