//! The link tables of two networks.

ghost use Rattle.std.specs.Prelude.{◌≡◌, ◌≤◌, Some, None, IfErr, IfOk, IfSome, length};
ghost use Rattle.net_io.specs.Limits.{file_limit};
ghost use Rattle.topo_links.specs.Table.{table_names};
ghost use Rattle.job_core.specs.Causes.{HasCause, NamesLast};
ghost use Rattle.review_core.specs.Job.{AreFew, GivesNewTable, GivesTables, new_table};

use job_core::{Stop, Wires, read_table};
use net_io::Files;
use net_types::Loaded;
use review_args::Comparison;
use std::alloc::Global;
use topo_links::LinkTable;

/// The link tables of two networks: one that wires both, or one of each.
#[derive(Drop)]
pub struct Tables {
    /// That of the old network.
    pub old: LinkTable,
    /// That of the new one, where it has its own.
    pub new: Option<LinkTable>,
}

impl Tables {
    /// The table that wires the new network.
    pub fn of_new(&self) -> &LinkTable
        ensures { result.now ≡ new_table self.now }
    {
        match &self.new {
            Some(table) => table,
            None => &self.old,
        }
    }
}

/// The link tables of a comparison, each read and checked for the networks that it wires, the old one's first.
pub(crate) fn read_tables<F: Files>(
    alloc: Global,
    files: &mut F,
    old: &[Loaded],
    new: &[Loaded],
    asked: &Comparison,
) -> Result<Tables, Stop>
    ensures tables { IfSome (F.told files.old) (λ t. GivesTables t old.now new.now asked.now.links asked.now.new_links result) }
    ensures few { IfOk result AreFew }
    ensures cause { HasCause (F.faults files.old) (F.faults files.new) result }
    ensures last { IfErr result (NamesLast (F.last files.new)) }
    ensures same { F.told files.new ≡ F.told files.old }
{
    match &asked.new_links {
        None => shared_table(alloc, files, old, new, asked.links.as_str()),
        Some(new_links) => own_tables(
            alloc,
            files,
            old,
            new,
            asked.links.as_str(),
            new_links.as_str(),
        ),
    }
}

// One table wires both.
fn shared_table<F: Files>(
    alloc: Global,
    files: &mut F,
    old: &[Loaded],
    new: &[Loaded],
    links: &str,
) -> Result<Tables, Stop>
    ensures tables { IfSome (F.told files.old) (λ t. GivesTables t old.now new.now links.now None result) }
    ensures few { IfOk result AreFew }
    ensures cause { HasCause (F.faults files.old) (F.faults files.new) result }
    ensures last { IfErr result (NamesLast (F.last files.new)) }
    ensures same { F.told files.new ≡ F.told files.old }
{
    match read_table(alloc, files, links, Wires::Both, old, new) {
        Ok(table) => Ok(Tables {
            old: table,
            new: None,
        }),
        Err(stop) => Err(stop),
    }
}

// Each network has its own.
fn own_tables<F: Files>(
    alloc: Global,
    files: &mut F,
    old: &[Loaded],
    new: &[Loaded],
    links: &str,
    new_links: &str,
) -> Result<Tables, Stop>
    ensures tables { IfSome (F.told files.old) (λ t. GivesTables t old.now new.now links.now (Some new_links.now) result) }
    ensures few { IfOk result AreFew }
    ensures cause { HasCause (F.faults files.old) (F.faults files.new) result }
    ensures last { IfErr result (NamesLast (F.last files.new)) }
    ensures same { F.told files.new ≡ F.told files.old }
{
    match read_table(alloc, files, links, Wires::First, old, new) {
        Ok(table) => with_new_table(alloc, files, table, old, new, new_links),
        Err(stop) => Err(stop),
    }
}

// The new network's table beside the old one's.
fn with_new_table<F: Files>(
    alloc: Global,
    files: &mut F,
    table: LinkTable,
    old: &[Loaded],
    new: &[Loaded],
    new_links: &str,
) -> Result<Tables, Stop>
    requires { length (table_names table) ≤ file_limit }
    ensures tables { IfSome (F.told files.old) (λ t. GivesNewTable t old.now new.now table new_links.now result) }
    ensures few { IfOk result AreFew }
    ensures cause { HasCause (F.faults files.old) (F.faults files.new) result }
    ensures last { IfErr result (NamesLast (F.last files.new)) }
    ensures same { F.told files.new ≡ F.told files.old }
{
    match read_table(alloc, files, new_links, Wires::First, new, old) {
        Ok(new_table) => Ok(Tables {
            old: table,
            new: Some(new_table),
        }),
        Err(stop) => Err(stop),
    }
}
