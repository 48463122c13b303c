//! The network before all changes.

ghost use Rattle.std.specs.Prelude.{◌≡◌, ◌≤◌, IfErr, IfOk, IfSome, length};
ghost use Rattle.net_io.specs.Limits.{file_limit};
ghost use Rattle.net_load.specs.Limits.{folder_limit};
ghost use Rattle.net_load.specs.Numbering.{folder_names};
ghost use Rattle.topo_links.specs.Table.{table_names};
ghost use Rattle.job_core.specs.Causes.{HasCause, NamesLast};
ghost use Rattle.window_core.specs.Job.{GivesBase, WithTable};
ghost use Rattle.window_core.specs.Words.{paths};
ghost use Rattle.window_core.specs.Window.{HasFewNames};

use crate::words::Asked;
use job_core::{Stop, Wires, read_table};
use job_inputs::read_folder_by_workers;
use net_io::Files;
use net_types::{List, Loaded};
use std::alloc::Global;
use std::thread::Threads;
use steal_pool::Workers;
use topo_links::LinkTable;

/// The network before all changes, and how it is wired.
#[derive(Drop)]
pub struct Base {
    pub devices: List<Loaded>,
    pub table: LinkTable,
}

/// The network that the words name, with its link table, which is judged with the network as both.
pub(crate) fn read_base<F: Files, R: Threads + Sync, G>(
    by: &Workers<R, G>,
    alloc: Global,
    files: &mut F,
    asked: &Asked,
) -> Result<Base, Stop>
    ensures base { IfSome (F.told files.old) (λ t. GivesBase t (paths asked.now) result) }
    ensures names { IfOk result HasFewNames }
    ensures cause { HasCause (F.faults files.old) (F.faults files.new) result }
    ensures last { IfErr result (NamesLast (F.last files.new)) }
    ensures same { F.told files.new ≡ F.told files.old }
{
    match read_folder_by_workers(by.rt, by.count as usize, alloc, files, asked.net) {
        Ok(devices) => with_table(alloc, files, devices, asked.links),
        Err(stop) => Err(stop),
    }
}

/// A network with its link table, which is judged with the network as both.
pub fn with_table<F: Files>(
    alloc: Global,
    files: &mut F,
    devices: Vec<Loaded>,
    links: &str,
) -> Result<Base, Stop>
    requires { length (folder_names devices.items) ≤ folder_limit }
    ensures base { IfSome (F.told files.old) (λ t. WithTable t links.now devices.items result) }
    ensures names { IfOk result HasFewNames }
    ensures cause { HasCause (F.faults files.old) (F.faults files.new) result }
    ensures last { IfErr result (NamesLast (F.last files.new)) }
    ensures same { F.told files.new ≡ F.told files.old }
{
    match read_table(alloc, files, links, Wires::Both, &devices, &devices) {
        Ok(table) => Ok(Base {
            devices: List::new(devices),
            table,
        }),
        Err(stop) => Err(stop),
    }
}
