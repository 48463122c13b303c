//! Two networks that one link table wires.

ghost use Rattle.std.specs.Prelude.{◌≡◌, ◌≤◌, ◌<◌, ◌^◌, IfOk, IfSome, length};
ghost use Rattle.net_load.specs.Limits.{folder_limit};
ghost use Rattle.net_load.specs.Numbering.{count_names, extra_names, folder_names, numbered_both};
ghost use Rattle.job_core.specs.Causes.{HasCause};
ghost use Rattle.why_core.specs.Networks.{AreFew, GivesBoth, GivesLinked, GivesNetworks};

use job_core::{Stop, Wires, read_table};
use job_inputs::read_folder;
use net_io::Files;
use net_load::{NumberedBoth, number_both};
use net_types::{Loaded, NoMemory, Text};
use std::alloc::Global;
use topo_links::LinkTable;

/// Two networks, each by its configurations, and the link table that wires both.
pub struct Networks {
    pub old: Vec<Loaded>,
    pub new: Vec<Loaded>,
    pub links: LinkTable,
}

impl Drop for Networks {
    fn drop(self) {
        let Networks {
            old: _,
            new: _,
            links: _,
        } = self;
    }
}

/// The networks of two folders: the old folder is read, then the new one, then the link table, as for a comparison.
pub(crate) fn read_networks<F: Files>(
    alloc: Global,
    files: &mut F,
    old: &str,
    new: &str,
    links: &str,
) -> Result<Networks, Stop>
    ensures networks { IfSome (F.told files.old) (λ t. GivesNetworks t old.now new.now links.now result) }
    ensures few { IfOk result AreFew }
    ensures cause { HasCause (F.faults files.old) (F.faults files.new) result }
    ensures same { F.told files.new ≡ F.told files.old }
{
    match read_folder(alloc, files, old) {
        Ok(devices) => read_both(alloc, files, devices, new, links),
        Err(stop) => Err(stop),
    }
}

fn read_both<F: Files>(
    alloc: Global,
    files: &mut F,
    old: Vec<Loaded>,
    new: &str,
    links: &str,
) -> Result<Networks, Stop>
    requires old { length (folder_names old.items) ≤ folder_limit }
    ensures networks { IfSome (F.told files.old) (λ t. GivesBoth t new.now links.now old.items result) }
    ensures few { IfOk result AreFew }
    ensures cause { HasCause (F.faults files.old) (F.faults files.new) result }
    ensures same { F.told files.new ≡ F.told files.old }
{
    match read_folder(alloc, files, new) {
        Ok(devices) => read_linked(alloc, files, old, devices, links),
        Err(stop) => Err(stop),
    }
}

fn read_linked<F: Files>(
    alloc: Global,
    files: &mut F,
    old: Vec<Loaded>,
    new: Vec<Loaded>,
    links: &str,
) -> Result<Networks, Stop>
    requires old { length (folder_names old.items) ≤ folder_limit }
    requires new { length (folder_names new.items) ≤ folder_limit }
    ensures networks { IfSome (F.told files.old) (λ t. GivesLinked t links.now old.items new.items result) }
    ensures few { IfOk result AreFew }
    ensures cause { HasCause (F.faults files.old) (F.faults files.new) result }
    ensures same { F.told files.new ≡ F.told files.old }
{
    match read_table(alloc, files, links, Wires::Both, &old, &new) {
        Ok(table) => Ok(Networks {
            old,
            new,
            links: table,
        }),
        Err(stop) => Err(stop),
    }
}

impl Networks {
    /// Both networks over one list of names, which has these names too.
    pub(crate) fn number(self, alloc: Global, extra: &[Text]) -> Result<NumberedBoth, NoMemory>
        requires few { AreFew self }
        requires extra { length extra.now ≤ 2 }
        ensures { IfOk result (λ both. both ≡ numbered_both self.old.items self.new.items self.links self.links extra.now) }
    {
        let Networks { old, new, links } = self;
        number_both(alloc, old, new, &links, &links, extra)
    }
}
