//! The files of a folder that aren't read.

ghost use Rattle.std.specs.Prelude.{◌≡◌, [], IfErr, IfOk, IfSome, filter, map, string_bytes};
ghost use Rattle.topo_links.specs.Names.{add_names, sorted_names};
ghost use Rattle.net_load.specs.Folder.{is_config_name};
ghost use Rattle.job_core.specs.Causes.{HasCause, NamesLast};
ghost use Rattle.doctor_core.specs.Folders.{is_hidden, is_other, GivesOthers};

use job_core::Stop;
use net_io::{FileFail, Files};
use net_types::{List, NoMemory, Text};
use std::alloc::Global;
use topo_links::NameIndex;

fn is_hidden(name: &[u8]) -> bool
    ensures { result ≡ is_hidden name.now }
{
    match name {
        [] => false,
        [first, ..] => *first == b'.',
    }
}

/// Whether it is the name of a file that isn't read, and isn't hidden.
fn is_other(name: &[u8]) -> bool
    ensures { result ≡ is_other name.now }
{
    !name.ends_with(b".cfg") && !is_hidden(name)
}

/// The names of a folder's files that aren't read, in the order of their bytes; or why there are none.
pub(crate) fn read_others<F: Files>(
    alloc: Global,
    files: &mut F,
    folder: &str,
) -> Result<List<Text>, Stop>
    ensures others { IfSome (F.told files.old) (λ t. GivesOthers t folder.now result) }
    ensures cause { HasCause (F.faults files.old) (F.faults files.new) result }
    ensures last { IfErr result (NamesLast (F.last files.new)) }
    ensures same { F.told files.new ≡ F.told files.old }
{
    match files.list(alloc, folder) {
        Ok(names) => Ok(others_in(alloc, &names)?),
        Err(FileFail::Failed) => Err(Stop::CannotRead {
            path: Text::copy_of(alloc, folder.as_bytes())?,
        }),
        Err(FileFail::Absent) => Err(Stop::NotFound {
            path: Text::copy_of(alloc, folder.as_bytes())?,
        }),
        Err(FileFail::NoMemory) => Err(Stop::NoMemory),
    }
}

/// Those of the names that are other files', in the order of their bytes.
fn others_in(alloc: Global, names: &[String]) -> Result<List<Text>, NoMemory>
    ensures { IfOk result (λ others. others ≡ sorted_names (filter is_other (map string_bytes names.now))) }
{
    let mut others = index_of(alloc, names)?;
    others.sort()?;
    others.copies(alloc)
}

fn index_of(alloc: Global, names: &[String]) -> Result<NameIndex, NoMemory>
    ensures { IfOk result (λ others. others ≡ add_names [] (filter is_other (map string_bytes names.now))) }
{
    let mut others = NameIndex::new(alloc);
    for name in names {
        if is_other(name.as_bytes()) {
            others.add(alloc, &Text::copy_of(alloc, name.as_bytes())?)?;
        }
    }
    Ok(others)
}
