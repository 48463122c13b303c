//! The access lists of a folder, with the lines that write their entries.
ghost use Rattle.std.specs.Prelude.{◌≡◌, ◌++◌, ◌≤◌, IfOk, IfSome, length, string_bytes};
ghost use Rattle.net_io.specs.Files.{content, path_in};
ghost use Rattle.net_io.specs.Limits.{file_limit};
ghost use Rattle.job_core.specs.Causes.{HasCause};
ghost use Rattle.job_core.specs.Steps.{GivesBytes};
ghost use Rattle.audit_view.specs.Views.{GivesNet, ReadsLists};

use crate::lists::{FolderList, add_lists};
use job_core::{Stop, read_bytes};
use job_inputs::read_folder;
use net_io::Files;
use net_types::{Loaded, NoMemory, Text};
use std::alloc::Global;

/// The lists of a folder, in the order of the files and of each file's lists.
pub(crate) fn read_net<F: Files>(
    alloc: Global,
    files: &mut F,
    net: &str,
) -> Result<Vec<FolderList>, Stop>
    ensures lists { IfSome (F.told files.old) (λ t. GivesNet (λ lists. lists.items) t net.now result) }
    ensures cause { HasCause (F.faults files.old) (F.faults files.new) result }
{
    match read_folder(alloc, files, net) {
        Ok(devices) => read_lists(alloc, files, net, &devices),
        Err(stop) => Err(stop),
    }
}

// The lists of these configurations, whose files are read once more.
fn read_lists<F: Files>(
    alloc: Global,
    files: &mut F,
    net: &str,
    devices: &[Loaded],
) -> Result<Vec<FolderList>, Stop>
    ensures lists { IfSome (F.told files.old) (λ t. ReadsLists (λ lists. lists.items) t net.now devices.now result) }
    ensures cause { HasCause (F.faults files.old) (F.faults files.new) result }
{
    let mut found = Vec::new(alloc);
    for device in devices {
        match read_file(alloc, files, net, device) {
            Ok(bytes) => add_lists(alloc, &mut found, device, &bytes)?,
            Err(stop) => return Err(stop),
        }
    }
    Ok(found)
}

// The bytes of a configuration's file.
fn read_file<F: Files>(
    alloc: Global,
    files: &mut F,
    net: &str,
    device: &Loaded,
) -> Result<Vec<u8>, Stop>
    ensures bytes { IfSome (F.told files.old) (λ t. GivesBytes (λ bytes. bytes.items) (path_in net.now device.now.file) (content t (path_in net.now device.now.file)) result) }
    ensures limit { IfOk result (λ bytes. length bytes.items ≤ file_limit) }
    ensures cause { HasCause (F.faults files.old) (F.faults files.new) result }
    ensures same { F.told files.new ≡ F.told files.old }
{
    let path = path_of(alloc, net, &device.file)?;
    read_bytes(alloc, files, path.as_str())
}

// The path of a file of the folder.
fn path_of(alloc: Global, folder: &str, file: &Text) -> Result<String, NoMemory>
    ensures { IfOk result (λ path. string_bytes path ≡ path_in folder.now file.now) }
{
    // The name came from a listing, so it is text.
    let Ok(name) = str::from_utf8(file.as_bytes()) else {
        return Err(NoMemory);
    };
    let mut path = folder.to_string(alloc)?;
    path.push('/')?;
    path.push_str(name)?;
    Ok(path)
}
