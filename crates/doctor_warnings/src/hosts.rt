//! Files of one hostname.
ghost use Rattle.std.specs.Prelude.{◌≡◌, ◌++◌, [], IfOk, OnOk, find, map, option_map};
ghost use Rattle.std.specs.Option.{option_copied};
ghost use Rattle.doctor_warnings.specs.Readings.{config_in};
ghost use Rattle.doctor_warnings.specs.Warnings.{first_host, has_host, host_in, is_text, taken_behind, taken_by};

use crate::examined::Examined;
use crate::folder::path_in;
use crate::warning::{Warning, tell};
use net_types::{NoMemory, Text};
use std::alloc::Global;

/// The hostname of a file that isn't refused.
fn host_in(file: &Examined) -> Option<&Text>
    ensures { option_copied result ≡ host_in file.now.file }
{
    match &file.reading {
        Ok(reading) => Some(&reading.config.hostname),
        Err(_) => None,
    }
}

fn has_host(host: &Text, file: &Examined) -> bool
    ensures { result ≡ has_host host.now file.now.file }
{
    match host_in(file) {
        None => false,
        Some(other) => host.as_bytes() == other.as_bytes(),
    }
}

/// The first of these files that has the hostname.
fn first_host<'a>(files: &'a [Examined], host: Option<&Text>) -> Option<&'a Examined>
    ensures { option_map (λ e. e.now.file) result ≡ first_host (map (λ e. e.file) files.now) (option_copied host.entry) }
{
    match host {
        None => None,
        Some(host) => first_with(files, host),
    }
}

fn first_with<'a>(files: &'a [Examined], host: &Text) -> Option<&'a Examined>
    ensures { option_map (λ e. e.now.file) result ≡ find (has_host host.now) (map (λ e. e.file) files.now) }
{
    for file in files {
        if has_host(host, file) {
            return Some(file);
        }
    }
    None
}

/// Tells of each file whose hostname an earlier one has.
pub(crate) fn add_taken(
    alloc: Global,
    folder: &[u8],
    files: &[Examined],
    warnings: &mut Vec<Warning>,
) -> Result<(), NoMemory>
    ensures { OnOk result (warnings.new.items ≡ warnings.old.items ++ taken_behind folder.now [] (map (λ e. e.file) files.now)) }
{
    for place in 0..files.len() {
        let file = &files[place];
        let first = first_host(&files[..place], host_in(file));
        tell_taken(alloc, folder, file, first, warnings)?;
    }
    Ok(())
}

fn tell_taken(
    alloc: Global,
    folder: &[u8],
    file: &Examined,
    first: Option<&Examined>,
    warnings: &mut Vec<Warning>,
) -> Result<(), NoMemory>
    ensures { OnOk result (warnings.new.items ≡ warnings.old.items ++ taken_by folder.now file.now.file (option_map (λ e. e.now.file) first.entry)) }
{
    let Some(first) = first else {
        return Ok(());
    };
    tell(
        warnings,
        Warning::HostTaken {
            path: path_in(alloc, folder, &file.file.name)?,
            first: path_in(alloc, folder, &first.file.name)?,
        },
    )
}
