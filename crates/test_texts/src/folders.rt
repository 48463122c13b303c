//! Folders of the system and what they are loaded as, or why not.

use net_io::RealFiles;
use net_load::{LoadFail, load_folder};
use net_types::{Loaded, Text};
use test_stop::Stop;

/// Folders with other files beside configurations, with one hostname twice, with a text that is refused; and one that isn't
/// there.
pub(crate) fn show(rt: &HostRuntime) -> Result<(), Stop> {
    for folder in ["mixed", "taken", "refused", "nameless", "later", "gone"] {
        show_folder(rt, folder)?;
    }
    Ok(())
}

fn show_folder(rt: &HostRuntime, folder: &str) -> Result<(), Stop> {
    let mut files = RealFiles::new(rt.clone()?);
    match load_folder(rt.alloc(), &mut files, folder) {
        Ok(loaded) => show_loaded(rt, folder, &loaded),
        Err(fail) => show_fail(rt, &fail),
    }
}

fn show_loaded(rt: &HostRuntime, folder: &str, loaded: &[Loaded]) -> Result<(), Stop> {
    println!(rt; "{folder} has {}", loaded.len())?;
    for Loaded {
        file,
        config,
        passed,
    } in loaded {
        let file = file.as_bytes().escape_ascii();
        let hostname = config.hostname.as_bytes().escape_ascii();
        println!(rt; "{file} {hostname} passed over {passed}")?;
    }
    Ok(())
}

fn show_fail(rt: &HostRuntime, fail: &LoadFail) -> Result<(), Stop> {
    match fail {
        LoadFail::Fault { path } => show_path(rt, "failed", path),
        LoadFail::Absent { path } => show_path(rt, "absent", path),
        LoadFail::TooLong { path } => show_path(rt, "too long", path),
        LoadFail::TooManyFiles { path } => show_path(rt, "too many files", path),
        LoadFail::FolderTooLong { path } => show_path(rt, "folder too long", path),
        LoadFail::Refused { path, refusal } => { show_path(rt, refusal.kind.name(), path) }
        LoadFail::HostnameTaken { first, second } => {
            show_path(rt, "hostname of", first)?;
            show_path(rt, "taken by", second)
        }
        LoadFail::NoMemory => Err(Stop::NoMemory),
    }
}

fn show_path(rt: &HostRuntime, cause: &str, path: &Text) -> Result<(), Stop> {
    println!(rt; "{cause} {}", path.as_bytes().escape_ascii())?;
    Ok(())
}
