//! The names in a folder, as one line.

use net_io::{FileFail, Files};
use std::alloc::{AllocError, Global};

/// The names of a folder in order, or why there are none.
pub(crate) fn listed<F: Files>(
    alloc: Global,
    files: &mut F,
    folder: &str,
) -> Result<String, AllocError> {
    match files.list(alloc, folder) {
        Ok(names) => joined(alloc, names),
        Err(FileFail::Absent) => "absent".to_string(alloc),
        Err(FileFail::Failed) => "failed".to_string(alloc),
        Err(FileFail::NoMemory) => Err(AllocError),
    }
}

fn joined(alloc: Global, names: Vec<String>) -> Result<String, AllocError> {
    let mut names = names;
    names.sort()?;
    let mut text = String::new(alloc);
    for name in &names {
        if !text.is_empty() {
            text.push(' ')?;
        }
        text.push_str(name.as_str())?;
    }
    Ok(text)
}
