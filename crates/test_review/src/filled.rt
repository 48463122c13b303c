//! Files without an end, in folders of one name.

use net_io::{FileFail, Files};
use std::alloc::{AllocError, Global};

/// Files whose folders list R1.cfg alone, and whose reads fill all the room with `!`.
#[derive(Drop)]
pub(crate) struct Filled;

impl Files for Filled {
    ghost use Rattle.std.specs.Prelude.{None};

    ghost told = { λ _. None };

    ghost faults = { λ _. 0 };

    ghost last = { λ _. None };

    fn list(&mut self, alloc: Global, _path: &str) -> Result<Vec<String>, FileFail> {
        Ok(only_name(alloc)?)
    }

    fn read(&mut self, _path: &str, _at: u64, room: &mut [u8]) -> Result<usize, FileFail> {
        room.fill(b'!');
        Ok(room.len())
    }
}

fn only_name(alloc: Global) -> Result<Vec<String>, AllocError> {
    let mut names = Vec::new(alloc);
    names.push("R1.cfg".to_string(alloc)?)?;
    Ok(names)
}
