//! The names of a folder's entries, out of whatever gives the entries.

ghost use Rattle.std.specs.Prelude.{IfOk, IfErr, map, string_bytes};
ghost use Rattle.std.specs.Iterator.{IsFinite};
ghost use Rattle.net_io.specs.RealFiles.{AreNamesOf, StopsAt};

use std::alloc::{Allocator, Global};
use std::fs::DirEntry;
use std::{io, rt};

/// The names of all entries, in the order in which they come, or the first error.
pub(crate) fn names_of<R, A, I>(alloc: Global, entries: I) -> io::Result<Vec<String>>
where
    R: rt::Files + Drop,
    A: Allocator + Drop,
    I: Iterator<Item = io::Result<DirEntry<R, A>>>,
    requires can { I.can_next entries }
    requires ends { IsFinite (I.remaining entries) }
    ensures names { IfOk result (λ names. AreNamesOf I.next_gives entries (map string_bytes names.items)) }
    ensures error { IfErr result (λ error. StopsAt I.next_gives entries error) }
{
    let mut names = Vec::new(alloc);
    for entry in entries {
        let entry = entry?;
        names.push(entry.file_name().to_string(alloc)?)?;
    }
    Ok(names)
}
